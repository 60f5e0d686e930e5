// What is read off the replies of a command of one document.
ghost use Rattle.std.specs.Prelude.{◌≡◌, ◌++◌, ◌∷◌, [], IfOk};
ghost use Rattle.command_lines.specs.ReplyValues.{reply_value};
ghost use Rattle.serde_json.specs.Written.{compact_text};
ghost use Rattle.jsonml_io.specs.Written.{fragment_text};
ghost use Rattle.xtc.specs.Documents.{answer_line, hits_in, hits_line, label_in, tree_in, label_line, tree_line};

use crate::question::Question;
use command_lines::{LineAnswer, LineReply, write_answer};
use dewey_labels::{Label, List, NoMemory};
use jsonml_io::text_of;
use std::alloc::Global;
use tree_model::{Fragment, Reply};

/// The first label that is answered.
pub fn label_in(alloc: Global, replies: &[LineReply]) -> Result<Option<Label>, NoMemory>
    ensures { IfOk result (λ label. label ≡ label_in replies.now) }
{
    for reply in replies {
        if let LineReply::Said {
            answer: LineAnswer::Reply(Reply::Place(Some(label))),
            ..
        } = reply
        {
            return Ok(Some(label.copy(alloc)?));
        }
    }
    Ok(None)
}

/// The first label that is answered, as a JSON string in a line; `null` where there is none.
pub fn label_line(alloc: Global, replies: &[LineReply]) -> Result<Vec<u8>, NoMemory>
    ensures { IfOk result (λ text. text.items ≡ label_line (label_in replies.now)) }
{
    let label = label_in(alloc, replies)?;
    line_of(alloc, &Reply::Place(label))
}

/// What was asked of a document, in a line: `null` where there is no answer.
pub fn answer_line(
    alloc: Global,
    question: &Question,
    replies: &[LineReply],
) -> Result<Vec<u8>, NoMemory>
    ensures { IfOk result (λ text. text.items ≡ answer_line question.now replies.now) }
{
    match question {
        Question::Whole => tree_line(alloc, replies),
        Question::FoundBy(_) => hits_line(alloc, replies),
    }
}

/// The first fragment that is answered, as JsonML in a line; `null` where there is none.
fn tree_line(alloc: Global, replies: &[LineReply]) -> Result<Vec<u8>, NoMemory>
    ensures { IfOk result (λ text. text.items ≡ tree_line (tree_in replies.now)) }
{
    for reply in replies {
        if let LineReply::Said {
            answer: LineAnswer::Reply(Reply::Tree(Some(tree))),
            ..
        } = reply
        {
            return fragment_line(alloc, tree);
        }
    }
    line_of(alloc, &Reply::Nothing)
}

/// The first node set that is answered, as an array of labels in a line; `null` where there is none.
fn hits_line(alloc: Global, replies: &[LineReply]) -> Result<Vec<u8>, NoMemory>
    ensures { IfOk result (λ text. text.items ≡ hits_line (hits_in replies.now)) }
{
    for reply in replies {
        if let LineReply::Said {
            answer: LineAnswer::Reply(shown @ Reply::Found(_)),
            ..
        } = reply
        {
            return line_of(alloc, shown);
        }
    }
    line_of(alloc, &Reply::Nothing)
}

/// A fragment's text, and LF. No value is built of it.
fn fragment_line(alloc: Global, fragment: &Fragment) -> Result<Vec<u8>, NoMemory>
    ensures { IfOk result (λ text. text.items ≡ fragment_text fragment.now ++ 10 ∷ []) }
{
    let mut text = text_of(alloc, fragment)?;
    text.push(b'\n')?;
    Ok(text)
}

/// A reply's value as compact text, and LF.
fn line_of(alloc: Global, reply: &Reply) -> Result<Vec<u8>, NoMemory>
    ensures { IfOk result (λ text. text.items ≡ compact_text (reply_value reply.now) ++ 10 ∷ []) }
{
    let mut text = List::new(alloc);
    write_answer(alloc, reply, &mut text)?;
    Ok(text.into_vec())
}
