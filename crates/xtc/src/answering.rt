//! A whole script done by its workers over a core, and the text of it: the replies in the order of the lines, and then the order line.
//! The core's own book shows the text (`IsShownBy`), and the journal holds its commits. Where a line met a fault, or memory was wanting for the text, the journal holds the first commits of the book.
ghost use Rattle.std.specs.Prelude.{◌≡◌, List, ◌++◌, length, Ok, IfOk, IfErr, OnOk};
ghost use Rattle.command_lines.specs.Replies.{reply_text};
ghost use Rattle.command_lines.specs.declared.line_reply.LineReply.{LineReply};
ghost use Rattle.shared_store.specs.Lists.{SessionsFit};
ghost use Rattle.store_calls.specs.StoreCalls.{store_meaning, IsValidStoreCall};
ghost use Rattle.workers_text.specs.Shown.{ShowsText, lines_in};
ghost use Rattle.xtc.specs.inside.Texts.{whole_text};
ghost use Rattle.workers_text.specs.Entries.{commands_in};
ghost use Rattle.group_commit.specs.Cores.{EachFrom, HasBookFrom, IsFrom, MayBegin};
ghost use Rattle.group_commit.specs.Journals.{WroteCommits};
ghost use Rattle.workers_text.specs.WorkersText.{DoesSomeAsked, order_of};

use command_lines::{LineReply, write_reply};
use dewey_labels::{List, NoMemory};
use group_commit::{Ran, run_lines};
use journal::Journal;
use node_seq::NodeRead;
use outside_traits::{Disk, Gate};
use std::alloc::Global;
use std::sync::Wait;
use std::thread::Threads;
use store_calls::StoreOp;
use tx_core::Core;
use worker_run::PortFault;
use workers_text::{Script, order_line};

/// The core and the journal when the workers have ended, and the text of the script, or why there is none.
#[derive(Drop)]
pub struct Answered<B: NodeRead + Drop, J: Disk> {
    pub core: Core<StoreOp, B>,
    pub journal: Journal<J>,
    pub text: Result<Vec<u8>, PortFault>,
}

/// The text of a script whose commands have these replies: the replies of all lines, and then the order line of the book.
fn text_of<B: NodeRead + Drop>(
    alloc: Global,
    script: &Script,
    replies: Result<List<LineReply>, PortFault>,
    core: &Core<StoreOp, B>,
) -> Result<Vec<u8>, PortFault>
    requires all { IfOk replies (λ replies. length replies ≡ length (commands_in script.now.entries)) }
    requires sessions { SessionsFit core.now.book }
    ensures { IfOk result (λ text. (given : List LineReply) × (replies ≡ Ok given)
        × (text.items ≡ whole_text script.now.entries given core.now.book)) }
{
    let replies = replies?;
    match written(alloc, script, &replies, core) {
        Ok(text) => Ok(text),
        Err(NoMemory) => Err(PortFault::NoMemory),
    }
}

/// The text of the replies of all lines, where these are the commands', and of the order line behind them.
fn written<B: NodeRead + Drop>(
    alloc: Global,
    script: &Script,
    replies: &List<LineReply>,
    core: &Core<StoreOp, B>,
) -> Result<Vec<u8>, NoMemory>
    requires all { length replies.now ≡ length (commands_in script.now.entries) }
    requires sessions { SessionsFit core.now.book }
    ensures { IfOk result (λ text.
        text.items ≡ whole_text script.now.entries replies.now core.now.book) }
{
    let mut text = List::new(alloc);
    script.write_replies(alloc, replies.as_slice(), &mut text)?;
    write_order(alloc, core, &mut text)?;
    Ok(text.into_vec())
}

/// Puts the order line of the book at the end of `out`.
fn write_order<B: NodeRead + Drop>(
    alloc: Global,
    core: &Core<StoreOp, B>,
    out: &mut List<u8>,
) -> Result<(), NoMemory>
    requires { SessionsFit core.now.book }
    ensures { OnOk result (out.new ≡ out.old ++ reply_text (order_of core.now.book)) }
{
    let order = order_line(alloc, core.book())?;
    write_reply(alloc, &order, out)
}

/// Does a whole script, each session's lines in their order by a worker of its own, in threads of their own where these can be made, and answers its text.
///
/// The core's book is the one book of the run. Where there is a text, this book shows it: each session's lines are among its entries with the replies that stand in their places,
/// a line that is no command has its own, and the order line is last. Where a line met a fault, or memory was wanting for the text, there is none, and the book has of each session the first of its lines,
/// the last of them as far as it came. Each commit is in the journal before its line is answered; the journal holds the first commits of the book, and all of them where there is a text.
pub fn answer_script<
    R: Threads + Wait + Sync,
    B: NodeRead + Drop + Send,
    J: Disk + Send,
    G: Gate + Sync,
>(
    rt: &R,
    alloc: Global,
    core: Core<StoreOp, B>,
    journal: Journal<J>,
    script: &Script,
    gate: &G,
) -> Answered<B, J>
    requires begin { MayBegin core journal }
    ensures opened { IsFrom B.unchanged core result.core }
    ensures book { HasBookFrom IsValidStoreCall store_meaning B.contents core result.core }
    ensures written { WroteCommits store_meaning B.contents J.is_known journal result.text result.core result.journal }
    ensures text { IfOk result.text (λ text.
        ShowsText store_meaning B.contents core result.core script.now.entries text.items) }
    ensures stops { IfErr result.text (λ _.
        EachFrom B.contents core result.core (DoesSomeAsked store_meaning (lines_in script.now.entries))) }
{
    let Ran {
        core,
        journal,
        replies,
    } = run_lines(rt, alloc, core, journal, script.commands(), gate);
    let text = text_of(alloc, script, replies, &core);
    Answered {
        core,
        journal,
        text,
    }
}
