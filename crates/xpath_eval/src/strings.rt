//! String-values (XPath 1.0, section 5), and what is made of values by them.
ghost use Rattle.std.specs.Prelude.{◌≡◌, IfOk};
ghost use Rattle.outside_traits.specs.Faults.{HasCause};
ghost use Rattle.path_model.specs.Evaluation as program;
ghost use Rattle.path_model.specs.Meaning as meaning;
ghost use Rattle.path_model.specs.Programs.{at_tree, by_look};
ghost use Rattle.xpath_axes.specs.Positions.{plain, all_plain};
ghost use Rattle.xpath_axes.specs.Runs.{Runs};
ghost use Rattle.xpath_values.specs.PlainValues as strings;
ghost use Rattle.xpath_eval.specs.Values.{meant, all_meant};
ghost use Rattle.xpath_eval.specs.inside.Texts.{data_of, as_text, as_number};

use crate::value::XValue;
use dewey_labels::{Label, List, NoMemory, Text};
use node_seq::{NodeRead, SeqError};
use std::alloc::Global;
use tree_model::Record;
use xpath_axes::{Looks, Position, see_tree};
use xpath_values::XStrings;

/// The data of the texts among positions, joined.
fn joined_texts(alloc: Global, positions: &[Position]) -> Result<Text, NoMemory>
    ensures { IfOk result (λ text. text ≡ meaning.joined_texts (all_plain positions.now)) }
{
    let mut joined = String::new(alloc);
    for position in positions {
        joined.push_str(data_of(position))?;
    }
    Ok(Text::from_string(joined))
}

/// The data of a text; of another position none.
fn data_of(position: &Position) -> &str
    ensures { result.now ≡ data_of (plain position.now) }
{
    match position {
        Position::Node(_, Record::Text(data)) => data.as_str(),
        _ => "",
    }
}

/// The texts under a node, joined.
fn tree_text<S: NodeRead, W: Looks>(
    alloc: Global,
    at: &Label,
    seq: &mut S,
    looks: &mut W,
) -> Result<Text, SeqError>
    ensures run { Runs S.reads W.saw S.contents
        (by_look (at_tree at.now) meaning.joined_texts) (λ s. s)
        seq.old looks.old result seq.new looks.new }
    ensures unchanged { S.unchanged seq.old seq.new }
    ensures cause { HasCause SeqError.DiskFault (S.count seq.old) (S.count seq.new) result }
{
    let nodes = see_tree(alloc, at, seq, looks)?;
    Ok(joined_texts(alloc, nodes.as_slice())?)
}

/// That of a position: of an element or a document the texts under it, joined.
pub(crate) fn string_value<S: NodeRead, W: Looks>(
    alloc: Global,
    of: &Position,
    seq: &mut S,
    looks: &mut W,
) -> Result<Text, SeqError>
    ensures run { Runs S.reads W.saw S.contents (program.string_value (plain of.now)) (λ s. s) seq.old looks.old result seq.new looks.new }
    ensures unchanged { S.unchanged seq.old seq.new }
    ensures cause { HasCause SeqError.DiskFault (S.count seq.old) (S.count seq.new) result }
{
    match of {
        Position::Node(_, Record::Text(data)) => Ok(data.copy(alloc)?),
        Position::Node(label, Record::Document) => tree_text(alloc, label, seq, looks),
        Position::Node(label, Record::Element(_)) => tree_text(alloc, label, seq, looks),
        Position::Node(label, Record::Attr(_)) => tree_text(alloc, label, seq, looks),
        Position::Attribute(_, _, value) => Ok(value.copy(alloc)?),
    }
}

/// Those of positions, in their order.
pub(crate) fn string_values<S: NodeRead, W: Looks>(
    alloc: Global,
    of: &[Position],
    seq: &mut S,
    looks: &mut W,
) -> Result<List<Text>, SeqError>
    ensures run { Runs S.reads W.saw S.contents (program.string_values (all_plain of.now)) (λ ss. ss) seq.old looks.old result seq.new looks.new }
    ensures unchanged { S.unchanged seq.old seq.new }
    ensures cause { HasCause SeqError.DiskFault (S.count seq.old) (S.count seq.new) result }
{
    let mut strings = List::new(alloc);
    for position in of {
        strings.push(string_value(alloc, position, seq, looks)?)?;
    }
    Ok(strings)
}

/// That of the first position, where there is one.
fn first_value<S: NodeRead, W: Looks>(
    alloc: Global,
    of: &[Position],
    seq: &mut S,
    looks: &mut W,
) -> Result<List<Text>, SeqError>
    ensures run { Runs S.reads W.saw S.contents (program.first_value (all_plain of.now)) (λ ss. ss) seq.old looks.old result seq.new looks.new }
    ensures unchanged { S.unchanged seq.old seq.new }
    ensures cause { HasCause SeqError.DiskFault (S.count seq.old) (S.count seq.new) result }
{
    let mut strings = List::new(alloc);
    if let [first, ..] = of {
        strings.push(string_value(alloc, first, seq, looks)?)?;
    }
    Ok(strings)
}

/// The value with the string-value of each of its nodes.
pub(crate) fn with_strings<S: NodeRead, W: Looks>(
    alloc: Global,
    value: &XValue,
    seq: &mut S,
    looks: &mut W,
) -> Result<XStrings, SeqError>
    ensures run { Runs S.reads W.saw S.contents (program.with_strings (meant value.now)) (strings.plain) seq.old looks.old result seq.new looks.new }
    ensures unchanged { S.unchanged seq.old seq.new }
    ensures cause { HasCause SeqError.DiskFault (S.count seq.old) (S.count seq.new) result }
{
    match value {
        XValue::Nodes(nodes) => {
            let strings = string_values(alloc, nodes.as_slice(), seq, looks)?;
            Ok(XStrings::Nodes(strings))
        }
        XValue::Number(number) => Ok(XStrings::Number(*number)),
        XValue::NotANumber => Ok(XStrings::NotANumber),
        XValue::Chars(chars) => Ok(XStrings::Chars(chars.copy(alloc)?)),
        XValue::Flag(flag) => Ok(XStrings::Flag(*flag)),
    }
}

/// The value with the string-value of the first of its nodes alone.
fn with_first<S: NodeRead, W: Looks>(
    alloc: Global,
    value: &XValue,
    seq: &mut S,
    looks: &mut W,
) -> Result<XStrings, SeqError>
    ensures run { Runs S.reads W.saw S.contents (program.with_first (meant value.now)) (strings.plain) seq.old looks.old result seq.new looks.new }
    ensures unchanged { S.unchanged seq.old seq.new }
    ensures cause { HasCause SeqError.DiskFault (S.count seq.old) (S.count seq.new) result }
{
    match value {
        XValue::Nodes(nodes) => {
            let strings = first_value(alloc, nodes.as_slice(), seq, looks)?;
            Ok(XStrings::Nodes(strings))
        }
        XValue::Number(number) => Ok(XStrings::Number(*number)),
        XValue::NotANumber => Ok(XStrings::NotANumber),
        XValue::Chars(chars) => Ok(XStrings::Chars(chars.copy(alloc)?)),
        XValue::Flag(flag) => Ok(XStrings::Flag(*flag)),
    }
}

/// The string of the value (XPath 1.0, section 4.2, `string`).
pub(crate) fn text_of<S: NodeRead, W: Looks>(
    alloc: Global,
    value: &XValue,
    seq: &mut S,
    looks: &mut W,
) -> Result<Text, SeqError>
    ensures run { Runs S.reads W.saw S.contents (as_text (meant value.now)) (λ s. s) seq.old looks.old result seq.new looks.new }
    ensures unchanged { S.unchanged seq.old seq.new }
    ensures cause { HasCause SeqError.DiskFault (S.count seq.old) (S.count seq.new) result }
{
    let strings = with_first(alloc, value, seq, looks)?;
    Ok(strings.text(alloc)?)
}

/// The number of the value, if it is one (section 4.4, `number`).
pub(crate) fn number_of<S: NodeRead, W: Looks>(
    alloc: Global,
    value: &XValue,
    seq: &mut S,
    looks: &mut W,
) -> Result<Option<i64>, SeqError>
    ensures run { Runs S.reads W.saw S.contents (as_number (meant value.now)) (λ n. n) seq.old looks.old result seq.new looks.new }
    ensures unchanged { S.unchanged seq.old seq.new }
    ensures cause { HasCause SeqError.DiskFault (S.count seq.old) (S.count seq.new) result }
{
    let strings = with_first(alloc, value, seq, looks)?;
    Ok(strings.number())
}

/// The strings of values.
pub(crate) fn texts_of<S: NodeRead, W: Looks>(
    alloc: Global,
    values: &[XValue],
    seq: &mut S,
    looks: &mut W,
) -> Result<List<Text>, SeqError>
    ensures run { Runs S.reads W.saw S.contents (program.texts_of (all_meant values.now)) (λ ss. ss) seq.old looks.old result seq.new looks.new }
    ensures unchanged { S.unchanged seq.old seq.new }
    ensures cause { HasCause SeqError.DiskFault (S.count seq.old) (S.count seq.new) result }
{
    let mut texts = List::new(alloc);
    for value in values {
        texts.push(text_of(alloc, value, seq, looks)?)?;
    }
    Ok(texts)
}

/// The numbers of values.
pub(crate) fn numbers_of<S: NodeRead, W: Looks>(
    alloc: Global,
    values: &[XValue],
    seq: &mut S,
    looks: &mut W,
) -> Result<List<Option<i64>>, SeqError>
    ensures run { Runs S.reads W.saw S.contents (program.numbers_of (all_meant values.now)) (λ ns. ns) seq.old looks.old result seq.new looks.new }
    ensures unchanged { S.unchanged seq.old seq.new }
    ensures cause { HasCause SeqError.DiskFault (S.count seq.old) (S.count seq.new) result }
{
    let mut numbers = List::new(alloc);
    for value in values {
        numbers.push(number_of(alloc, value, seq, looks)?)?;
    }
    Ok(numbers)
}
