//! Operators and functions on values (XPath 1.0, sections 3 and 4). Each takes the string-values that it needs once all its operands are there.
ghost use Rattle.std.specs.Prelude.{◌≡◌, IfOk, drop, false};
ghost use Rattle.outside_traits.specs.Faults.{HasCause};
ghost use Rattle.path_model.specs.Evaluation as program;
ghost use Rattle.path_model.specs.Functions as spec;
ghost use Rattle.path_model.specs.Positions.{own_name};
ghost use Rattle.path_model.specs.Values as value;
ghost use Rattle.xpath_axes.specs.Positions.{plain, all_plain};
ghost use Rattle.xpath_axes.specs.Runs.{Runs};
ghost use Rattle.xpath_eval.specs.Values.{meant, all_meant};
ghost use Rattle.xpath_eval.specs.inside.Contexts.{RunsIn, stands};
ghost use Rattle.xpath_eval.specs.inside.Operations.{by_texts, calculated, calculation, is_set_with_flag, own_operand, text_function};
ghost use Rattle.xpath_eval.specs.inside.Texts.{as_text, as_number};

use crate::context::Context;
use crate::numbers::{count, whole};
use crate::strings::{
    number_of, numbers_of, string_value, string_values, text_of, texts_of, with_strings,
};
use crate::value::XValue;
use dewey_labels::{NoMemory, Text};
use node_seq::{NodeRead, SeqError};
use path_model::{CompareOp, Op};
use std::alloc::Global;
use tree_model::Record;
use xpath_axes::{Looks, Position};
use xpath_values::{
    XStrings, compare, concat, contains, minus, normalize_space, number_of_text, plus, starts_with,
    string_length, substring_after, substring_before, substring_from, substring_within, sum, times,
};

/// What is calculated of two numbers.
#[derive(Clone, Copy, Debug)]
enum Calculation {
    Plus,
    Minus,
    Times,
}

/// What is answered of a string and a part of it.
#[derive(Clone, Copy, Debug)]
enum TextFunction {
    StartsWith,
    Contains,
    Before,
    After,
}

/// The operand at a place, or what stands for one that is lacking.
fn operand<'a>(values: &'a [XValue], place: usize, lacking: &'a XValue) -> &'a XValue
    requires { meant lacking.now ≡ value.flag false }
    ensures { meant result.now ≡ spec.first_of (drop place (all_meant values.now)) }
{
    if place < values.len() {
        &values[place]
    } else {
        lacking
    }
}

/// A node set is compared with a boolean without string-values.
fn compared<S: NodeRead, W: Looks>(
    alloc: Global,
    by: CompareOp,
    left: &XValue,
    right: &XValue,
    seq: &mut S,
    looks: &mut W,
) -> Result<XValue, SeqError>
    ensures run { Runs S.reads W.saw S.contents
        (program.compared by (meant left.now) (meant right.now)) meant
        seq.old looks.old result seq.new looks.new }
    ensures unchanged { S.unchanged seq.old seq.new }
    ensures cause { HasCause SeqError.DiskFault (S.count seq.old) (S.count seq.new) result }
{
    if is_set_with_flag(left, right) {
        let truths = (XStrings::Flag(left.truth()), XStrings::Flag(right.truth()));
        return Ok(XValue::Flag(compare(by, &truths.0, &truths.1)));
    }
    by_strings(alloc, by, left, right, seq, looks)
}

/// Whether one is a node set and the other one a boolean.
fn is_set_with_flag(left: &XValue, right: &XValue) -> bool
    ensures { result ≡ is_set_with_flag (meant left.now) (meant right.now) }
{
    match (left, right) {
        (XValue::Nodes(_), XValue::Flag(_)) => true,
        (XValue::Flag(_), XValue::Nodes(_)) => true,
        _ => false,
    }
}

fn by_strings<S: NodeRead, W: Looks>(
    alloc: Global,
    by: CompareOp,
    left: &XValue,
    right: &XValue,
    seq: &mut S,
    looks: &mut W,
) -> Result<XValue, SeqError>
    ensures run { Runs S.reads W.saw S.contents
        (program.by_strings by (meant left.now) (meant right.now)) meant
        seq.old looks.old result seq.new looks.new }
    ensures unchanged { S.unchanged seq.old seq.new }
    ensures cause { HasCause SeqError.DiskFault (S.count seq.old) (S.count seq.new) result }
{
    let one = with_strings(alloc, left, seq, looks)?;
    let other = with_strings(alloc, right, seq, looks)?;
    Ok(XValue::Flag(compare(by, &one, &other)))
}

fn calculated<S: NodeRead, W: Looks>(
    alloc: Global,
    by: Calculation,
    left: &XValue,
    right: &XValue,
    seq: &mut S,
    looks: &mut W,
) -> Result<XValue, SeqError>
    ensures run { Runs S.reads W.saw S.contents
        (calculated by (meant left.now) (meant right.now)) meant
        seq.old looks.old result seq.new looks.new }
    ensures unchanged { S.unchanged seq.old seq.new }
    ensures cause { HasCause SeqError.DiskFault (S.count seq.old) (S.count seq.new) result }
{
    let one = number_of(alloc, left, seq, looks)?;
    let other = number_of(alloc, right, seq, looks)?;
    Ok(XValue::of_number(calculate(by, one, other)))
}

fn calculate(by: Calculation, one: Option<i64>, other: Option<i64>) -> Option<i64>
    ensures { result ≡ calculation by one other }
{
    match by {
        Calculation::Plus => plus(one, other),
        Calculation::Minus => minus(one, other),
        Calculation::Times => times(one, other),
    }
}

fn negated<S: NodeRead, W: Looks>(
    alloc: Global,
    of: &XValue,
    seq: &mut S,
    looks: &mut W,
) -> Result<XValue, SeqError>
    ensures run { Runs S.reads W.saw S.contents
        (program.negated (meant of.now)) meant seq.old looks.old result seq.new looks.new }
    ensures unchanged { S.unchanged seq.old seq.new }
    ensures cause { HasCause SeqError.DiskFault (S.count seq.old) (S.count seq.new) result }
{
    let number = number_of(alloc, of, seq, looks)?;
    Ok(XValue::of_number(minus(Some(0), number)))
}

fn summed<S: NodeRead, W: Looks>(
    alloc: Global,
    of: &XValue,
    seq: &mut S,
    looks: &mut W,
) -> Result<XValue, SeqError>
    ensures run { Runs S.reads W.saw S.contents
        (program.summed (meant of.now)) meant seq.old looks.old result seq.new looks.new }
    ensures unchanged { S.unchanged seq.old seq.new }
    ensures cause { HasCause SeqError.DiskFault (S.count seq.old) (S.count seq.new) result }
{
    let XValue::Nodes(nodes) = of else {
        return Ok(XValue::Number(0));
    };
    let strings = string_values(alloc, nodes.as_slice(), seq, looks)?;
    Ok(XValue::of_number(sum(strings.as_slice())))
}

/// The name of the first node, or of the context node where no operand is written.
fn name_of(alloc: Global, operands: &[XValue], context: &Context<'_>) -> Result<XValue, NoMemory>
    ensures { IfOk result (λ name. meant name ≡ value.text (spec.name_by (all_meant operands.now) (stands context.now))) }
{
    let name = match operands {
        [] => own_name(context.at),
        [XValue::Nodes(nodes), ..] => first_name(nodes.as_slice()),
        _ => "",
    };
    Ok(XValue::Chars(Text::of(alloc, name)?))
}

fn first_name(nodes: &[Position]) -> &str
    ensures { result.now ≡ spec.first_name (all_plain nodes.now) }
{
    match nodes {
        [first, ..] => own_name(first),
        [] => "",
    }
}

/// The name of an element or an attribute; that of a document or a text is empty.
fn own_name(position: &Position) -> &str
    ensures { result.now ≡ own_name (plain position.now) }
{
    match position {
        Position::Node(_, Record::Element(name)) => name.as_str(),
        Position::Node(..) => "",
        Position::Attribute(_, name, _) => name.as_str(),
    }
}

/// The string of the operand, or of the context node.
fn own_text<S: NodeRead, W: Looks>(
    alloc: Global,
    operands: &[XValue],
    context: &Context<'_>,
    seq: &mut S,
    looks: &mut W,
) -> Result<Text, SeqError>
    ensures run { Runs S.reads W.saw S.contents
        (as_text (own_operand operands.now context.now)) (λ s. s)
        seq.old looks.old result seq.new looks.new }
    ensures unchanged { S.unchanged seq.old seq.new }
    ensures cause { HasCause SeqError.DiskFault (S.count seq.old) (S.count seq.new) result }
{
    match operands {
        [first, ..] => text_of(alloc, first, seq, looks),
        [] => string_value(alloc, context.at, seq, looks),
    }
}

/// The number of the operand, or of the context node.
fn own_number<S: NodeRead, W: Looks>(
    alloc: Global,
    operands: &[XValue],
    context: &Context<'_>,
    seq: &mut S,
    looks: &mut W,
) -> Result<Option<i64>, SeqError>
    ensures run { Runs S.reads W.saw S.contents
        (as_number (own_operand operands.now context.now)) (λ n. n)
        seq.old looks.old result seq.new looks.new }
    ensures unchanged { S.unchanged seq.old seq.new }
    ensures cause { HasCause SeqError.DiskFault (S.count seq.old) (S.count seq.new) result }
{
    match operands {
        [first, ..] => number_of(alloc, first, seq, looks),
        [] => {
            let text = string_value(alloc, context.at, seq, looks)?;
            Ok(number_of_text(text.as_str()))
        }
    }
}

fn as_string<S: NodeRead, W: Looks>(
    alloc: Global,
    operands: &[XValue],
    context: &Context<'_>,
    seq: &mut S,
    looks: &mut W,
) -> Result<XValue, SeqError>
    ensures run { Runs S.reads W.saw S.contents
        (program.string_of (own_operand operands.now context.now)) meant
        seq.old looks.old result seq.new looks.new }
    ensures unchanged { S.unchanged seq.old seq.new }
    ensures cause { HasCause SeqError.DiskFault (S.count seq.old) (S.count seq.new) result }
{
    let text = own_text(alloc, operands, context, seq, looks)?;
    Ok(XValue::Chars(text))
}

fn counted_characters<S: NodeRead, W: Looks>(
    alloc: Global,
    operands: &[XValue],
    context: &Context<'_>,
    seq: &mut S,
    looks: &mut W,
) -> Result<XValue, SeqError>
    ensures run { Runs S.reads W.saw S.contents
        (program.string_length_of (own_operand operands.now context.now)) meant
        seq.old looks.old result seq.new looks.new }
    ensures unchanged { S.unchanged seq.old seq.new }
    ensures cause { HasCause SeqError.DiskFault (S.count seq.old) (S.count seq.new) result }
{
    let text = own_text(alloc, operands, context, seq, looks)?;
    Ok(XValue::Number(string_length(text.as_str())))
}

fn normalized<S: NodeRead, W: Looks>(
    alloc: Global,
    operands: &[XValue],
    context: &Context<'_>,
    seq: &mut S,
    looks: &mut W,
) -> Result<XValue, SeqError>
    ensures run { Runs S.reads W.saw S.contents
        (program.normalized (own_operand operands.now context.now)) meant
        seq.old looks.old result seq.new looks.new }
    ensures unchanged { S.unchanged seq.old seq.new }
    ensures cause { HasCause SeqError.DiskFault (S.count seq.old) (S.count seq.new) result }
{
    let text = own_text(alloc, operands, context, seq, looks)?;
    Ok(XValue::Chars(normalize_space(alloc, text.as_str())?))
}

fn as_number<S: NodeRead, W: Looks>(
    alloc: Global,
    operands: &[XValue],
    context: &Context<'_>,
    seq: &mut S,
    looks: &mut W,
) -> Result<XValue, SeqError>
    ensures run { Runs S.reads W.saw S.contents
        (program.number_of (own_operand operands.now context.now)) meant
        seq.old looks.old result seq.new looks.new }
    ensures unchanged { S.unchanged seq.old seq.new }
    ensures cause { HasCause SeqError.DiskFault (S.count seq.old) (S.count seq.new) result }
{
    let number = own_number(alloc, operands, context, seq, looks)?;
    Ok(XValue::of_number(number))
}

fn joined<S: NodeRead, W: Looks>(
    alloc: Global,
    operands: &[XValue],
    seq: &mut S,
    looks: &mut W,
) -> Result<XValue, SeqError>
    ensures run { Runs S.reads W.saw S.contents
        (program.concatenated (all_meant operands.now)) meant
        seq.old looks.old result seq.new looks.new }
    ensures unchanged { S.unchanged seq.old seq.new }
    ensures cause { HasCause SeqError.DiskFault (S.count seq.old) (S.count seq.new) result }
{
    let texts = texts_of(alloc, operands, seq, looks)?;
    Ok(XValue::Chars(concat(alloc, texts.as_slice())?))
}

fn by_texts<S: NodeRead, W: Looks>(
    alloc: Global,
    by: TextFunction,
    left: &XValue,
    right: &XValue,
    seq: &mut S,
    looks: &mut W,
) -> Result<XValue, SeqError>
    ensures run { Runs S.reads W.saw S.contents
        (by_texts by (meant left.now) (meant right.now)) meant
        seq.old looks.old result seq.new looks.new }
    ensures unchanged { S.unchanged seq.old seq.new }
    ensures cause { HasCause SeqError.DiskFault (S.count seq.old) (S.count seq.new) result }
{
    let text = text_of(alloc, left, seq, looks)?;
    let part = text_of(alloc, right, seq, looks)?;
    Ok(of_texts(alloc, by, text.as_str(), part.as_str())?)
}

fn of_texts(alloc: Global, by: TextFunction, text: &str, part: &str) -> Result<XValue, NoMemory>
    ensures { IfOk result (λ value. meant value ≡ text_function by text.now part.now) }
{
    Ok(match by {
        TextFunction::StartsWith => XValue::Flag(starts_with(text, part)),
        TextFunction::Contains => XValue::Flag(contains(text, part)),
        TextFunction::Before => XValue::Chars(Text::of(alloc, substring_before(text, part))?),
        TextFunction::After => XValue::Chars(Text::of(alloc, substring_after(text, part))?),
    })
}

/// `substring`
fn part<S: NodeRead, W: Looks>(
    alloc: Global,
    operands: &[XValue],
    context: &Context<'_>,
    seq: &mut S,
    looks: &mut W,
) -> Result<XValue, SeqError>
    ensures run { Runs S.reads W.saw S.contents (program.part (all_meant operands.now)) meant
        seq.old looks.old result seq.new looks.new }
    ensures unchanged { S.unchanged seq.old seq.new }
    ensures cause { HasCause SeqError.DiskFault (S.count seq.old) (S.count seq.new) result }
{
    let text = text_of(alloc, operand(operands, 0, context.lacking), seq, looks)?;
    let start = number_of(alloc, operand(operands, 1, context.lacking), seq, looks)?;
    let others = numbers_of(alloc, behind_two(operands), seq, looks)?;
    let kept = part_of(text.as_str(), start, others.as_slice());
    Ok(XValue::Chars(Text::of(alloc, kept)?))
}

fn behind_two(operands: &[XValue]) -> &[XValue]
    ensures { all_meant result.now ≡ drop 2 (all_meant operands.now) }
{
    match operands {
        [_, _, rest @ ..] => rest,
        _ => &[],
    }
}

fn part_of<'a>(text: &'a str, start: Option<i64>, others: &[Option<i64>]) -> &'a str
    ensures { result.now ≡ spec.part_of text.now start others.now }
{
    match others {
        [] => substring_from(text, start),
        [length, ..] => substring_within(text, start, *length),
    }
}

/// An operator or function on the values of all its operands; `or` and `and`, which leave operands out, stand elsewhere.
pub(crate) fn applied<S: NodeRead, W: Looks>(
    alloc: Global,
    op: Op,
    operands: &[XValue],
    context: &Context<'_>,
    seq: &mut S,
    looks: &mut W,
) -> Result<XValue, SeqError>
    ensures run { RunsIn S.reads W.saw S.contents context.now
        (program.applied op (all_meant operands.now)) meant
        seq.old looks.old result seq.new looks.new }
    ensures unchanged { S.unchanged seq.old seq.new }
    ensures cause { HasCause SeqError.DiskFault (S.count seq.old) (S.count seq.new) result }
{
    let first = operand(operands, 0, context.lacking);
    let second = operand(operands, 1, context.lacking);
    match op {
        Op::Or => Ok(XValue::Flag(false)),
        Op::And => Ok(XValue::Flag(false)),
        Op::Eq => compared(alloc, CompareOp::Eq, first, second, seq, looks),
        Op::Ne => compared(alloc, CompareOp::Ne, first, second, seq, looks),
        Op::Lt => compared(alloc, CompareOp::Lt, first, second, seq, looks),
        Op::Le => compared(alloc, CompareOp::Le, first, second, seq, looks),
        Op::Gt => compared(alloc, CompareOp::Gt, first, second, seq, looks),
        Op::Ge => compared(alloc, CompareOp::Ge, first, second, seq, looks),
        Op::Add => calculated(alloc, Calculation::Plus, first, second, seq, looks),
        Op::Sub => calculated(alloc, Calculation::Minus, first, second, seq, looks),
        Op::Mul => calculated(alloc, Calculation::Times, first, second, seq, looks),
        Op::Negate => negated(alloc, first, seq, looks),
        Op::Position => Ok(whole(context.proximity)),
        Op::Last => Ok(whole(context.size)),
        Op::Count => Ok(count(first)),
        Op::Sum => summed(alloc, first, seq, looks),
        Op::NameOf => Ok(name_of(alloc, operands, context)?),
        Op::StringOf => as_string(alloc, operands, context, seq, looks),
        Op::Concat => joined(alloc, operands, seq, looks),
        Op::StartsWith => by_texts(alloc, TextFunction::StartsWith, first, second, seq, looks),
        Op::Contains => by_texts(alloc, TextFunction::Contains, first, second, seq, looks),
        Op::SubstringBefore => by_texts(alloc, TextFunction::Before, first, second, seq, looks),
        Op::SubstringAfter => by_texts(alloc, TextFunction::After, first, second, seq, looks),
        Op::Substring => part(alloc, operands, context, seq, looks),
        Op::StringLength => counted_characters(alloc, operands, context, seq, looks),
        Op::NormalizeSpace => normalized(alloc, operands, context, seq, looks),
        Op::BooleanOf => Ok(XValue::Flag(first.truth())),
        Op::Not => Ok(XValue::Flag(!first.truth())),
        Op::TrueOf => Ok(XValue::Flag(true)),
        Op::FalseOf => Ok(XValue::Flag(false)),
        Op::NumberOf => as_number(alloc, operands, context, seq, looks),
    }
}
