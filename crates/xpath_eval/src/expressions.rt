//! Expressions, predicates and steps (XPath 1.0, sections 2 and 3): nothing recurses along a chain, a list of steps or of operands.
ghost use Rattle.std.specs.Prelude.{◌≡◌, ◌∷◌, [], ◌++◌, true, IfOk, IsTrue};
ghost use Rattle.outside_traits.specs.Faults.{HasCause};
ghost use Rattle.path_model.specs.declared.path.Axis.TheVariants as along;
ghost use Rattle.path_model.specs.declared.path.Step.{out-Step};
ghost use Rattle.path_model.specs.Evaluation as program;
ghost use Rattle.path_model.specs.Paths.{apply};
ghost use Rattle.path_model.specs.PlainPaths.{plain_row, plain_way};
ghost use Rattle.path_model.specs.PlainPaths as paths;
ghost use Rattle.path_model.specs.Programs.{gathered};
ghost use Rattle.path_model.specs.Values.{same_flag};
ghost use Rattle.xpath_axes.specs.Kept.{holds};
ghost use Rattle.xpath_axes.specs.Positions.{plain, all_plain};
ghost use Rattle.xpath_axes.specs.Runs.{Runs};
ghost use Rattle.xpath_eval.specs.Values.{meant, all_meant};
ghost use Rattle.xpath_eval.specs.inside.Chains.{both, chain_of, is_decided, linked};
ghost use Rattle.xpath_eval.specs.inside.Contexts.{RunsIn};
ghost use Rattle.xpath_eval.specs.inside.Steps.{from_node, kept_where, StepsOver, LeadsDown};

use crate::context::Context;
use crate::operations::applied;
use crate::order::in_document_order;
use crate::places::{at_place, enough_for, number_in};
use crate::value::XValue;
use dewey_labels::{List, NoMemory, Text};
use node_seq::{NodeRead, SeqError};
use path_model::{Axis, Expr, NodeTest, Op, Step};
use std::alloc::Global;
use xpath_axes::{
    Looks, Position, axis, axis_up_to, document_label, keep_if, put_behind, row_ahead, see_node,
};

/// The value of an expression.
#[cycle(evaluation)]
fn value<S: NodeRead, W: Looks>(
    alloc: Global,
    expr: &Expr,
    context: &Context<'_>,
    seq: &mut S,
    looks: &mut W,
) -> Result<XValue, SeqError>
    ensures run { RunsIn S.reads W.saw S.contents context.now
        (program.value (paths.plain expr.now)) meant seq.old looks.old result seq.new looks.new }
    ensures unchanged { S.unchanged seq.old seq.new }
    ensures cause { HasCause SeqError.DiskFault (S.count seq.old) (S.count seq.new) result }
{
    match expr {
        Expr::Path(path) => {
            let from = begun(alloc, path.absolute, context.at, seq, looks)?;
            let nodes = taken(alloc, path.steps.as_slice(), from, seq, looks)?;
            Ok(XValue::Nodes(nodes.into_vec()))
        }
        Expr::Number(number) => Ok(XValue::Number(*number)),
        Expr::Literal(literal) => Ok(XValue::Chars(literal.copy(alloc)?)),
        Expr::Chain {
            operands,
            operators,
        } => {
            let operators = operators.as_slice();
            chain(alloc, operands.as_slice(), operators, context, seq, looks)
        }
        Expr::Apply(op, operands) => { apply(alloc, *op, operands.as_slice(), context, seq, looks) }
    }
}

/// Binary operators from left to right.
#[cycle(evaluation)]
fn chain<S: NodeRead, W: Looks>(
    alloc: Global,
    operands: &[Expr],
    operators: &[Op],
    context: &Context<'_>,
    seq: &mut S,
    looks: &mut W,
) -> Result<XValue, SeqError>
    ensures run { RunsIn S.reads W.saw S.contents context.now
        (chain_of operands.now operators.now) meant seq.old looks.old result seq.new looks.new }
    ensures unchanged { S.unchanged seq.old seq.new }
    ensures cause { HasCause SeqError.DiskFault (S.count seq.old) (S.count seq.new) result }
{
    let [first, rest @ ..] = operands else {
        return Ok(XValue::Chars(Text::of(alloc, "")?));
    };
    let mut left = value(alloc, first, context, seq, looks)?;
    for (index, operand) in rest.iter().enumerate() {
        if index >= operators.len() {
            return Ok(left);
        }
        left = link(alloc, operators[index], left, operand, context, seq, looks)?;
    }
    Ok(left)
}

/// An operator on a value and the operand behind it, which `or` and `and` may leave out.
#[cycle(evaluation)]
fn link<S: NodeRead, W: Looks>(
    alloc: Global,
    op: Op,
    left: XValue,
    operand: &Expr,
    context: &Context<'_>,
    seq: &mut S,
    looks: &mut W,
) -> Result<XValue, SeqError>
    ensures run { RunsIn S.reads W.saw S.contents context.now
        (linked op (meant left) (paths.plain operand.now)) meant
        seq.old looks.old result seq.new looks.new }
    ensures unchanged { S.unchanged seq.old seq.new }
    ensures cause { HasCause SeqError.DiskFault (S.count seq.old) (S.count seq.new) result }
{
    if is_decided(op, &left) {
        return Ok(XValue::Flag(left.truth()));
    }
    let right = value(alloc, operand, context, seq, looks)?;
    both(alloc, op, left, right, context, seq, looks)
}

/// An operator or function on its operands, which `or` and `and` may leave out.
#[cycle(evaluation)]
fn apply<S: NodeRead, W: Looks>(
    alloc: Global,
    op: Op,
    operands: &[Expr],
    context: &Context<'_>,
    seq: &mut S,
    looks: &mut W,
) -> Result<XValue, SeqError>
    ensures run { RunsIn S.reads W.saw S.contents context.now
        (program.value (apply op (plain_row operands.now))) meant
        seq.old looks.old result seq.new looks.new }
    ensures unchanged { S.unchanged seq.old seq.new }
    ensures cause { HasCause SeqError.DiskFault (S.count seq.old) (S.count seq.new) result }
{
    match op {
        Op::Or => settled(alloc, true, operands, context, seq, looks),
        Op::And => settled(alloc, false, operands, context, seq, looks),
        _ => {
            let values = values_of(alloc, operands, context, seq, looks)?;
            applied(alloc, op, values.as_slice(), context, seq, looks)
        }
    }
}

/// The first operand whose boolean is this one settles it.
#[cycle(evaluation)]
fn settled<S: NodeRead, W: Looks>(
    alloc: Global,
    by: bool,
    operands: &[Expr],
    context: &Context<'_>,
    seq: &mut S,
    looks: &mut W,
) -> Result<XValue, SeqError>
    ensures run { RunsIn S.reads W.saw S.contents context.now
        (program.settled by (plain_row operands.now)) meant
        seq.old looks.old result seq.new looks.new }
    ensures unchanged { S.unchanged seq.old seq.new }
    ensures cause { HasCause SeqError.DiskFault (S.count seq.old) (S.count seq.new) result }
{
    for operand in operands {
        let one = value(alloc, operand, context, seq, looks)?;
        if is_same(by, one.truth()) {
            return Ok(XValue::Flag(by));
        }
    }
    Ok(XValue::Flag(!by))
}

/// The values of operands from left to right.
#[cycle(evaluation)]
fn values_of<S: NodeRead, W: Looks>(
    alloc: Global,
    operands: &[Expr],
    context: &Context<'_>,
    seq: &mut S,
    looks: &mut W,
) -> Result<List<XValue>, SeqError>
    ensures run { RunsIn S.reads W.saw S.contents context.now
        (program.operands (plain_row operands.now)) all_meant
        seq.old looks.old result seq.new looks.new }
    ensures unchanged { S.unchanged seq.old seq.new }
    ensures cause { HasCause SeqError.DiskFault (S.count seq.old) (S.count seq.new) result }
{
    let mut values = List::new(alloc);
    for operand in operands {
        values.push(value(alloc, operand, context, seq, looks)?)?;
    }
    Ok(values)
}

/// Steps from left to right.
#[cycle(evaluation)]
pub(crate) fn taken<S: NodeRead, W: Looks>(
    alloc: Global,
    steps: &[Step],
    from: List<Position>,
    seq: &mut S,
    looks: &mut W,
) -> Result<List<Position>, SeqError>
    ensures run { Runs S.reads W.saw S.contents (program.taken (plain_way steps.now) (all_plain from)) all_plain seq.old looks.old result seq.new looks.new }
    ensures unchanged { S.unchanged seq.old seq.new }
    ensures cause { HasCause SeqError.DiskFault (S.count seq.old) (S.count seq.new) result }
{
    let mut nodes = from;
    // Whether they are all from one node down.
    let mut is_whole = false;
    for step in steps {
        let before = nodes.as_slice();
        let goes_down = leads_down(step, before);
        let found = stepped_on(alloc, step, before, is_whole, seq, looks)?;
        nodes = in_document_order(alloc, found)?;
        is_whole = goes_down;
    }
    Ok(nodes)
}

/// A step from each node. Where they are all from one node down, the children of each are among them.
#[cycle(evaluation)]
fn stepped_on<S: NodeRead, W: Looks>(
    alloc: Global,
    step: &Step,
    from: &[Position],
    is_whole: bool,
    seq: &mut S,
    looks: &mut W,
) -> Result<List<Position>, SeqError>
    ensures run { StepsOver S.reads W.saw S.contents is_whole step.now from.now seq.old looks.old result seq.new looks.new }
    ensures unchanged { S.unchanged seq.old seq.new }
    ensures cause { HasCause SeqError.DiskFault (S.count seq.old) (S.count seq.new) result }
{
    match step.axis {
        Axis::Child if is_whole => stepped_ahead(alloc, step, from, seq, looks),
        _ => stepped(alloc, step, from, seq, looks),
    }
}

/// A step to the children of each node, of all from one node down. The map isn't read for them.
#[cycle(evaluation)]
fn stepped_ahead<S: NodeRead, W: Looks>(
    alloc: Global,
    step: &Step,
    whole: &[Position],
    seq: &mut S,
    looks: &mut W,
) -> Result<List<Position>, SeqError>
    requires child { (out-Step step.now).axis ≡ along.Child }
    ensures run { StepsOver S.reads W.saw S.contents true step.now whole.now seq.old looks.old result seq.new looks.new }
    ensures unchanged { S.unchanged seq.old seq.new }
    ensures cause { HasCause SeqError.DiskFault (S.count seq.old) (S.count seq.new) result }
{
    let mut all = List::new(alloc);
    for (index, node) in whole.iter().enumerate() {
        let found = row_ahead(alloc, &step.test, node, &whole[index + 1..], looks)?;
        let kept = filtered(alloc, step.tests.as_slice(), found, seq, looks)?;
        put_behind(&mut all, kept)?;
    }
    Ok(all)
}

/// A step from each node.
#[cycle(evaluation)]
fn stepped<S: NodeRead, W: Looks>(
    alloc: Global,
    step: &Step,
    from: &[Position],
    seq: &mut S,
    looks: &mut W,
) -> Result<List<Position>, SeqError>
    ensures run { Runs S.reads W.saw S.contents (gathered (from_node step.now) (all_plain from.now)) all_plain seq.old looks.old result seq.new looks.new }
    ensures unchanged { S.unchanged seq.old seq.new }
    ensures cause { HasCause SeqError.DiskFault (S.count seq.old) (S.count seq.new) result }
{
    let mut all = List::new(alloc);
    for node in from {
        let kept = stepped_from(alloc, step, node, seq, looks)?;
        put_behind(&mut all, kept)?;
    }
    Ok(all)
}

/// A step from one node. Where the first predicate asks for a place, nothing is asked of the axis behind it.
#[cycle(evaluation)]
fn stepped_from<S: NodeRead, W: Looks>(
    alloc: Global,
    step: &Step,
    from: &Position,
    seq: &mut S,
    looks: &mut W,
) -> Result<List<Position>, SeqError>
    ensures run { Runs S.reads W.saw S.contents (from_node step.now (plain from.now)) all_plain seq.old looks.old result seq.new looks.new }
    ensures unchanged { S.unchanged seq.old seq.new }
    ensures cause { HasCause SeqError.DiskFault (S.count seq.old) (S.count seq.new) result }
{
    let tests = step.tests.as_slice();
    let Some(room) = enough_for(tests) else {
        let found = axis(alloc, step.axis, &step.test, from, seq, looks)?;
        return filtered(alloc, tests, found, seq, looks);
    };
    let found = axis_up_to(alloc, step.axis, &step.test, room, from, seq, looks)?;
    filtered(alloc, tests, found, seq, looks)
}

/// The nodes that each predicate in turn keeps.
#[cycle(evaluation)]
fn filtered<S: NodeRead, W: Looks>(
    alloc: Global,
    tests: &[Expr],
    nodes: List<Position>,
    seq: &mut S,
    looks: &mut W,
) -> Result<List<Position>, SeqError>
    ensures run { Runs S.reads W.saw S.contents
        (program.filtered (plain_row tests.now) (all_plain nodes)) all_plain seq.old looks.old result seq.new looks.new }
    ensures unchanged { S.unchanged seq.old seq.new }
    ensures cause { HasCause SeqError.DiskFault (S.count seq.old) (S.count seq.new) result }
{
    let mut left = nodes;
    for test in tests {
        left = kept(alloc, test, left, seq, looks)?;
    }
    Ok(left)
}

/// The nodes that a predicate keeps. A number, or `position()=` it, keeps the one at its place, and isn't evaluated at the others.
#[cycle(evaluation)]
fn kept<S: NodeRead, W: Looks>(
    alloc: Global,
    test: &Expr,
    nodes: List<Position>,
    seq: &mut S,
    looks: &mut W,
) -> Result<List<Position>, SeqError>
    ensures run { Runs S.reads W.saw S.contents
        (kept_where test.now (all_plain nodes)) all_plain
        seq.old looks.old result seq.new looks.new }
    ensures unchanged { S.unchanged seq.old seq.new }
    ensures cause { HasCause SeqError.DiskFault (S.count seq.old) (S.count seq.new) result }
{
    let Some(number) = number_in(test) else {
        return kept_one_by_one(alloc, test, nodes, seq, looks);
    };
    Ok(at_place(alloc, number, nodes)?)
}

/// The nodes that a predicate keeps, which is evaluated at each.
#[cycle(evaluation)]
fn kept_one_by_one<S: NodeRead, W: Looks>(
    alloc: Global,
    test: &Expr,
    nodes: List<Position>,
    seq: &mut S,
    looks: &mut W,
) -> Result<List<Position>, SeqError>
    ensures run { Runs S.reads W.saw S.contents
        (kept_where test.now (all_plain nodes)) all_plain
        seq.old looks.old result seq.new looks.new }
    ensures unchanged { S.unchanged seq.old seq.new }
    ensures cause { HasCause SeqError.DiskFault (S.count seq.old) (S.count seq.new) result }
{
    let nodes = nodes.into_vec();
    let mut kept = List::new(alloc);
    for (index, node) in nodes.iter().enumerate() {
        let lacking = XValue::Flag(false);
        let context = Context {
            at: node,
            proximity: index + 1,
            size: nodes.len(),
            lacking: &lacking,
        };
        let is_kept = holds(alloc, test, &context, seq, looks)?;
        keep_if(alloc, &mut kept, node, is_kept)?;
    }
    Ok(kept)
}

/// Whether a predicate keeps the context node. Where that was kept it isn't evaluated again.
#[cycle(evaluation)]
fn holds<S: NodeRead, W: Looks>(
    alloc: Global,
    test: &Expr,
    context: &Context<'_>,
    seq: &mut S,
    looks: &mut W,
) -> Result<bool, SeqError>
    ensures run { RunsIn S.reads W.saw S.contents context.now
        (holds (paths.plain test.now)) (λ is. is) seq.old looks.old result seq.new looks.new }
    ensures unchanged { S.unchanged seq.old seq.new }
    ensures cause { HasCause SeqError.DiskFault (S.count seq.old) (S.count seq.new) result }
{
    let proximity = context.proximity;
    let size = context.size;
    if let Some(holds) = looks.recall(alloc, test, context.at, proximity, size)? {
        return Ok(holds);
    }
    let found = value(alloc, test, context, seq, looks)?;
    let holds = found.keeps(proximity);
    looks.keep(alloc, test, context.at, proximity, size, holds)?;
    Ok(holds)
}

/// An operator on two values, of which the first one doesn't decide.
fn both<S: NodeRead, W: Looks>(
    alloc: Global,
    op: Op,
    left: XValue,
    right: XValue,
    context: &Context<'_>,
    seq: &mut S,
    looks: &mut W,
) -> Result<XValue, SeqError>
    ensures run { RunsIn S.reads W.saw S.contents context.now
        (both op (meant left) (meant right)) meant seq.old looks.old result seq.new looks.new }
    ensures unchanged { S.unchanged seq.old seq.new }
    ensures cause { HasCause SeqError.DiskFault (S.count seq.old) (S.count seq.new) result }
{
    match op {
        Op::Or => Ok(XValue::Flag(right.truth())),
        Op::And => Ok(XValue::Flag(right.truth())),
        _ => {
            let mut values = List::new(alloc);
            values.push(left)?;
            values.push(right)?;
            applied(alloc, op, values.as_slice(), context, seq, looks)
        }
    }
}

/// Whether the value on its left decides what the operator answers.
fn is_decided(op: Op, left: &XValue) -> bool
    ensures { result ≡ is_decided op (meant left.now) }
{
    match op {
        Op::Or => left.truth(),
        Op::And => !left.truth(),
        _ => false,
    }
}

fn is_same(by: bool, flag: bool) -> bool
    ensures { result ≡ same_flag by flag }
{
    if by { flag } else { !flag }
}

/// Whether a step leads from one position to all from it down.
fn leads_down(step: &Step, from: &[Position]) -> bool
    ensures { IsTrue result → LeadsDown step.now (all_plain from.now) }
{
    let is_down = matches!(step.axis, Axis::DescendantOrSelf)
        && matches!(step.test, NodeTest::Node);
    is_down && step.tests.as_slice().is_empty() && from.len() == 1
}

/// Where a path begins.
pub(crate) fn begun<S: NodeRead, W: Looks>(
    alloc: Global,
    is_absolute: bool,
    at: &Position,
    seq: &mut S,
    looks: &mut W,
) -> Result<List<Position>, SeqError>
    ensures run { Runs S.reads W.saw S.contents (program.start is_absolute (plain at.now)) all_plain seq.old looks.old result seq.new looks.new }
    ensures unchanged { S.unchanged seq.old seq.new }
    ensures cause { HasCause SeqError.DiskFault (S.count seq.old) (S.count seq.new) result }
{
    if !is_absolute {
        let mut start = List::new(alloc);
        start.push(at.copy(alloc)?)?;
        return Ok(start);
    }
    let document = document_label(alloc, at.label())?;
    see_node(alloc, &document, seq, looks)
}
