//! Predicates that are numbers, or compare `position()` with one: each keeps the node at its place, counted from 1.
ghost use Rattle.std.specs.Prelude.{◌≡◌, map, IfOk, IsTrue, MatchOption, ⊤};
ghost use Rattle.path_model.specs.declared.path.Op.TheVariants as kinds;
ghost use Rattle.path_model.specs.Paths.{apply, binary, no_more, number};
ghost use Rattle.path_model.specs.PlainPaths.{chained, plain, plain_row};
ghost use Rattle.xpath_axes.specs.Positions.{all_plain};
ghost use Rattle.xpath_eval.specs.inside.Places.{at_place, place_of, IsEnough, KeepsAsNumber};

use dewey_labels::{List, NoMemory};
use path_model::{Expr, Op};
use std::alloc::Global;
use xpath_axes::Position;

/// The node at a place, where there is one.
pub(crate) fn at_place(
    alloc: Global,
    number: i64,
    nodes: List<Position>,
) -> Result<List<Position>, NoMemory>
    ensures { IfOk result (λ kept. all_plain kept ≡ at_place (place_of number) (all_plain nodes)) }
{
    let place = place_of(number);
    let mut first = nodes;
    first.truncate(place);
    let mut kept = List::new(alloc);
    if first.len() < place {
        return Ok(kept);
    }
    let Some(node) = first.pop() else {
        return Ok(kept);
    };
    kept.push(node)?;
    Ok(kept)
}

/// How many of a row's nodes tell what predicates keep of it, where a first one asks for a place: those up to it.
pub(crate) fn enough_for(tests: &[Expr]) -> Option<usize>
    ensures { MatchOption result ⊤ (λ room. IsEnough room (plain_row tests.now)) }
{
    let [first, ..] = tests else {
        return None;
    };
    let number = number_in(first)?;
    Some(place_of(number))
}

/// The number that a predicate means: itself, or what it says `position()` is, as `position()=3` and `3=position()` do.
pub(crate) fn number_in(test: &Expr) -> Option<i64>
    ensures { MatchOption result ⊤ (λ z. KeepsAsNumber z (plain test.now)) }
{
    match test {
        Expr::Number(number) => Some(*number),
        Expr::Chain {
            operands,
            operators,
        } => number_in_chain(operands.as_slice(), operators.as_slice()),
        _ => None,
    }
}

/// That of a chain of operators.
fn number_in_chain(operands: &[Expr], operators: &[Op]) -> Option<i64>
    ensures { MatchOption result ⊤ (λ z. KeepsAsNumber z (chained (map plain operands.now) operators.now)) }
{
    match operands {
        [left, right] => match operators {
            [Op::Eq] => position_is(left, right),
            _ => None,
        },
        _ => None,
    }
}

/// The number that `position()` is to be, where one side is `position()` and the other a number.
fn position_is(left: &Expr, right: &Expr) -> Option<i64>
    ensures { MatchOption result ⊤ (λ z. KeepsAsNumber z (binary kinds.Eq (plain left.now) (plain right.now))) }
{
    if is_position(left) {
        return literal(right);
    }
    if is_position(right) {
        return literal(left);
    }
    None
}

/// The number that an expression is.
fn literal(test: &Expr) -> Option<i64>
    ensures { MatchOption result ⊤ (λ z. plain test.now ≡ number z) }
{
    match test {
        Expr::Number(number) => Some(*number),
        _ => None,
    }
}

/// Whether it is `position()`.
fn is_position(test: &Expr) -> bool
    ensures { IsTrue result → plain test.now ≡ apply kinds.Position no_more }
{
    match test {
        Expr::Apply(Op::Position, operands) => operands.as_slice().is_empty(),
        _ => false,
    }
}

/// A number as a place; 0 where it is none.
fn place_of(number: i64) -> usize
    ensures { result ≡ place_of number }
{
    if number < 0 { 0 } else { number as usize }
}
