//! Paths that begin with `//`: where the predicate of the next step hangs on no position, one walk finds the same.
ghost use Rattle.std.specs.Prelude.{◌≡◌, ◌∷◌, map, IfOk, IsTrue};
ghost use Rattle.path_model.specs.Paths.{binary};
ghost use Rattle.path_model.specs.PlainPaths.{chained, plain, plain_path, plain_row};
ghost use Rattle.xpath_eval.specs.inside.Walks.{AreFree, FindsTheSame, is_comparison, IsFree, IsSimple, IsWalkFor, LeadsToAll, LeadsToChildren};

use dewey_labels::{List, NoMemory};
use path_model::{Axis, Expr, NodeTest, Op, Step, XPath};
use std::alloc::Global;

/// The path with one step to the descendants in place of its first two, where these are seen to find the same; else a copy of it.
pub(crate) fn in_one_walk(alloc: Global, path: &XPath) -> Result<XPath, NoMemory>
    ensures { IfOk result (λ walk. FindsTheSame (plain_path path.now) (plain_path walk)) }
{
    let [down, child, rest @ ..] = path.steps.as_slice() else {
        return as_it_is(alloc, path);
    };
    if !leads_to_all(down) || !leads_to_children(child) {
        return as_it_is(alloc, path);
    }
    let walk = walk_for(alloc, child)?;
    Ok(XPath {
        absolute: path.absolute,
        steps: with_rest(alloc, walk, rest)?,
    })
}

/// A copy of the path.
fn as_it_is(alloc: Global, path: &XPath) -> Result<XPath, NoMemory>
    ensures { IfOk result (λ walk. FindsTheSame (plain_path path.now) (plain_path walk)) }
{
    Ok(path.copy(alloc)?)
}

/// The step to the descendants that stands for one to the children of all.
fn walk_for(alloc: Global, child: &Step) -> Result<Step, NoMemory>
    ensures { IfOk result (λ walk. IsWalkFor child.now walk) }
{
    let Step { test, tests, .. } = child.copy(alloc)?;
    Ok(Step {
        axis: Axis::Descendant,
        test,
        tests,
    })
}

/// A step, and copies of those behind it.
fn with_rest(alloc: Global, first: Step, rest: &[Step]) -> Result<List<Step>, NoMemory>
    ensures { IfOk result (λ steps. steps ≡ first ∷ rest.now) }
{
    let mut steps = List::new(alloc);
    steps.push(first)?;
    for step in rest {
        steps.push(step.copy(alloc)?)?;
    }
    Ok(steps)
}

/// Whether a step leads from a node to all from it down.
fn leads_to_all(step: &Step) -> bool
    ensures { IsTrue result → LeadsToAll step.now }
{
    let is_down = matches!(step.axis, Axis::DescendantOrSelf)
        && matches!(step.test, NodeTest::Node);
    is_down && step.tests.as_slice().is_empty()
}

/// Whether a step leads to children, whatever their positions are.
fn leads_to_children(step: &Step) -> bool
    ensures { IsTrue result → LeadsToChildren step.now }
{
    matches!(step.axis, Axis::Child) && are_free(step.tests.as_slice())
}

/// Whether there is no predicate, or one that hangs on no position.
fn are_free(tests: &[Expr]) -> bool
    ensures { IsTrue result → AreFree (plain_row tests.now) }
{
    match tests {
        [] => true,
        [test] => is_free(test),
        _ => false,
    }
}

/// Whether a predicate is a path, or a comparison of two paths, numbers or texts.
pub(crate) fn is_free(test: &Expr) -> bool
    ensures { IsTrue result → IsFree (plain test.now) }
{
    match test {
        Expr::Path(_) => true,
        Expr::Chain {
            operands,
            operators,
        } => is_free_chain(operands.as_slice(), operators.as_slice()),
        _ => false,
    }
}

/// Whether a chain is a comparison of two paths, numbers or texts.
fn is_free_chain(operands: &[Expr], operators: &[Op]) -> bool
    ensures { IsTrue result → IsFree (chained (map plain operands.now) operators.now) }
{
    match operands {
        [left, right] => match operators {
            [op] => compares_free(*op, left, right),
            _ => false,
        },
        _ => false,
    }
}

/// Whether it is a comparison of two paths, numbers or texts.
fn compares_free(op: Op, left: &Expr, right: &Expr) -> bool
    ensures { IsTrue result → IsFree (binary op (plain left.now) (plain right.now)) }
{
    if !is_comparison(op) || !is_simple(left) {
        return false;
    }
    is_simple(right)
}

/// Whether it is a path, a number or a text.
fn is_simple(expr: &Expr) -> bool
    ensures { IsTrue result → IsSimple (plain expr.now) }
{
    matches!(expr, Expr::Path(_) | Expr::Number(_) | Expr::Literal(_))
}

fn is_comparison(op: Op) -> bool
    ensures { result ≡ is_comparison op }
{
    matches!(op, Op::Eq | Op::Ne | Op::Lt | Op::Le | Op::Gt | Op::Ge)
}
