//! Which predicates are kept, and on what they hang.
ghost use Rattle.std.specs.Prelude.{◌≡◌, IsTrue};
ghost use Rattle.path_model.specs.PlainPaths.{plain};
ghost use Rattle.xpath_eval.specs.inside.Memos.{HangsOnDocument};

pub(crate) use crate::one_walk::is_free;
use dewey_labels::{List, NoMemory};
use path_model::{Expr, NodeTest, Step, XPath};
use std::alloc::Global;

/// The predicates that may be evaluated again and again: those inside of others, and those that hang on the document alone.
pub(crate) fn repeated_tests(alloc: Global, path: &XPath) -> Result<List<Expr>, NoMemory> {
    let mut found = List::new(alloc);
    for step in path.steps.as_slice() {
        for test in step.tests.as_slice() {
            if hangs_on_document(test) {
                found.push(test.copy(alloc)?)?;
            }
            in_expr(alloc, test, &mut found)?;
        }
    }
    Ok(found)
}

/// Adds the predicates in an expression, those that stand deepest last.
#[cycle(gathering)]
fn in_expr(alloc: Global, expr: &Expr, found: &mut List<Expr>) -> Result<(), NoMemory> {
    match expr {
        Expr::Path(path) => in_steps(alloc, path.steps.as_slice(), found),
        Expr::Number(_) | Expr::Literal(_) => Ok(()),
        Expr::Chain { operands, .. } => in_row(alloc, operands.as_slice(), found),
        Expr::Apply(_, operands) => in_row(alloc, operands.as_slice(), found),
    }
}

#[cycle(gathering)]
fn in_row(alloc: Global, row: &[Expr], found: &mut List<Expr>) -> Result<(), NoMemory> {
    for expr in row {
        in_expr(alloc, expr, found)?;
    }
    Ok(())
}

#[cycle(gathering)]
fn in_steps(alloc: Global, steps: &[Step], found: &mut List<Expr>) -> Result<(), NoMemory> {
    for step in steps {
        for test in step.tests.as_slice() {
            found.push(test.copy(alloc)?)?;
            in_expr(alloc, test, found)?;
        }
    }
    Ok(())
}

/// Whether a predicate is a path from the document: it holds at all nodes of a document or at none.
pub(crate) fn hangs_on_document(test: &Expr) -> bool
    ensures { IsTrue result → HangsOnDocument (plain test.now) }
{
    match test {
        Expr::Path(path) => path.absolute,
        _ => false,
    }
}

/// The weights of predicates.
pub(crate) fn weights_of(alloc: Global, tests: &[Expr]) -> Result<List<u64>, NoMemory> {
    let mut weights = List::new(alloc);
    for test in tests {
        weights.push(weight(test))?;
    }
    Ok(weights)
}

/// A number that is the same for the same expression, and seldom for others: of its parts and the bytes of its names.
#[cycle(weighing)]
pub(crate) fn weight(expr: &Expr) -> u64 {
    match expr {
        Expr::Path(path) => weight_of_steps(path.steps.as_slice()).wrapping_add(1),
        Expr::Number(_) => 1,
        Expr::Literal(literal) => literal.as_str().len() as u64,
        Expr::Chain { operands, .. } => weight_of_row(operands.as_slice()).wrapping_add(1),
        Expr::Apply(_, operands) => weight_of_row(operands.as_slice()).wrapping_add(1),
    }
}

#[cycle(weighing)]
fn weight_of_row(row: &[Expr]) -> u64 {
    let mut sum: u64 = 0;
    for expr in row {
        sum = sum.wrapping_add(weight(expr));
    }
    sum
}

#[cycle(weighing)]
fn weight_of_steps(steps: &[Step]) -> u64 {
    let mut sum: u64 = 0;
    for step in steps {
        let name = match &step.test {
            NodeTest::Name(name) => name.as_str().len() as u64,
            _ => 0,
        };
        let tests = weight_of_row(step.tests.as_slice());
        sum = sum.wrapping_add(tests).wrapping_add(name).wrapping_add(1);
    }
    sum
}
