//! Copies of paths.
ghost use Rattle.std.specs.Prelude.{◌≡◌, IfOk};

use crate::{Axis, Expr, NodeTest, Op, Step, XPath};
use dewey_labels::{Copied, List, NoMemory};
use std::alloc::Global;

impl NodeTest {
    pub fn copy(&self, alloc: Global) -> Result<NodeTest, NoMemory>
        ensures { IfOk result (λ copy. copy ≡ self.now) }
    {
        Ok(match self {
            NodeTest::Name(name) => NodeTest::Name(name.copy(alloc)?),
            NodeTest::Any => NodeTest::Any,
            NodeTest::Text => NodeTest::Text,
            NodeTest::Node => NodeTest::Node,
        })
    }
}

impl XPath {
    #[cycle(copies)]
    pub fn copy(&self, alloc: Global) -> Result<XPath, NoMemory>
        ensures { IfOk result (λ copy. copy ≡ self.now) }
    {
        let mut steps = List::new(alloc);
        for step in self.steps.as_slice() {
            steps.push(step.copy(alloc)?)?;
        }
        Ok(XPath {
            absolute: self.absolute,
            steps,
        })
    }
}

impl Step {
    #[cycle(copies)]
    pub fn copy(&self, alloc: Global) -> Result<Step, NoMemory>
        ensures { IfOk result (λ copy. copy ≡ self.now) }
    {
        let test = self.test.copy(alloc)?;
        Ok(Step {
            axis: self.axis,
            test,
            tests: row_copy(alloc, self.tests.as_slice())?,
        })
    }
}

impl Expr {
    #[cycle(copies)]
    pub fn copy(&self, alloc: Global) -> Result<Expr, NoMemory>
        ensures { IfOk result (λ copy. copy ≡ self.now) }
    {
        Ok(match self {
            Expr::Path(path) => Expr::Path(path.copy(alloc)?),
            Expr::Number(number) => Expr::Number(*number),
            Expr::Literal(literal) => Expr::Literal(literal.copy(alloc)?),
            Expr::Chain {
                operands,
                operators,
            } => Expr::Chain {
                operands: row_copy(alloc, operands.as_slice())?,
                operators: operators.copy(alloc)?,
            },
            Expr::Apply(op, operands) => Expr::Apply(*op, row_copy(alloc, operands.as_slice())?),
        })
    }
}

/// A copy of each expression.
#[cycle(copies)]
fn row_copy(alloc: Global, row: &[Expr]) -> Result<List<Expr>, NoMemory>
    ensures { IfOk result (λ copy. copy ≡ row.now) }
{
    let mut copies = List::new(alloc);
    for expr in row {
        copies.push(expr.copy(alloc)?)?;
    }
    Ok(copies)
}

impl Copied for Op {
    fn copy(&self, _alloc: Global) -> Result<Op, NoMemory> {
        Ok(*self)
    }
}

impl Copied for Axis {
    fn copy(&self, _alloc: Global) -> Result<Axis, NoMemory> {
        Ok(*self)
    }
}

impl Copied for XPath {
    fn copy(&self, alloc: Global) -> Result<XPath, NoMemory> {
        XPath::copy(self, alloc)
    }
}
