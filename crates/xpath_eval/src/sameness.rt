//! Whether two expressions, and two positions, are the same.
ghost use Rattle.std.specs.Prelude.{◌≡◌, map, IsTrue};
ghost use Rattle.path_model.specs.PlainPaths.{plain, plain_path, plain_step};
ghost use Rattle.xpath_axes.specs.Positions as position;

use path_model::{Expr, NodeTest, Op, Step, XPath};
use tree_model::Record;
use xpath_axes::Position;

/// Whether two expressions are the same.
#[cycle(sameness)]
pub(crate) fn is_same(one: &Expr, other: &Expr) -> bool
    ensures { IsTrue result → plain one.now ≡ plain other.now }
{
    match one {
        Expr::Path(path) => match other {
            Expr::Path(second) => is_same_path(path, second),
            _ => false,
        },
        Expr::Number(number) => match other {
            Expr::Number(second) => *number == *second,
            _ => false,
        },
        Expr::Literal(literal) => match other {
            Expr::Literal(second) => literal.as_str() == second.as_str(),
            _ => false,
        },
        Expr::Chain {
            operands,
            operators,
        } => match other {
            Expr::Chain {
                operands: seconds,
                operators: others,
            } => {
                are_same_operators(operators.as_slice(), others.as_slice())
                    && are_same(operands.as_slice(), seconds.as_slice())
            }
            _ => false,
        },
        Expr::Apply(op, operands) => match other {
            Expr::Apply(second, seconds) => {
                *op == *second && are_same(operands.as_slice(), seconds.as_slice())
            }
            _ => false,
        },
    }
}

#[cycle(sameness)]
fn is_same_path(one: &XPath, other: &XPath) -> bool
    ensures { IsTrue result → plain_path one.now ≡ plain_path other.now }
{
    one.absolute == other.absolute && are_same_steps(one.steps.as_slice(), other.steps.as_slice())
}

#[cycle(sameness)]
fn is_same_step(one: &Step, other: &Step) -> bool
    ensures { IsTrue result → plain_step one.now ≡ plain_step other.now }
{
    one.axis == other.axis
        && is_same_test(&one.test, &other.test)
        && are_same(one.tests.as_slice(), other.tests.as_slice())
}

#[cycle(sameness)]
fn are_same(ones: &[Expr], others: &[Expr]) -> bool
    ensures { IsTrue result → map plain ones.now ≡ map plain others.now }
{
    if ones.len() != others.len() {
        return false;
    }
    for (index, one) in ones.iter().enumerate() {
        if !is_same(one, &others[index]) {
            return false;
        }
    }
    true
}

#[cycle(sameness)]
fn are_same_steps(ones: &[Step], others: &[Step]) -> bool
    ensures { IsTrue result → map plain_step ones.now ≡ map plain_step others.now }
{
    if ones.len() != others.len() {
        return false;
    }
    for (index, one) in ones.iter().enumerate() {
        if !is_same_step(one, &others[index]) {
            return false;
        }
    }
    true
}

fn are_same_operators(ones: &[Op], others: &[Op]) -> bool
    ensures { IsTrue result → ones.now ≡ others.now }
{
    if ones.len() != others.len() {
        return false;
    }
    for (index, one) in ones.iter().enumerate() {
        if *one != others[index] {
            return false;
        }
    }
    true
}

fn is_same_test(one: &NodeTest, other: &NodeTest) -> bool
    ensures { IsTrue result → one.now ≡ other.now }
{
    match one {
        NodeTest::Name(name) => match other {
            NodeTest::Name(second) => name.as_str() == second.as_str(),
            _ => false,
        },
        NodeTest::Any => matches!(other, NodeTest::Any),
        NodeTest::Text => matches!(other, NodeTest::Text),
        NodeTest::Node => matches!(other, NodeTest::Node),
    }
}

/// Whether two positions are the same, with what was seen of them.
pub(crate) fn is_same_position(one: &Position, other: &Position) -> bool
    ensures { IsTrue result → position.plain one.now ≡ position.plain other.now }
{
    match one {
        Position::Node(label, record) => match other {
            Position::Node(second, seen) => label == second && is_same_record(record, seen),
            Position::Attribute(..) => false,
        },
        Position::Attribute(label, name, value) => match other {
            Position::Node(..) => false,
            Position::Attribute(second, named, seen) => {
                label == second
                    && name.as_str() == named.as_str()
                    && value.as_str() == seen.as_str()
            }
        },
    }
}

fn is_same_record(one: &Record, other: &Record) -> bool
    ensures { IsTrue result → one.now ≡ other.now }
{
    match one {
        Record::Document => matches!(other, Record::Document),
        Record::Element(name) => match other {
            Record::Element(second) => name.as_str() == second.as_str(),
            _ => false,
        },
        Record::Text(data) => match other {
            Record::Text(second) => data.as_str() == second.as_str(),
            _ => false,
        },
        Record::Attr(value) => match other {
            Record::Attr(second) => value.as_str() == second.as_str(),
            _ => false,
        },
    }
}
