//! Paths and expressions (XPath 1.0, sections 2 and 3).
use dewey_labels::{List, Text};

/// The axes of XPath 1.0, section 2.2, but namespace.
#[derive(Clone, Copy, Debug, Drop, PartialEq, Eq)]
pub enum Axis {
    Child,
    Descendant,
    Parent,
    Ancestor,
    FollowingSibling,
    PrecedingSibling,
    Following,
    Preceding,
    Attribute,
    SelfNode,
    DescendantOrSelf,
    AncestorOrSelf,
}

/// A node test.
#[derive(Debug, Drop)]
pub enum NodeTest {
    Name(Text),
    /// `*`
    Any,
    /// `text()`
    Text,
    /// `node()`
    Node,
}

/// The operators of comparisons.
#[derive(Clone, Copy, Debug, Drop, PartialEq, Eq)]
pub enum CompareOp {
    Eq,
    Ne,
    Lt,
    Le,
    Gt,
    Ge,
}

/// The operators and functions of expressions. A function with several counts of arguments is one of these.
#[derive(Clone, Copy, Debug, Drop, PartialEq, Eq)]
pub enum Op {
    Or,
    And,
    Eq,
    Ne,
    Lt,
    Le,
    Gt,
    Ge,
    Add,
    Sub,
    Mul,
    /// Unary minus.
    Negate,
    Position,
    Last,
    Count,
    Sum,
    NameOf,
    StringOf,
    Concat,
    StartsWith,
    Contains,
    SubstringBefore,
    SubstringAfter,
    Substring,
    StringLength,
    NormalizeSpace,
    BooleanOf,
    Not,
    TrueOf,
    FalseOf,
    NumberOf,
}

/// A location path; an absolute one begins at the document.
#[cycle(path)]
#[derive(Debug, Drop)]
pub struct XPath {
    pub absolute: bool,
    pub steps: List<Step>,
}

/// A step with its predicates.
#[cycle(path)]
#[derive(Debug, Drop)]
pub struct Step {
    pub axis: Axis,
    pub test: NodeTest,
    pub tests: List<Expr>,
}

/// An expression. Parentheses leave no trace.
#[cycle(path)]
#[derive(Debug, Drop)]
pub enum Expr {
    Path(XPath),
    Number(i64),
    Literal(Text),
    /// Binary operators of one precedence, grouped to the left: one operand more than operators.
    /// Nothing recurses along a chain, which no limit keeps short.
    Chain {
        operands: List<Expr>,
        operators: List<Op>,
    },
    /// Unary minus, or a function, with its operands.
    Apply(Op, List<Expr>),
}
