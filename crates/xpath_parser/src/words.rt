// The names of axes and functions.
ghost use Rattle.std.specs.Prelude.{◌≡◌, map};
ghost use Rattle.xpath_parser.specs.Words.{find_word, axis_named, function_row, function_named, is_foreign_type, is_node_type};

use path_model::{Axis, Op};

/// A function, and what it takes.
#[derive(Clone, Copy, Debug, Drop)]
pub struct Function {
    pub op: Op,
    /// The least and the most arguments.
    pub least: usize,
    pub most: usize,
    /// Whether its argument is a node set, written as a location path.
    pub takes_nodes: bool,
}

/// The axes by their names.
pub const AXES: [(&str, Axis); 12] = [
    ("child", Axis::Child),
    ("descendant", Axis::Descendant),
    ("parent", Axis::Parent),
    ("ancestor", Axis::Ancestor),
    ("following-sibling", Axis::FollowingSibling),
    ("preceding-sibling", Axis::PrecedingSibling),
    ("following", Axis::Following),
    ("preceding", Axis::Preceding),
    ("attribute", Axis::Attribute),
    ("self", Axis::SelfNode),
    ("descendant-or-self", Axis::DescendantOrSelf),
    ("ancestor-or-self", Axis::AncestorOrSelf),
];

/// The functions: the name, the operation, the least and the most arguments, and whether its argument is a node set.
pub const FUNCTIONS: [(&str, Op, usize, usize, bool); 19] = [
    ("position", Op::Position, 0, 0, false),
    ("last", Op::Last, 0, 0, false),
    ("count", Op::Count, 1, 1, true),
    ("sum", Op::Sum, 1, 1, true),
    ("name", Op::NameOf, 0, 1, true),
    ("string", Op::StringOf, 0, 1, false),
    ("concat", Op::Concat, 2, usize::MAX, false),
    ("starts-with", Op::StartsWith, 2, 2, false),
    ("contains", Op::Contains, 2, 2, false),
    ("substring-before", Op::SubstringBefore, 2, 2, false),
    ("substring-after", Op::SubstringAfter, 2, 2, false),
    ("substring", Op::Substring, 2, 3, false),
    ("string-length", Op::StringLength, 0, 1, false),
    ("normalize-space", Op::NormalizeSpace, 0, 1, false),
    ("boolean", Op::BooleanOf, 1, 1, false),
    ("not", Op::Not, 1, 1, false),
    ("true", Op::TrueOf, 0, 0, false),
    ("false", Op::FalseOf, 0, 0, false),
    ("number", Op::NumberOf, 0, 1, false),
];

pub fn axis_named(name: &str) -> Option<Axis>
    ensures { result ≡ axis_named name.now }
{
    find_axis(&AXES, name)
}

fn find_axis(rows: &[(&str, Axis)], name: &str) -> Option<Axis>
    ensures { result ≡ find_word name.now (map (λ row. (row.0.now, row.1)) rows.now) }
{
    for (word, axis) in rows {
        if *word == name {
            return Some(*axis);
        }
    }
    None
}

pub fn function_named(name: &str) -> Option<Function>
    ensures { result ≡ function_named name.now }
{
    find_function(&FUNCTIONS, name)
}

fn find_function(rows: &[(&str, Op, usize, usize, bool)], name: &str) -> Option<Function>
    ensures { result ≡ find_word name.now (map (λ row. function_row row.0.now row.1 row.2 row.3 row.4) rows.now) }
{
    for (word, op, least, most, takes_nodes) in rows {
        if *word == name {
            return Some(Function {
                op: *op,
                least: *least,
                most: *most,
                takes_nodes: *takes_nodes,
            });
        }
    }
    None
}

/// Whether it is a node type that this profile leaves out.
pub fn is_foreign_type(name: &str) -> bool
    ensures { result ≡ is_foreign_type name.now }
{
    name == "comment" || name == "processing-instruction"
}

/// Whether a name makes a node test of the `(` behind it.
pub fn is_node_type(name: &str) -> bool
    ensures { result ≡ is_node_type name.now }
{
    name == "text" || name == "node" || is_foreign_type(name)
}
