//! Counts as numbers.
ghost use Rattle.std.specs.Prelude.{◌≡◌, ◌<◌, ◌^◌, length};
ghost use Rattle.path_model.specs.Functions.{nodes_in, whole};
ghost use Rattle.xpath_eval.specs.Values.{meant};

use crate::value::XValue;

/// The number of nodes of a node set.
pub(crate) fn count(value: &XValue) -> XValue
    ensures { meant result ≡ whole (length (nodes_in (meant value.now))) }
{
    match value {
        XValue::Nodes(nodes) => XValue::Number(nodes.len() as i64),
        _ => XValue::Number(0),
    }
}

/// A count as a number.
pub(crate) fn whole(count: usize) -> XValue
    requires { count < 2 ^ 63 }
    ensures { meant result ≡ whole count }
{
    XValue::Number(count as i64)
}
