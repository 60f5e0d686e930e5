// Node tests.
ghost use Rattle.std.specs.Prelude.{◌≡◌};
ghost use Rattle.xpath_parser.specs.Input.{Reads};
ghost use Rattle.xpath_parser.specs.Grammar as spec;

use crate::lex::Kind;
use crate::refusal::{Refusal, What};
use crate::tokens::Tokens;
use crate::words::is_foreign_type;
use dewey_labels::Text;
use path_model::NodeTest;
use std::alloc::Global;

#[tactic(auto, unfolding(crate::specs::Grammar::node_test))]
pub fn node_test(alloc: Global, tokens: &mut Tokens<'_>) -> Result<NodeTest, Refusal>
    ensures { Reads (spec.node_test tokens.old) result tokens.new }
{
    match tokens.peek() {
        Kind::Name => {
            let name = tokens.take_name(alloc)?;
            named_test(tokens, None, name)
        }
        Kind::Star => {
            tokens.take();
            Ok(NodeTest::Any)
        }
        Kind::Prefix => Err(tokens.unsupported(What::Prefix)),
        _ => Err(tokens.refuse()),
    }
}

/// A node test behind a name; `call` tells how a function call is refused here.
#[tactic(auto, unfolding(crate::specs::Grammar::named_test))]
pub fn named_test(
    tokens: &mut Tokens<'_>,
    call: Option<What>,
    name: Text,
) -> Result<NodeTest, Refusal>
    ensures { Reads (spec.named_test call name tokens.old) result tokens.new }
{
    if tokens.sees(Kind::Open) {
        node_type(tokens, call, name.as_str())
    } else {
        Ok(NodeTest::Name(name))
    }
}

/// A node test at the `(` behind a name.
#[tactic(auto, unfolding(crate::specs::Grammar::node_type))]
fn node_type(tokens: &mut Tokens<'_>, call: Option<What>, name: &str) -> Result<NodeTest, Refusal>
    ensures { Reads (spec.node_type call name.now tokens.old) result tokens.new }
{
    if name == "text" {
        tokens.take();
        tokens.expect(Kind::Close)?;
        return Ok(NodeTest::Text);
    }
    if name == "node" {
        tokens.take();
        tokens.expect(Kind::Close)?;
        return Ok(NodeTest::Node);
    }
    if is_foreign_type(name) {
        return Err(tokens.unsupported(What::NodeTest));
    }
    match call {
        Some(what) => Err(tokens.unsupported(what)),
        None => Err(tokens.refuse()),
    }
}
