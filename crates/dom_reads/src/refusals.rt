//! The refusals of reading calls, with the codes of DOM Level 3 Core (DOMException).
ghost use Rattle.std.specs.Prelude.{◌≡◌};
ghost use Rattle.tree_model.specs.Outcomes.{index_size_err, not_found_err, not_supported_err};
ghost use Rattle.tree_model.specs.declared.refusal.Refusal.TheVariants.{Dom};
ghost use Rattle.tree_model.specs.declared.reply.Reply.TheVariants.{Refused};

use tree_model::{Refusal, Reply};

/// An offset lies past the end.
pub fn index_size() -> Reply
    ensures { result ≡ Refused (Dom index_size_err) }
{
    Reply::Refused(Refusal::Dom(1))
}

/// There is no such node or document.
pub fn not_found() -> Reply
    ensures { result ≡ Refused (Dom not_found_err) }
{
    Reply::Refused(Refusal::Dom(8))
}

/// This kind of node doesn't have the call.
pub fn not_supported() -> Reply
    ensures { result ≡ Refused (Dom not_supported_err) }
{
    Reply::Refused(Refusal::Dom(9))
}
