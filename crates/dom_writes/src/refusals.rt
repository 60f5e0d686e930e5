//! The refusals of changing calls, with the codes of DOM Level 3 Core (DOMException) where it has them.
ghost use Rattle.std.specs.Prelude.{◌≡◌};
ghost use Rattle.tree_model.specs.Outcomes.{hierarchy_request_err, invalid_character_err};
ghost use Rattle.tree_model.specs.declared.refusal.Refusal.TheVariants as refusal;
ghost use Rattle.tree_model.specs.declared.reply.Reply.TheVariants.{Refused};

use tree_model::{Refusal, Reply};

/// A node would stand where its kind may not.
pub fn hierarchy_request() -> Reply
    ensures { result ≡ Refused (refusal.Dom hierarchy_request_err) }
{
    Reply::Refused(Refusal::Dom(3))
}

/// A name is no Name.
pub fn invalid_character() -> Reply
    ensures { result ≡ Refused (refusal.Dom invalid_character_err) }
{
    Reply::Refused(Refusal::Dom(5))
}

/// There is a document with the name.
pub fn document_exists() -> Reply
    ensures { result ≡ Refused refusal.DocumentExists }
{
    Reply::Refused(Refusal::DocumentExists)
}

/// A node would stand below the deepest level.
pub fn too_deep() -> Reply
    ensures { result ≡ Refused refusal.TooDeep }
{
    Reply::Refused(Refusal::TooDeep)
}

/// A text would be too long.
pub fn text_limit() -> Reply
    ensures { result ≡ Refused refusal.TextLimit }
{
    Reply::Refused(Refusal::TextLimit)
}

/// A new label would pass a limit.
pub fn label_limit() -> Reply
    ensures { result ≡ Refused refusal.LabelLimit }
{
    Reply::Refused(Refusal::LabelLimit)
}
