//! What the place of a new document depends on: whether it is a text, how deep it is, and whether its labels keep the limits. An empty document has no fragment.
ghost use Rattle.std.specs.Prelude.{◌≡◌, ◌+◌, nat_lt, option_map};
ghost use Rattle.tree_model.specs.Documents.{document_at};
ghost use Rattle.tree_model.specs.Fragments.{depth, is_text_fragment, plain_or_none};
ghost use Rattle.tree_model.specs.Graft.{all_within};
ghost use Rattle.tree_model.specs.Limits.{deepest_level};

use crate::fragment::Fragment;
use crate::limits::DEEPEST_LEVEL;
use dewey_labels::{Label, MOST_DIVISIONS};

/// Whether the document would be a text, which none may be.
pub fn is_text_document(fragment: Option<&Fragment>) -> bool
    ensures { result ≡ is_text_fragment (plain_or_none (option_map (λ f. f.now) fragment.entry)) }
{
    match fragment {
        Some(fragment) => fragment.is_text(),
        None => false,
    }
}

/// Whether the document's deepest node would lie too deep. It looks at no node that would.
pub fn is_too_deep_document(fragment: Option<&Fragment>) -> bool
    ensures { result ≡ nat_lt deepest_level (1 + depth (plain_or_none (option_map (λ f. f.now) fragment.entry))) }
{
    match fragment {
        Some(fragment) => fragment.is_deeper(DEEPEST_LEVEL - 1),
        None => false,
    }
}

/// Whether none of the labels of a document at this label passes a limit. It looks at each node once at most, and makes no label.
pub fn document_fits_at(at: &Label, fragment: Option<&Fragment>) -> bool
    ensures { result ≡ all_within (document_at at.now (plain_or_none (option_map (λ f. f.now) fragment.entry))) }
{
    let divisions = at.divisions().len();
    match fragment {
        Some(fragment) => divisions < MOST_DIVISIONS && fragment.fits_behind(divisions + 1),
        None => true,
    }
}
