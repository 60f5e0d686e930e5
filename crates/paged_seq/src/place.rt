//! Places among the entries of a file's data pages.
ghost use Rattle.std.specs.Prelude.{◌≡◌, None, IsTrue};
ghost use Rattle.paged_seq.specs.Places.{EndsRecord};

use node_records::Entry;
use tree_model::Key;

/// A place among the entries of data pages: before an entry, or behind the last one of a page.
#[derive(Drop)]
pub(crate) struct Place {
    /// The page's number; 0 before the first data page.
    pub page: u32,
    /// Where on its page the next entry begins.
    pub at: usize,
    /// How many entries of the page stand from there on.
    pub left: u16,
    /// The entry before the place on its page.
    pub before: Option<Entry>,
}

impl Place {
    /// The place before all entries.
    pub fn start() -> Place
        ensures page { result.page ≡ 0 }
        ensures left { result.left ≡ 0 }
        ensures at { result.at ≡ 0 }
        ensures before { result.before ≡ None }
    {
        Place {
            page: 0,
            at: 0,
            left: 0,
            before: None,
        }
    }

    /// Whether the last chunk of the record at a key stands before it.
    pub fn ends_record(&self, key: &Key) -> bool
        ensures { IsTrue result → EndsRecord key.now self.now }
    {
        match &self.before {
            Some(chunk) => chunk.last && chunk.key.cmp(key).is_eq(),
            None => false,
        }
    }
}
