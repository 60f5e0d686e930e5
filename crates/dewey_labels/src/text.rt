//! Texts: strings that contracts see as the bytes of their UTF-8.
ghost use Rattle.std.specs.Prelude.{◌≡◌, nat_eq, IsTrue, IfOk, Some, refl, string_bytes};
ghost use Rattle.std.specs.Str.{is_utf8};
ghost use Rattle.std.specs.Ordering.{nat_cmp};
ghost use Rattle.std.specs.Cmp.{partial_equiv_from_equiv};
ghost use Rattle.std.specs.Cmp.Lexicographic.{pointwise, slice_cmp, nat_list_eq_equiv, nat_list_cmp_total, texts_ties, texts_po};

use crate::bytes::Bytes;
use crate::{Copied, NoMemory};
use std::alloc::Global;
use std::cmp::Ordering;
use std::fmt;
use std::marker::Model;

/// A text, seen as its bytes, which are UTF-8.
#[derive(Drop)]
pub struct Text {
    bytes: Bytes,
}

impl Model for Text {
    ghost use Rattle.std.specs.Prelude as p;
    ghost use Rattle.std.specs.Str.{is_utf8};

    ghost Value = { p.List p.ℕ };

    ghost view = { λ t. t.bytes };

    ghost invariant = { λ t. p.IsTrue (is_utf8 t.bytes) };
}

impl Text {
    /// The text of `s`.
    pub fn of(alloc: Global, s: &str) -> Result<Text, NoMemory>
        ensures { IfOk result (λ t. t ≡ s.now) }
    {
        let bytes = Bytes::of_slice(alloc, s.as_bytes())?;
        Ok(Text { bytes })
    }

    /// The text of a string. It takes no memory.
    pub fn from_string(chars: String) -> Text
        ensures { result ≡ string_bytes chars }
    {
        // A `&str` is UTF-8: by it the proof knows that the string is.
        let _str = chars.as_str();
        let bytes = Bytes::of_vec(chars.into_bytes());
        Text { bytes }
    }

    pub fn as_str(&self) -> &str
        ensures bytes { result.now ≡ self.now }
        ensures utf8 { IsTrue (is_utf8 self.now) }
    {
        unsafe { str::from_utf8_unchecked(self.bytes.as_slice()) }
    }

    pub fn copy(&self, alloc: Global) -> Result<Text, NoMemory>
        ensures { IfOk result (λ t. t ≡ self.now) }
    {
        let bytes = self.bytes.copy(alloc)?;
        Ok(Text { bytes })
    }
}

impl Copied for Text {
    fn copy(&self, alloc: Global) -> Result<Text, NoMemory> {
        Text::copy(self, alloc)
    }
}

impl fmt::Debug for Text {
    fn fmt<W: fmt::Write>(&self, f: &mut fmt::Formatter<W>) -> fmt::Result {
        f.debug_struct("Text")
            .field("chars", &self.as_str())
            .finish()
    }
}

impl PartialEq for Text {
    ghost eq = { pointwise nat_eq };

    ghost laws = { partial_equiv_from_equiv nat_list_eq_equiv };

    fn eq(&self, other: &Text) -> bool {
        self.as_str() == other.as_str()
    }
}

impl Eq for Text {
    ghost laws = { nat_list_eq_equiv };
}

/// The order of the texts' bytes.
impl Ord for Text {
    ghost cmp = { slice_cmp nat_cmp };

    ghost total = { nat_list_cmp_total };

    ghost matches_partial_cmp = { λ x y. refl };

    ghost matches_eq = { texts_ties };

    fn cmp(&self, other: &Text) -> Ordering {
        self.as_str().cmp(other.as_str())
    }
}

impl PartialOrd for Text {
    ghost partial_cmp = { λ x y. Some (slice_cmp nat_cmp x y) };

    ghost laws = { texts_po };

    fn partial_cmp(&self, other: &Text) -> Option<Ordering> {
        Some(self.cmp(other))
    }
}
