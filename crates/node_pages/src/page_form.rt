//! How items stand on pages.
ghost use Rattle.std.specs.Prelude.{◌≡◌, ◌≤◌, ◌++◌, ℕ, List, Option, OnOk, IfOk, IfSome, length};

use dewey_labels::{List, NoMemory};
use std::alloc::Global;

/// How many bytes a page has.
pub const PAGE_BYTES: usize = 8_192;

/// A form in which items are written on pages, each behind the item before it on its page.
pub trait PageWrite {
    type Item;

    ghost item_bytes: { Option Self.Item → Self.Item → List ℕ };

    /// Writes an item at the end of `out`, behind `before` where there is one on the page. After `NoMemory` some bytes may stand there.
    fn write(
        alloc: Global,
        item: &Self::Item,
        before: &Option<Self::Item>,
        out: &mut List<u8>,
    ) -> Result<(), NoMemory>
        ensures { OnOk result (out.new ≡ out.old ++ item_bytes before.now item.now) };

    ghost some: { (before : Option Self.Item) (x : Self.Item) → 1 ≤ length (item_bytes before x) };
}

/// A form in which items are read from pages, each behind the item before it on its page.
pub trait PageRead {
    type Item;

    ghost item_in: { Option Self.Item → List ℕ → Option (Self.Item × ℕ) };

    /// The item at the start of the bytes, and how many of them it takes.
    fn read(
        alloc: Global,
        bytes: &[u8],
        before: &Option<Self::Item>,
    ) -> Result<Option<(Self::Item, usize)>, NoMemory>
        ensures value { IfOk result (λ read. read ≡ item_in before.now bytes.now) }
        ensures within { IfOk result (λ read. IfSome read (λ x. x.1 ≤ length bytes.now)) };
}
