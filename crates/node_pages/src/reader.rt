//! The items of a page.
ghost use Rattle.std.specs.Prelude.{◌≡◌, ◌++◌, IfOk, OnOk};
ghost use Rattle.node_pages.specs.Reading.{are_zeros, items_and_zeros, one_of, page_in};

use crate::page_form::{PAGE_BYTES, PageRead};
use byteorder::{BigEndian, ByteOrder};
use dewey_labels::{List, NoMemory};
use std::alloc::Global;

/// How many bytes the count before a page's items has.
const COUNT_BYTES: usize = 2;

/// The items of a page; None where its bytes are no page's.
#[tactic(auto, unfolding(crate::specs::Reading::page_in))]
pub fn read_items<F: PageRead>(
    alloc: Global,
    page: &[u8],
) -> Result<Option<List<F::Item>>, NoMemory>
where
    F::Item: Drop,
    ensures { IfOk result (λ found. found ≡ page_in F.item_in page.now) }
{
    if page.len() != PAGE_BYTES {
        return Ok(None);
    }
    let count = BigEndian::read_u16(page) as usize;
    if count == 0 {
        return Ok(None);
    }
    items_of::<F>(alloc, count, &page[COUNT_BYTES..])
}

/// So many items, one behind the other, where only zeros stand behind them.
fn items_of<F: PageRead>(
    alloc: Global,
    count: usize,
    bytes: &[u8],
) -> Result<Option<List<F::Item>>, NoMemory>
where
    F::Item: Drop,
    ensures { IfOk result (λ found. found ≡ items_and_zeros F.item_in count bytes.now) }
{
    let mut items = List::new(alloc);
    let mut last = None;
    let mut rest = bytes;
    for _ in 0..count {
        let Some((item, size)) = F::read(alloc, rest, &last)? else {
            return Ok(None);
        };
        (_, rest) = rest.split_at(size);
        keep(&mut items, last.replace(item))?;
    }
    if !are_zeros(rest) {
        return Ok(None);
    }
    keep(&mut items, last)?;
    Ok(Some(items))
}

/// Puts an item at the end, if there is one.
fn keep<T: Drop>(items: &mut List<T>, item: Option<T>) -> Result<(), NoMemory>
    ensures { OnOk result (items.new ≡ items.old ++ one_of item) }
{
    if let Some(item) = item {
        items.push(item)?;
    }
    Ok(())
}

/// Whether all of these bytes are zeros.
pub(crate) fn are_zeros(bytes: &[u8]) -> bool
    ensures { result ≡ are_zeros bytes.now }
{
    for byte in bytes {
        if *byte != 0 {
            return false;
        }
    }
    true
}
