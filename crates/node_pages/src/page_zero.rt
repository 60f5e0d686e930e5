//! The first page of a file.
ghost use Rattle.std.specs.Prelude.{◌≡◌, ◌<◌, ◌+◌, ◌^◌, IfOk};
ghost use Rattle.byteorder.specs.Endian.{big_bytes};
ghost use Rattle.node_pages.specs.PageZero.{page_zero};

use crate::page_form::PAGE_BYTES;
use byteorder::{BigEndian, ByteOrder};
use dewey_labels::{List, NoMemory};
use std::alloc::Global;

/// The bytes that a file of pages begins with.
pub const MAGIC: [u8; 8] = *b"XTCPAGE1";

/// The first page of a file with so many data pages and directory pages.
pub(crate) fn page_zero(
    alloc: Global,
    base: u32,
    data_pages: u32,
    directory_pages: u32,
) -> Result<List<u8>, NoMemory>
    requires fits { 1 + data_pages + directory_pages < 2 ^ 32 }
    ensures { IfOk result (λ page. page ≡ page_zero (record { base = base; data_pages = data_pages; directory_pages = directory_pages })) }
{
    let mut page = Vec::with_capacity(alloc, PAGE_BYTES)?;
    page.extend_from_slice(&MAGIC)?;
    page.extend_from_slice(&four(base))?;
    page.extend_from_slice(&four(1 + data_pages + directory_pages))?;
    page.extend_from_slice(&four(data_pages))?;
    page.extend_from_slice(&four(directory_pages))?;
    page.resize(PAGE_BYTES, 0)?;
    Ok(List::from_vec(page))
}

/// A number in four bytes.
fn four(number: u32) -> [u8; 4]
    ensures { result ≡ big_bytes 4 number }
{
    let mut bytes = [0; 4];
    BigEndian::write_u32(&mut bytes, number);
    bytes
}
