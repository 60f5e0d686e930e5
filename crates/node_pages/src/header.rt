//! What page 0 says.
ghost use Rattle.std.specs.Prelude.{◌≡◌, ◌+◌, ◌==◌, ◌&&◌, length, take, drop, nat_eq};
ghost use Rattle.std.specs.Cmp.Lexicographic.{pointwise};
ghost use Rattle.byteorder.specs.Endian.{big_number};
ghost use Rattle.node_pages.specs.PageZero.{count_of, header_in, header_of, is_page_zero, page_magic};

use crate::page_form::PAGE_BYTES;
use crate::page_zero::MAGIC;
use crate::reader::are_zeros;
use byteorder::{BigEndian, ByteOrder};
use std::marker::Model;

/// What page 0 says of a file of pages: the number of the last commit that they hold, and how many data pages and directory pages there are.
#[derive(Debug, Drop)]
pub struct Header {
    pub base: u32,
    pub data_pages: u32,
    pub directory_pages: u32,
}

impl Model for Header {
    ghost use Rattle.node_pages.specs.PageZero.{Header};

    ghost Value = { Header };

    ghost view = { λ h. record { base = h.base; data_pages = h.data_pages; directory_pages = h.directory_pages } };
}

impl Header {
    /// What these bytes of a page 0 say, whatever else stands there.
    fn of(page: &[u8]) -> Header
        requires whole { length page.now ≡ 8_192 }
        ensures { result ≡ header_of page.now }
    {
        Header {
            base: BigEndian::read_u32(&page[8..]),
            data_pages: BigEndian::read_u32(&page[16..]),
            directory_pages: BigEndian::read_u32(&page[20..]),
        }
    }

    /// How many pages there are, page 0 too.
    pub fn count(&self) -> u64
        ensures { result ≡ count_of self.now }
    {
        1 + self.data_pages as u64 + self.directory_pages as u64
    }
}

/// What page 0 with these bytes says; None where it breaks a rule.
pub fn read_header(page: &[u8]) -> Option<Header>
    ensures { result ≡ header_in page.now }
{
    if page.len() != PAGE_BYTES || &page[..8] != MAGIC.as_slice() || !are_zeros(&page[24..]) {
        return None;
    }
    let header = Header::of(page);
    if BigEndian::read_u32(&page[12..]) as u64 == header.count() {
        Some(header)
    } else {
        None
    }
}
