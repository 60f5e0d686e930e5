// The body of an images group: how many pages there are, and for each its number and its bytes.
ghost use Rattle.std.specs.Prelude.{◌≡◌, IfOk, length, drop};
ghost use Rattle.byteorder.specs.Endian.{big_number};
ghost use Rattle.journal.specs.PageImages.{images_in, images_of, numbers_rise};

use byteorder::{BigEndian, ByteOrder};
use dewey_labels::{List, NoMemory};
use std::alloc::Global;

/// How many bytes an image takes: the page's number and the page.
const IMAGE: usize = 8_196;

/// The pages of the body of an images group; None where these bytes are none.
#[tactic(auto, unfolding(crate::specs::PageImages::images_in))]
pub fn read_images(alloc: Global, body: &[u8]) -> Result<Option<List<(u32, List<u8>)>>, NoMemory>
    ensures { IfOk result (λ found. found ≡ images_in body.now) }
{
    if body.len() < 4 {
        return Ok(None);
    }
    let count = BigEndian::read_u32(body);
    let (_, rest) = body.split_at(4);
    match read_pages(alloc, count, rest)? {
        Some(pages) if numbers_rise(pages.as_slice()) => Ok(Some(pages)),
        _ => Ok(None),
    }
}

/// So many images, which are all of these bytes.
fn read_pages(
    alloc: Global,
    count: u32,
    bytes: &[u8],
) -> Result<Option<List<(u32, List<u8>)>>, NoMemory>
    ensures { IfOk result (λ found. found ≡ images_of count bytes.now) }
{
    let mut pages = List::new(alloc);
    let mut left = count;
    let mut rest = bytes;
    while left > 0 {
        if rest.len() < IMAGE {
            return Ok(None);
        }
        let (image, behind) = rest.split_at(IMAGE);
        pages.push(read_page(alloc, image)?)?;
        left -= 1;
        rest = behind;
    }
    match rest {
        [] => Ok(Some(pages)),
        _ => Ok(None),
    }
}

/// A page's number and its bytes.
fn read_page(alloc: Global, image: &[u8]) -> Result<(u32, List<u8>), NoMemory>
    requires whole { length image.now ≡ 8_196 }
    ensures number { IfOk result (λ page. page.0 ≡ big_number 4 image.now) }
    ensures bytes { IfOk result (λ page. page.1 ≡ drop 4 image.now) }
{
    let number = BigEndian::read_u32(image);
    let page = List::from_vec(Vec::from_slice(alloc, &image[4..])?);
    Ok((number, page))
}

/// Whether each page stands above the one before it.
fn numbers_rise(pages: &[(u32, List<u8>)]) -> bool
    ensures { result ≡ numbers_rise pages.now }
{
    let mut rest = pages;
    while let [first, after @ ..] = rest {
        if let [second, ..] = after {
            if first.0 >= second.0 {
                return false;
            }
        }
        rest = after;
    }
    true
}
