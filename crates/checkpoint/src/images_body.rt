//! The body of an images group.
ghost use Rattle.std.specs.Prelude.{◌≡◌, ◌≤◌, IfOk, length};
ghost use Rattle.byteorder.specs.Endian.{big_bytes};
ghost use Rattle.journal.specs.PageImages.{images_body};
ghost use Rattle.node_pages.specs.Cuts.{most_pages};

use byteorder::{BigEndian, ByteOrder};
use dewey_labels::{List, NoMemory};
use std::alloc::Global;

/// A number in four bytes.
fn four(number: u32) -> [u8; 4]
    ensures { result ≡ big_bytes 4 number }
{
    let mut bytes = [0; 4];
    BigEndian::write_u32(&mut bytes, number);
    bytes
}

/// How many images there are, and for each its number and its bytes.
pub(crate) fn images_body(alloc: Global, images: &[(u32, List<u8>)]) -> Result<List<u8>, NoMemory>
    requires few { length images.now ≤ most_pages }
    ensures { IfOk result (λ body. body ≡ images_body images.now) }
{
    let mut body = List::new(alloc);
    body.extend_from_slice(alloc, &four(images.len() as u32))?;
    for (number, page) in images {
        body.extend_from_slice(alloc, &four(*number))?;
        body.extend_from_slice(alloc, page.as_slice())?;
    }
    Ok(body)
}
