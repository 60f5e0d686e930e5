//! The divisions of a label, in one, two, three or five bytes, so that they sort as their bytes do.
ghost use Rattle.std.specs.Prelude.{◌≡◌, ◌≤◌, ◌++◌, length, IfSome, OnOk, OnErr};
ghost use Rattle.node_records.specs.Divisions.{division_bytes, division_in};

use byteorder::{BigEndian, ByteOrder};
use dewey_labels::{List, NoMemory};
use std::alloc::Global;

/// The first division of the form of two bytes, of three and of five.
const FIRST_OF_TWO: u32 = 128;

const FIRST_OF_THREE: u32 = 16_512;

const FIRST_OF_FIVE: u32 = 2_113_664;

/// What the first division of two bytes and of three is written as, and the byte before one of five.
const TWO: u32 = 0x8000;

const THREE: u32 = 0xC0_0000;

const FIVE: u8 = 0xE0;

/// Writes a division at the end, wholly or not at all.
pub(crate) fn write_division(
    alloc: Global,
    division: u32,
    out: &mut List<u8>,
) -> Result<(), NoMemory>
    ensures ok { OnOk result (out.new ≡ out.old ++ division_bytes division) }
    ensures err { OnErr result (out.new ≡ out.old) }
{
    if division < FIRST_OF_TWO {
        return out.push(division as u8);
    }
    if division < FIRST_OF_THREE {
        let mut bytes = [0; 2];
        BigEndian::write_u16(&mut bytes, (TWO + (division - FIRST_OF_TWO)) as u16);
        return out.extend_from_slice(alloc, &bytes);
    }
    if division < FIRST_OF_FIVE {
        let mut bytes = [0; 3];
        BigEndian::write_u24(&mut bytes, THREE + (division - FIRST_OF_THREE));
        return out.extend_from_slice(alloc, &bytes);
    }
    let mut bytes = [FIVE; 5];
    BigEndian::write_u32(&mut bytes[1..], division);
    out.extend_from_slice(alloc, &bytes)
}

/// The division at the start of the bytes, and how many of them it takes.
pub(crate) fn read_division(bytes: &[u8]) -> Option<(u32, usize)>
    ensures exact { result ≡ division_in bytes.now }
    ensures within { IfSome result (λ d. d.1 ≤ length bytes.now) }
{
    match bytes {
        [] => None,
        [0..=0x7F, ..] => Some((u32::from(bytes[0]), 1)),
        [0x80..=0xBF, ..] => {
            if bytes.len() < 2 {
                return None;
            }
            let number = u32::from(BigEndian::read_u16(bytes));
            Some((number - TWO + FIRST_OF_TWO, 2))
        }
        [0xC0..=0xDF, ..] => {
            if bytes.len() < 3 {
                return None;
            }
            let number = BigEndian::read_u24(bytes);
            Some((number - THREE + FIRST_OF_THREE, 3))
        }
        [FIVE, rest @ ..] => {
            if rest.len() < 4 {
                return None;
            }
            let number = BigEndian::read_u32(rest);
            if number < FIRST_OF_FIVE {
                return None;
            }
            Some((number, 5))
        }
        _ => None,
    }
}
