//! Labels: their divisions, and a byte 0 that no division begins with.
ghost use Rattle.std.specs.Prelude.{◌≡◌, ◌≤◌, ◌++◌, length, IfOk, IfSome, OnOk, OnErr};
ghost use Rattle.dewey_labels.specs.Labels.{IsLabel};
ghost use Rattle.node_records.specs.Labels.{label_bytes, label_in, divisions_in};
ghost use Rattle.dewey_labels.specs.Lists.{AppendsPrefix};

use crate::divisions::{read_division, write_division};
use dewey_labels::{Divisions, Label, List, MOST_DIVISIONS, NoMemory};
use std::alloc::Global;

/// The byte behind the divisions of a label; no division begins with it.
const END: u8 = 0;

/// Writes a label's divisions and their end.
pub(crate) fn write_label(alloc: Global, label: &Label, out: &mut List<u8>) -> Result<(), NoMemory>
    ensures ok { OnOk result (out.new ≡ out.old ++ label_bytes label.now) }
    ensures err { OnErr result (AppendsPrefix (label_bytes label.now) out.old out.new) }
    ensures label { OnOk result (IsLabel label.now) }
{
    for division in label.divisions() {
        write_division(alloc, *division, out)?;
    }
    out.push(END)?;
    Ok(())
}

/// The label at the start of the bytes, and how many of them it takes.
pub(crate) fn read_label(alloc: Global, bytes: &[u8]) -> Result<Option<(Label, usize)>, NoMemory>
    ensures exact { IfOk result (λ found. found ≡ label_in bytes.now) }
    ensures within { IfOk result (λ found. IfSome found (λ l. l.1 ≤ length bytes.now)) }
{
    let Some((divisions, taken)) = read_divisions(alloc, bytes)? else {
        return Ok(None);
    };
    match Label::of(divisions) {
        Some(label) => Ok(Some((label, taken))),
        None => Ok(None),
    }
}

/// The divisions up to the end of a label, and how many bytes they and the end take.
fn read_divisions(alloc: Global, bytes: &[u8]) -> Result<Option<(Divisions, usize)>, NoMemory>
    ensures exact { IfOk result (λ found. found ≡ divisions_in 256 bytes.now) }
    ensures within { IfOk result (λ found. IfSome found (λ ds. ds.1 ≤ length bytes.now)) }
{
    let mut divisions = Divisions::new();
    let mut taken = 0;
    for _ in 0..=MOST_DIVISIONS {
        let rest = &bytes[taken..];
        if rest.is_empty() {
            return Ok(None);
        }
        if rest[0] == END {
            return Ok(Some((divisions, taken + 1)));
        }
        let Some((division, length)) = read_division(rest) else {
            return Ok(None);
        };
        divisions.push(alloc, division)?;
        taken += length;
    }
    Ok(None)
}
