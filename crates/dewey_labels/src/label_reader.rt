//! Reading the text of a label, byte by byte.
ghost use Rattle.std.specs.Prelude.{◌≡◌, ◌+◌, ◌<◌, [], ◌∷◌, ◌++◌, length, IfOk, IfSome, IfNone};
ghost use Rattle.std.specs.Bool.{OnTrue, OnFalse};
ghost use Rattle.dewey_labels.specs.Labels.{IsLabel};
ghost use Rattle.dewey_labels.specs.inside.LabelReader.{begins_division, ends_division};
ghost use Rattle.dewey_labels.specs.LabelText.{label_text, IsLabelText, BeginsLabelText};

use crate::label::{GREATEST, Label, MOST_DIVISIONS};
use crate::{Divisions, NoMemory};
use std::alloc::Global;
use std::marker::Model;

/// A reader of a label's text, seen as the bytes that it has read: always a prefix of some label's text.
#[derive(Drop)]
pub struct LabelReader {
    /// The divisions that a point ended.
    divisions: Divisions,
    /// The number of the digits behind them, or 0 where there are none.
    number: u32,
    /// How many bytes were read.
    place: u32,
}

impl Model for LabelReader {
    ghost use Rattle.std.specs.Prelude as p;
    ghost use Rattle.dewey_labels.specs.inside.LabelReader.{text_so_far, CanGoOn};

    ghost Value = { p.List p.ℕ };

    ghost view = { λ r. text_so_far r.divisions r.number };

    ghost invariant = { λ r. CanGoOn r.divisions r.number × p.◌≡◌ r.place (p.length (text_so_far r.divisions r.number)) };
}

impl LabelReader {
    pub fn new() -> LabelReader
        ensures { result ≡ [] }
    {
        LabelReader {
            divisions: Divisions::new(),
            number: 0,
            place: 0,
        }
    }

    /// How many bytes were read.
    pub fn place(&self) -> u32
        ensures place { result ≡ length self.now }
        ensures begins { BeginsLabelText self.now }
    {
        self.place
    }

    /// Reads one more byte, if a label's text may go on with it.
    pub fn read(&mut self, alloc: Global, byte: u8) -> Result<bool, NoMemory>
        ensures taken { IfOk result (λ is_read. OnTrue is_read (self.new ≡ self.old ++ byte ∷ [])) }
        ensures refused { IfOk result (λ is_read. OnFalse is_read ((self.new ≡ self.old) × ¬ (BeginsLabelText (self.old ++ byte ∷ [])))) }
    {
        match byte {
            b'0'..=b'9' => Ok(self.read_digit(byte - b'0')),
            b'.' => self.end_division(alloc),
            _ => Ok(false),
        }
    }

    fn read_digit(&mut self, digit: u8) -> bool
        requires { digit < 10 }
        ensures taken { OnTrue result (self.new ≡ self.old ++ (48 + digit) ∷ []) }
        ensures refused { OnFalse result ((self.new ≡ self.old) × ¬ (BeginsLabelText (self.old ++ (48 + digit) ∷ []))) }
    {
        let number = u64::from(self.number) * 10 + u64::from(digit);
        if !begins_division(self.divisions.len(), number) {
            return false;
        }
        self.number = number as u32;
        self.place += 1;
        true
    }

    fn end_division(&mut self, alloc: Global) -> Result<bool, NoMemory>
        ensures taken { IfOk result (λ is_read. OnTrue is_read (self.new ≡ self.old ++ 46 ∷ [])) }
        ensures refused { IfOk result (λ is_read. OnFalse is_read ((self.new ≡ self.old) × ¬ (BeginsLabelText (self.old ++ 46 ∷ [])))) }
    {
        if !ends_division(self.divisions.len(), self.number) {
            return Ok(false);
        }
        self.divisions.push(alloc, self.number)?;
        self.number = 0;
        self.place += 1;
        Ok(true)
    }

    /// The label whose text was read, if it is whole.
    pub fn finish(self, alloc: Global) -> Result<Option<Label>, NoMemory>
        ensures label { IfOk result (λ found. IfSome found (λ l. IsLabel l × (self ≡ label_text l))) }
        ensures none { IfOk result (λ found. IfNone found (¬ (IsLabelText self))) }
    {
        let LabelReader {
            mut divisions,
            number,
            place: _,
        } = self;
        if number == 0 {
            return Ok(None);
        }
        divisions.push(alloc, number)?;
        Ok(Label::of(divisions))
    }
}

/// Whether a division begins with the digits of `number` behind so many divisions of a label. The last division that fits must be odd.
fn begins_division(behind: usize, number: u64) -> bool
    ensures { result ≡ begins_division behind number }
{
    if behind == 0 {
        return number == 1;
    }
    let is_last = behind == MOST_DIVISIONS - 1;
    let greatest = u64::from(GREATEST);
    0 < number && number <= greatest && (!is_last || number % 2 == 1 || number * 10 < greatest)
}

/// Whether a point may follow `number`, as a division behind so many divisions of a label.
fn ends_division(behind: usize, number: u32) -> bool
    ensures { result ≡ ends_division behind number }
{
    if behind == 0 {
        return number == 1;
    }
    2 <= number && behind < MOST_DIVISIONS - 1
}
