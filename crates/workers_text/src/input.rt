//! An input that is read to its end, within the limits of its lines and of the whole.
ghost use Rattle.std.specs.Prelude.{◌≡◌, ◌≤◌, ◌<◌, ◌+◌, ◌^◌, [], ◌∷◌, ◌++◌, length, Some, None, Err, OnOk, IfSome, IfOk};
ghost use Rattle.script_runs.specs.Counts.{CountedWhere};
ghost use Rattle.script_runs.specs.Whole.{piece};
ghost use Rattle.workers_text.specs.Limits.{too_long_in, KeepsLimits, GaveAtMost};
ghost use Rattle.workers_text.specs.inside.Inputs.{column_after, lines_after, CameOn, IfTooLong, IsTaken};

use crate::script_error::ScriptError;
use outside_traits::{Failed, Source};
use std::alloc::{AllocError, Global};
use std::marker::Model;

/// How many bytes are asked for at a time.
const PIECE: usize = 65_536;

/// The most bytes of the whole, and of a line before its end.
#[derive(Clone, Copy, Debug)]
pub(crate) struct Limits {
    pub(crate) most: usize,
    pub(crate) short: usize,
}

/// An input so far, within its limits.
#[derive(Drop)]
struct Input {
    limits: Limits,
    bytes: Vec<u8>,
    /// How many lines have ended.
    lines: u64,
    /// How many bytes have come of the next one.
    column: usize,
}

impl Model for Input {
    ghost use Rattle.workers_text.specs.inside.Inputs.{IsCounted, Taken};

    ghost Value = { Taken };

    ghost view = { λ i. record { most = i.limits.most; short = i.limits.short; bytes = i.bytes.items } };

    ghost invariant = { λ i. IsCounted i.limits.most i.limits.short i.bytes.items i.lines i.column };
}

fn column_after(column: usize, byte: u8) -> usize
    requires { column < 2 ^ 63 }
    ensures { result ≡ column_after column byte }
{
    if byte == b'\n' { 0 } else { column + 1 }
}

fn lines_after(lines: u64, byte: u8) -> u64
    requires { lines < 2 ^ 63 }
    ensures { result ≡ lines_after lines byte }
{
    if byte == b'\n' { lines + 1 } else { lines }
}

impl Input {
    fn new(alloc: Global, limits: Limits) -> Input
        requires most { limits.most < 2 ^ 63 }
        requires short { limits.short < 2 ^ 63 }
        ensures most { result.most ≡ limits.most }
        ensures short { result.short ≡ limits.short }
        ensures bytes { result.bytes ≡ [] }
        ensures within { KeepsLimits result.most result.short result.bytes }
    {
        Input {
            limits,
            bytes: Vec::new(alloc),
            lines: 0,
            column: 0,
        }
    }

    fn into_bytes(self) -> Vec<u8>
        ensures { result.items ≡ self.bytes }
    {
        self.bytes
    }

    /// Takes the next byte. After an error the input isn't read on.
    fn take(&mut self, byte: u8) -> Result<(), ScriptError>
        ensures ok { OnOk result (CameOn self.old self.new (byte ∷ [])) }
        ensures long { IfTooLong result (λ line. too_long_in self.old.most self.old.short (self.old.bytes ++ byte ∷ []) ≡ Some line) }
        ensures sound { result ≡ Err ScriptError.ReadFault → ⊥ }
    {
        let column = column_after(self.column, byte);
        if self.limits.short < column {
            return Err(ScriptError::TooLong {
                line: self.lines + 1,
            });
        }
        if self.limits.most <= self.bytes.len() {
            return Err(ScriptError::TooLong { line: 0 });
        }
        let Ok(()) = self.bytes.push(byte) else {
            return Err(ScriptError::NoMemory);
        };
        self.column = column;
        self.lines = lines_after(self.lines, byte);
        Ok(())
    }

    /// Takes the next bytes. After an error the input isn't read on.
    fn take_piece(&mut self, piece: &[u8]) -> Result<(), ScriptError>
        requires { KeepsLimits self.old.most self.old.short self.old.bytes }
        ensures ok { OnOk result (CameOn self.old self.new piece.now) }
        ensures long { IfTooLong result (λ line. too_long_in self.old.most self.old.short (self.old.bytes ++ piece.now) ≡ Some line) }
        ensures sound { result ≡ Err ScriptError.ReadFault → ⊥ }
    {
        for byte in piece {
            self.take(*byte)?;
        }
        Ok(())
    }
}

/// Room for a piece.
fn room(alloc: Global) -> Result<Vec<u8>, AllocError>
    ensures some { IfOk result (λ buffer. 0 < length buffer.items) }
    ensures most { IfOk result (λ buffer. length buffer.items ≤ piece) }
{
    Vec::from_elem(alloc, 0u8, PIECE)
}

/// Reads an input to its end, or as far as the piece with the first byte too many.
pub(crate) fn read_input<S: Source>(
    alloc: Global,
    limits: Limits,
    source: &mut S,
) -> Result<Vec<u8>, ScriptError>
    requires most { limits.most < 2 ^ 63 }
    requires short { limits.short < 2 ^ 63 }
    ensures read { GaveAtMost S.left S.given (limits.most + piece) source.old source.new
        (λ read. IsTaken limits.most limits.short read result (λ v. v.items)) }
    ensures whole { OnOk result (IfSome (S.left source.new) (λ rest. rest ≡ [])) }
    ensures cause { CountedWhere (result ≡ Err ScriptError.ReadFault) (S.faults source.old) (S.faults source.new) }
{
    let mut buffer = room(alloc)?;
    read_pieces(alloc, limits, source, &mut buffer)
}

/// The same, by pieces of the buffer's length.
fn read_pieces<S: Source>(
    alloc: Global,
    limits: Limits,
    source: &mut S,
    buffer: &mut [u8],
) -> Result<Vec<u8>, ScriptError>
    requires most { limits.most < 2 ^ 63 }
    requires short { limits.short < 2 ^ 63 }
    requires some { 0 < length buffer.old }
    requires size { length buffer.old ≤ piece }
    ensures read { GaveAtMost S.left S.given (limits.most + piece) source.old source.new
        (λ read. IsTaken limits.most limits.short read result (λ v. v.items)) }
    ensures whole { OnOk result (IfSome (S.left source.new) (λ rest. rest ≡ [])) }
    ensures cause { CountedWhere (result ≡ Err ScriptError.ReadFault) (S.faults source.old) (S.faults source.new) }
{
    let mut input = Input::new(alloc, limits);
    loop {
        let count = match source.read(buffer) {
            Ok(count) => count,
            Err(Failed) => return Err(ScriptError::ReadFault),
        };
        if count == 0 {
            return Ok(input.into_bytes());
        }
        let (piece, _) = buffer.split_at(count);
        input.take_piece(piece)?;
    }
}
