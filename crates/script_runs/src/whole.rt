// A whole input within a limit, and a whole text to a sink: for commands that aren't done line by line.
ghost use Rattle.std.specs.Prelude.{◌≡◌, ◌⊎◌, [], OnOk, Err, IfSome};
ghost use Rattle.outside_traits.specs.Bytes.{Took, TookPrefix};
ghost use Rattle.script_runs.specs.Counts.{CountedWhere};
ghost use Rattle.script_runs.specs.Reads.{GaveSome};
ghost use Rattle.script_runs.specs.Whole.{IsGathered};

use crate::running::{End, buffer};
use outside_traits::{Failed, Sink, Source, write_all};
use std::alloc::Global;

/// Why a whole input can't be had.
#[derive(Clone, Copy, Debug, PartialEq, Eq)]
pub enum GatherError {
    TooLong,
    ReadFault,
    NoMemory,
}

/// Reads the whole input of at most `limit` bytes. It asks for no more once it was given more than that.
pub fn gather<S: Source>(
    alloc: Global,
    limit: usize,
    source: &mut S,
) -> Result<Vec<u8>, GatherError>
    ensures read { GaveSome S.left S.given source.old source.new
        (λ read. IsGathered limit read result (λ bytes. bytes.items)) }
    ensures whole { OnOk result (IfSome (S.left source.new) (λ rest. rest ≡ [])) }
    ensures cause { CountedWhere (result ≡ Err GatherError.ReadFault) (S.faults source.old) (S.faults source.new) }
{
    let mut bytes = Vec::new(alloc);
    let Ok(mut buffer) = buffer(alloc) else {
        return Err(GatherError::NoMemory);
    };
    loop {
        let count = match source.read(&mut buffer) {
            Ok(count) => count,
            Err(Failed) => return Err(GatherError::ReadFault),
        };
        if count == 0 {
            return Ok(bytes);
        }
        if limit - bytes.len() < count {
            return Err(GatherError::TooLong);
        }
        let (piece, _) = buffer.as_slice().split_at(count);
        if bytes.extend_from_slice(piece).is_err() {
            return Err(GatherError::NoMemory);
        }
    }
}

/// Writes the text of a command that isn't done line by line.
pub fn say<K: Sink>(sink: &mut K, text: &[u8]) -> End
    ensures ends { (result ≡ End.Done) ⊎ (result ≡ End.WriteFault) }
    ensures done { result ≡ End.Done → Took (K.held sink.old) (K.held sink.new) text.now }
    ensures fault { result ≡ End.WriteFault → TookPrefix (K.held sink.old) (K.held sink.new) text.now }
    ensures cause { CountedWhere (result ≡ End.WriteFault) (K.faults sink.old) (K.faults sink.new) }
{
    match write_all(sink, text) {
        Ok(()) => End::Done,
        Err(Failed) => End::WriteFault,
    }
}
