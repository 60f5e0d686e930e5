//! Writing a whole text, by as many calls as a sink asks for.
ghost use Rattle.std.specs.Prelude.{OnOk, OnErr};
ghost use Rattle.outside_traits.specs.Bytes.{Took, TookPrefix};
ghost use Rattle.outside_traits.specs.Faults.{HasCause, failed};

use crate::failed::Failed;
use crate::sink::Sink;

/// Writes the whole text, by as many calls as the sink asks for; none where the text is empty.
/// After `Failed` the sink has taken a prefix of the text.
pub fn write_all<K: Sink>(sink: &mut K, text: &[u8]) -> Result<(), Failed>
    ensures ok { OnOk result (Took (K.held sink.old) (K.held sink.new) text.now) }
    ensures err { OnErr result (TookPrefix (K.held sink.old) (K.held sink.new) text.now) }
    ensures cause { HasCause failed (K.faults sink.old) (K.faults sink.new) result }
{
    let mut written = 0;
    while written < text.len() {
        let (_, rest) = text.split_at(written);
        written += sink.write(rest)?;
    }
    Ok(())
}
