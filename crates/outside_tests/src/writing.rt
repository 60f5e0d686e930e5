//! Writing a whole text to a sink that takes a part of it a call.
ghost use Rattle.std.specs.Prelude.{◌≤◌, None};

use outside_traits::{Failed, Sink, write_all};

/// A sink of eight bytes that takes at most three of them a call.
#[derive(Drop)]
struct Small {
    held: [u8; 8],
    used: usize,
    faults: u64,
    ghost within: { used ≤ 8 },
}

impl Sink for Small {
    ghost held = { λ _. None };

    ghost faults = { λ s. s.faults };

    fn write(&mut self, piece: &[u8]) -> Result<usize, Failed> {
        let count = piece.len().min(3).min(8 - self.used);
        if count > 0 {
            self.held[self.used..self.used + count].copy_from_slice(&piece[..count]);
            self.used += count;
            return Ok(count);
        }
        self.faults = self.faults.saturating_add(1);
        Err(Failed)
    }

    fn faults(&self) -> u64 {
        self.faults
    }
}

#[test]
fn a_text_is_written_in_as_many_calls_as_the_sink_asks_for(rt: HostRuntime) {
    for (text, wrote, held) in &[
        (b"".as_slice(), Ok(()), *b"--------"),
        (b"abcdefg".as_slice(), Ok(()), *b"abcdefg-"),
        (b"abcdefghi".as_slice(), Err(Failed), *b"abcdefgh"),
    ] {
        let mut sink = Small {
            held: [b'-'; 8],
            used: 0,
            faults: 0,
        };
        let answer = write_all(&mut sink, text);
        assert_eq!(rt; (answer, sink.held), (*wrote, *held));
    }
}
