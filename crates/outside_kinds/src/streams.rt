//! A source and a sink over streams of the operating system.
ghost use Rattle.std.specs.Prelude.{◌≡◌, None};

use outside_traits::{Failed, Sink, Source};
use std::io::{Read, Write};

/// A source over a stream. What is left isn't known; it counts the bytes given and the reads that failed.
#[derive(Drop)]
pub struct StdSource<R> {
    inner: R,
    given: u64,
    asked: u64,
    faults: u64,
}

impl<R: Read> StdSource<R> {
    pub fn new(inner: R) -> StdSource<R>
        ensures given { result.given ≡ 0 }
        ensures asked { result.asked ≡ 0 }
        ensures faults { result.faults ≡ 0 }
    {
        StdSource {
            inner,
            given: 0,
            asked: 0,
            faults: 0,
        }
    }
}

impl<R: Read> Source for StdSource<R> {
    ghost left = { λ _. None };

    ghost given = { λ s. s.given };

    ghost asked = { λ s. s.asked };

    ghost faults = { λ s. s.faults };

    fn read(&mut self, buf: &mut [u8]) -> Result<usize, Failed> {
        // A read that could bring the count of bytes past the greatest `u64` isn't made.
        if buf.len() as u64 <= u64::MAX - self.given {
            if let Ok(count) = self.inner.read(buf) {
                self.asked = self.given;
                self.given += count as u64;
                return Ok(count);
            }
        }
        self.faults = self.faults.saturating_add(1);
        Err(Failed)
    }

    fn faults(&self) -> u64 {
        self.faults
    }
}

/// A sink over a stream. What it holds isn't known; it counts the writes that failed or took nothing.
#[derive(Drop)]
pub struct StdSink<W> {
    inner: W,
    faults: u64,
}

impl<W: Write> StdSink<W> {
    pub fn new(inner: W) -> StdSink<W>
        ensures faults { result.faults ≡ 0 }
    {
        StdSink { inner, faults: 0 }
    }
}

impl<W: Write> Sink for StdSink<W> {
    ghost held = { λ _. None };

    ghost faults = { λ s. s.faults };

    fn write(&mut self, piece: &[u8]) -> Result<usize, Failed> {
        if let Ok(count) = self.inner.write(piece) {
            if count > 0 {
                return Ok(count);
            }
        }
        self.faults = self.faults.saturating_add(1);
        Err(Failed)
    }

    fn faults(&self) -> u64 {
        self.faults
    }
}
