use outside_traits::{Failed, Sink, Source};

/// A source or a sink that gives or takes at most `piece` bytes a call, and may be asked for one at least.
#[derive(Drop)]
pub struct InPieces<T> {
    pub inner: T,
    pub piece: usize,
}

impl<S: Source> Source for InPieces<S> {
    ghost left = { λ s. S.left s.inner };

    ghost given = { λ s. S.given s.inner };

    ghost asked = { λ s. S.asked s.inner };

    ghost faults = { λ s. S.faults s.inner };

    fn read(&mut self, buf: &mut [u8]) -> Result<usize, Failed> {
        let count = buf.len().min(self.piece.max(1));
        self.inner.read(&mut buf[..count])
    }

    fn faults(&self) -> u64 {
        self.inner.faults()
    }
}

impl<K: Sink> Sink for InPieces<K> {
    ghost held = { λ s. K.held s.inner };

    ghost faults = { λ s. K.faults s.inner };

    fn write(&mut self, piece: &[u8]) -> Result<usize, Failed> {
        let count = piece.len().min(self.piece.max(1));
        self.inner.write(&piece[..count])
    }

    fn faults(&self) -> u64 {
        self.inner.faults()
    }
}
