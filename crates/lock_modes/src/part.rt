//! The parts of a lock mode: what it reads and what it writes.
ghost use Rattle.std.specs.Prelude.{◌≡◌};
ghost use Rattle.lock_modes.specs.Parts.{admits, greater_read, greater_write};

/// What a mode reads, from the least to the greatest.
#[derive(Debug, Drop, Clone, Copy, PartialEq, Eq)]
pub enum ReadPart {
    /// Nothing but that the node is there: something below it is read.
    I,
    /// The node itself.
    N,
    /// The node and the level below it: all its children.
    L,
    /// The node and all that lies below it.
    S,
}

/// What a mode says of changes below its node, from the least to the greatest.
#[derive(Debug, Drop, Clone, Copy, PartialEq, Eq)]
pub enum WritePart {
    /// Nothing below is changed.
    NoWrite,
    /// Something below the children is changed.
    IX,
    /// A child is changed, placed or taken out.
    CX,
}

impl ReadPart {
    pub(crate) fn greater(self, other: ReadPart) -> ReadPart
        ensures { result ≡ greater_read self other }
    {
        if self as u8 <= other as u8 {
            other
        } else {
            self
        }
    }
}

impl WritePart {
    pub(crate) fn greater(self, other: WritePart) -> WritePart
        ensures { result ≡ greater_write self other }
    {
        if self as u8 <= other as u8 {
            other
        } else {
            self
        }
    }

    /// Whether one owner may have this write part where another has that read part.
    pub(crate) fn admits(self, read: ReadPart) -> bool
        ensures { result ≡ admits self read }
    {
        match read {
            ReadPart::I | ReadPart::N => true,
            ReadPart::L => self != WritePart::CX,
            ReadPart::S => self == WritePart::NoWrite,
        }
    }
}
