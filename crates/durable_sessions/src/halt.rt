ghost use Rattle.std.specs.Prelude.{◌≡◌};
ghost use Rattle.durable_sessions.specs.declared.halt.Halt.TheVariants.{DiskFault as Fails, NoMemory as WantsMemory};

use dewey_labels::NoMemory;
use journal::DiskFault;

/// Why sessions can't go on.
#[derive(Clone, Copy, Debug, PartialEq, Eq)]
pub enum Halt {
    /// A call of a disk failed, of the journal's or of the base's: the commit that was under way may be found at the next opening or not.
    DiskFault,
    NoMemory,
}

impl From<NoMemory> for Halt {
    ghost from_gives = { λ _ halt. halt ≡ WantsMemory };

    fn from(_refused: NoMemory) -> Halt {
        Halt::NoMemory
    }
}

impl From<DiskFault> for Halt {
    ghost from_gives = { λ _ halt. halt ≡ Fails };

    fn from(_failed: DiskFault) -> Halt {
        Halt::DiskFault
    }
}
