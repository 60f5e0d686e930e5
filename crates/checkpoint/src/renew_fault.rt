//! Why a checkpoint under a core failed.
ghost use Rattle.std.specs.Prelude.{◌≡◌};
ghost use Rattle.node_seq.specs.declared.node_read.SeqError.TheVariants as seq;
ghost use Rattle.node_records.specs.declared.open_error.OpenError.TheVariants.{DiskFault, NoMemory};

use node_records::OpenError;
use node_seq::SeqError;

/// Why a checkpoint under a core failed, and the pages' disk where the core doesn't lie over it any more.
#[derive(Drop)]
pub struct RenewFault<P> {
    pub fault: OpenError,
    /// There exactly where the core's base is a copy then.
    pub pages: Option<P>,
}

/// Why a map couldn't be read, as an opening says it.
pub(crate) fn fault_of(fault: SeqError) -> OpenError
    ensures disk { fault ≡ seq.DiskFault → result ≡ DiskFault }
    ensures memory { fault ≡ seq.NoMemory → result ≡ NoMemory }
{
    match fault {
        SeqError::DiskFault => OpenError::DiskFault,
        SeqError::NoMemory => OpenError::NoMemory,
    }
}
