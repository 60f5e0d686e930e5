// Faults that were counted are answered, whatever else went wrong.
ghost use Rattle.std.specs.Prelude.{◌≡◌, ◌≤◌, ◌⊎◌};
ghost use Rattle.outside_traits.specs.Faults.{FaultCounted};
ghost use Rattle.node_records.specs.declared.open_error.OpenError.TheVariants as errors;

use node_records::OpenError;

/// The error that is answered where a disk's count of faults was the first number before and is the second now: a fault that was counted comes first.
pub fn told(fault: OpenError, before: u64, now: u64) -> OpenError
    requires later { before ≤ now }
    ensures { ((now ≡ before) × (result ≡ fault)) ⊎ (FaultCounted before now × (result ≡ errors.DiskFault)) }
{
    if now == before {
        fault
    } else {
        OpenError::DiskFault
    }
}
