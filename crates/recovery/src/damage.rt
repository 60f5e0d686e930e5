// The place of the first broken rule, where the journal's groups are read up to a broken one and the pages may tell the number that the first goes on from.
ghost use Rattle.std.specs.Prelude.{◌≡◌, ◌≤◌, IsTrue, IfOk};
ghost use Rattle.outside_traits.specs.Faults.{HasCause, FaultCounted, failed};
ghost use Rattle.journal.specs.Refusals.{UnlessFault};
ghost use Rattle.recovery.specs.inside.Firsts.{IsFirst};
ghost use Rattle.store_contents.specs.Contents.{first_broken, goes_on_from, is_other, starts_wrong};

use journal::{FIRST_GATE, Group, IMAGES, first_number, kind_at};
use node_records::{File, OpenError};
use outside_traits::{Disk, Failed};

/// Whether the first commit has the number behind the base, where both are there.
pub fn goes_on_from(base: Option<u32>, commits: &[Group]) -> bool
    ensures { result ≡ goes_on_from base commits.now }
{
    match (base, commits) {
        (Some(base), [first, ..]) => u64::from(first.number) == u64::from(base) + 1,
        _ => true,
    }
}

/// The fault that is answered for one that was found in the journal.
pub fn first_fault<J: Disk>(journal: &mut J, base: Option<u32>, fault: OpenError) -> OpenError
    ensures first { IsFirst (IsTrue J.is_known) base (J.history journal.old).now.reads
        (FaultCounted (J.faults journal.old) (J.faults journal.new)) fault result }
    ensures same { IsTrue J.is_known → J.history journal.new ≡ J.history journal.old }
    ensures uncounted { UnlessFault result (J.faults journal.new ≡ J.faults journal.old) }
    ensures later { J.faults journal.old ≤ J.faults journal.new }
{
    let OpenError::Damaged(place) = fault else {
        return fault;
    };
    match first_broken(journal, base, place.at) {
        Ok(at) => OpenError::at(File::Journal, at),
        Err(Failed) => OpenError::DiskFault,
    }
}

/// The gate of the first group with a broken rule, the groups being read up to this gate.
fn first_broken<J: Disk>(journal: &mut J, base: Option<u32>, at: u64) -> Result<u64, Failed>
    ensures value { IfOk result (λ first. IsTrue J.is_known → first ≡ first_broken base (J.history journal.old).now.reads at) }
    ensures same { IsTrue J.is_known → J.history journal.new ≡ J.history journal.old }
    ensures cause { HasCause failed (J.faults journal.old) (J.faults journal.new) result }
{
    if starts_wrong(journal, base, at)? {
        return Ok(FIRST_GATE);
    }
    Ok(at)
}

/// Whether the first commit's number breaks a rule before the group at this gate does.
fn starts_wrong<J: Disk>(journal: &mut J, base: Option<u32>, at: u64) -> Result<bool, Failed>
    ensures value { IfOk result (λ wrong. IsTrue J.is_known → wrong ≡ starts_wrong base (J.history journal.old).now.reads at) }
    ensures same { IsTrue J.is_known → J.history journal.new ≡ J.history journal.old }
    ensures cause { HasCause failed (J.faults journal.old) (J.faults journal.new) result }
{
    if at <= FIRST_GATE || kind_at(journal, at)? == IMAGES {
        return Ok(false);
    }
    let number = first_number(journal)?;
    Ok(is_other(base, number))
}

/// Whether a number isn't the one behind the base, where that is there.
fn is_other(base: Option<u32>, number: Option<u32>) -> bool
    ensures { result ≡ is_other base number }
{
    match (base, number) {
        (None, _) => false,
        (Some(_), None) => true,
        (Some(base), Some(number)) => u64::from(number) != u64::from(base) + 1,
    }
}
