//! An attempt that is given up: for a fault of the base, or for want of memory.

ghost use Rattle.std.specs.Prelude.{◌≡◌, ◌+◌, ◌≤◌, ◌<◌, ◌||◌, true, nat_lt, Some, None, is_some};
ghost use Rattle.std.specs.Ordering.{nat_cmp};
ghost use Rattle.std.specs.BTreeMap.{get};
ghost use Rattle.tx_core.specs.inside.Passed.{ArePassed};
ghost use Rattle.node_seq.specs.declared.node_read.SeqError.TheVariants.{DiskFault};
ghost use Rattle.tx_core.specs.inside.Sessions.{HasRoom, IsSeated, IsSeatedAs, wait_in, call_error_of};
ghost use Rattle.tx_core.specs.inside.Goes.{IsFailed, IsLeft};

use crate::ends::{note, stop_waiting};
use crate::errors::CallError;
use crate::parts::Parts;
use call_contract::{Event, EventAnswer, Noted, TreeCall};
use dewey_labels::NoMemory;
use node_seq::{NodeRead, SeqError};

/// Notes that an attempt failed after so many grants.
fn fail<C: TreeCall + Drop, B: NodeRead>(
    parts: &mut Parts<C, B>,
    session: u32,
    call: C,
    grants: u32,
    faults: Option<u64>,
)
    requires seated { IsSeated parts.old }
    requires ready { wait_in (get nat_cmp parts.old.places session) ≡ Some None }
    requires room { HasRoom 1 parts.old }
    requires some { (is_some faults || nat_lt 0 grants) ≡ true }
    ensures failed { IsFailed C.is_valid C.meaning B.contents parts.old session call grants faults parts.new }
    ensures seated { IsSeatedAs parts.old parts.new }
    ensures base { parts.new.base ≡ parts.old.base }
    ensures passed { ArePassed B.contents parts.old → ArePassed B.contents parts.new }
{
    stop_waiting(&mut parts.waiting, session);
    parts.prepared = None;
    note(
        &mut parts.book,
        Noted {
            session,
            event: Event::Fail {
                call: Some(call),
                grants,
                faults,
            },
            answer: EventAnswer::Nothing,
        },
    );
}

/// Gives an attempt up after so many grants. That is noted after a fault, with the base's count, and where something was granted.
pub fn give_up<C: TreeCall + Drop, B: NodeRead>(
    parts: &mut Parts<C, B>,
    session: u32,
    call: C,
    granted: usize,
    error: SeqError,
) -> CallError
    requires seated { IsSeated parts.old }
    requires ready { wait_in (get nat_cmp parts.old.places session) ≡ Some None }
    requires room { HasRoom 2 parts.old }
    requires fits { granted ≤ 4_294_967_295 }
    ensures left { IsLeft C.is_valid C.meaning B.contents B.count parts.old session call granted result parts.new }
    ensures error { result ≡ call_error_of error }
    ensures seated { IsSeatedAs parts.old parts.new }
    ensures base { parts.new.base ≡ parts.old.base }
    ensures passed { ArePassed B.contents parts.old → ArePassed B.contents parts.new }
{
    match error {
        SeqError::DiskFault => {
            let faults = parts.base.faults();
            fail(parts, session, call, granted as u32, Some(faults));
            CallError::DiskFault
        }
        SeqError::NoMemory => {
            if granted > 0 {
                fail(parts, session, call, granted as u32, None);
            }
            CallError::NoMemory
        }
    }
}
