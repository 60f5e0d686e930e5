// What one session is asked, over a core and the journal of its commits.
ghost use Rattle.std.specs.Prelude.{◌≡◌, ◌≢◌, ◌<◌, ◌++◌, length, Some, Err, OnOk, OnErr, vec_capacity};
ghost use Rattle.script_runs.specs.Counts.{DisksCountedWhere};
ghost use Rattle.session_driver.specs.Driving.{HasBegun};
ghost use Rattle.session_driver.specs.declared.doing.Doing.TheVariants.{Commit};
ghost use Rattle.durable_sessions.specs.Asked.{counts_of, DoesAsAsked, GoesOnByOne, GrowsByOne, IsDurableFirst, LeavesEither, OfAsked, TakesNext};
ghost use Rattle.durable_sessions.specs.inside.Commits.{CommitLeads, IsDue};
ghost use Rattle.durable_sessions.specs.inside.Halts.{halt_of};

use crate::base::SessionBase;
use crate::halt::Halt;
use call_contract::TreeCall;
use command_lines::LineReply;
use journal::Journal;
use outside_traits::Disk;
use session_driver::{Doing, drive, finish_commit};
use std::alloc::Global;
use tx_core::{CallError, Core, Prepared};

/// Does what a session is asked. A commit is made once it is durable, and where the journal's disk fails no entry comes to the book.
/// After an error a first part of what was asked is done, with an attempt that failed behind it at most. A fault of the base ends it as one of the journal's disk does.
pub fn answer<C: TreeCall + Drop, B: SessionBase, J: Disk>(
    alloc: Global,
    core: &mut Core<C, B>,
    journal: &mut Journal<J>,
    session: u32,
    doing: Doing<C>,
    replies: &mut Vec<LineReply>,
) -> Result<(), Halt>
    requires takes { TakesNext core.old journal.old }
    ensures does { OnOk result (DoesAsAsked C.meaning B.contents J.is_known session doing core.old core.new
        journal.old journal.new replies.old replies.new) }
    ensures goes_on { OnOk result (GoesOnByOne core.old core.new journal.new) }
    ensures any_moment { OfAsked C.meaning B.contents core.old session doing
        (λ s p. LeavesEither J.is_known journal.old.history journal.new.history s p.state) }
    ensures durable_first { IsDurableFirst doing core.old core.new journal.old journal.new }
    ensures begun { OnErr result (OfAsked C.meaning B.contents core.old session doing
        (λ s p. HasBegun core.old core.new replies.old.items replies.new.items p)) }
    ensures base { B.stays core.old.base core.new.base }
    ensures counts { DisksCountedWhere (result ≡ Err Halt.DiskFault) (counts_of B.count core.old journal.old) (counts_of B.count core.new journal.new) }
{
    // It tells that the book is legal, before and after.
    core.is_legal();
    let faults = core.faults();
    match drive(alloc, core, session, doing, replies) {
        Ok(None) => {
            core.is_legal();
            Ok(())
        }
        Ok(Some(prepared)) => commit(alloc, core, journal, session, prepared, replies),
        Err(error) => Err(halt_of(error, faults, core.faults())),
    }
}

/// Makes a commit durable, then makes it and does what it leads to; where the journal's disk fails nothing is made.
/// What memory the journal wants is taken before its first write.
fn commit<C: TreeCall + Drop, B: SessionBase, J: Disk>(
    alloc: Global,
    core: &mut Core<C, B>,
    journal: &mut Journal<J>,
    session: u32,
    prepared: Prepared,
    replies: &mut Vec<LineReply>,
) -> Result<(), Halt>
    requires takes { TakesNext core.old journal.old }
    requires prepared { core.old.prepared ≡ Some session }
    requires due { IsDue C.meaning B.contents core.old session prepared }
    requires room { length replies.old.items < vec_capacity replies.old }
    ensures state { OnOk result (CommitLeads C.meaning B.contents J.is_known session
        core.old core.new journal.old.history journal.new.history) }
    ensures replies { OnOk result (OfAsked C.meaning B.contents core.old session Commit
        (λ s p. replies.new.items ≡ replies.old.items ++ p.lines)) }
    ensures takes { OnOk result (TakesNext core.new journal.new) }
    ensures any_moment { OfAsked C.meaning B.contents core.old session Commit
        (λ s p. LeavesEither J.is_known journal.old.history journal.new.history s p.state) }
    ensures unmade { journal.new.faults ≢ journal.old.faults → core.new ≡ core.old }
    ensures begun { OnErr result (OfAsked C.meaning B.contents core.old session Commit
        (λ s p. HasBegun core.old core.new replies.old.items replies.new.items p)) }
    ensures grown { OnOk result (GrowsByOne core.old core.new) }
    ensures book { OnOk result (OfAsked C.meaning B.contents core.old session Commit
        (λ s p. core.new.book ≡ core.old.book ++ p.book)) }
    ensures base { B.stays core.old.base core.new.base }
    ensures counts { DisksCountedWhere (result ≡ Err Halt.DiskFault) (counts_of B.count core.old journal.old) (counts_of B.count core.new journal.new) }
{
    // It tells that the book is legal, before and after.
    core.is_legal();
    // It tells that no images are open.
    journal.is_usable();
    let faults = core.faults();
    journal.make_room(alloc, prepared.body.len())?;
    journal.append_group(prepared.number, prepared.body.as_slice())?;
    match finish_commit(alloc, core, session, prepared, replies) {
        Ok(()) => {
            B::take_in(alloc, core);
            core.is_legal();
            Ok(())
        }
        Err(error) => Err(halt_of(error, faults, core.faults())),
    }
}

/// Why sessions can't go on after an error, by the base's count of faults before the call and now.
fn halt_of(error: CallError, before: u64, now: u64) -> Halt
    ensures { result ≡ halt_of error before now }
{
    match error {
        CallError::DiskFault => Halt::DiskFault,
        _ if before == now => Halt::NoMemory,
        _ => Halt::DiskFault,
    }
}
