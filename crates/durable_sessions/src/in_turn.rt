// What one session is asked in turn, up to the first that is refused.
ghost use Rattle.std.specs.Prelude.{◌≡◌, ◌∷◌, [], None, Err, IfSome, OnOk};
ghost use Rattle.script_runs.specs.Counts.{DisksCountedWhere};
ghost use Rattle.session_driver.specs.Lines.{AreValid};
ghost use Rattle.durable_sessions.specs.Asked.{counts_of, TakesNext};
ghost use Rattle.durable_sessions.specs.InTurn.{all_asks, AsksInTurn};
ghost use Rattle.durable_sessions.specs.Reasons.{reason_in};
ghost use Rattle.durable_sessions.specs.declared.in_turn.Stop.TheVariants.{DiskFault as Fails, NoMemory as WantsMemory};

use crate::answering::answer;
use crate::base::SessionBase;
use crate::halt::Halt;
use crate::reasons::{Reason, reason_in};
use call_contract::TreeCall;
use command_lines::LineReply;
use dewey_labels::NoMemory;
use journal::Journal;
use outside_traits::Disk;
use session_driver::Doing;
use std::alloc::Global;
use tx_core::Core;

/// Why no more is asked.
#[derive(Debug, Drop)]
pub enum Stop {
    /// The last reply is a reason to.
    Refused(Reason),
    /// A disk failed.
    DiskFault,
    NoMemory,
}

impl From<Halt> for Stop {
    ghost use Rattle.durable_sessions.specs.InTurn.{stop_of};

    ghost from_gives = { λ halt stop. stop ≡ stop_of halt };

    fn from(halt: Halt) -> Stop {
        match halt {
            Halt::DiskFault => Stop::DiskFault,
            Halt::NoMemory => Stop::NoMemory,
        }
    }
}

impl From<NoMemory> for Stop {
    ghost from_gives = { λ _ stop. stop ≡ WantsMemory };

    fn from(_refused: NoMemory) -> Stop {
        Stop::NoMemory
    }
}

/// Asks a session these in turn, up to the first that is refused.
pub fn ask_in_turn<C: TreeCall + Drop, B: SessionBase, J: Disk>(
    alloc: Global,
    core: &mut Core<C, B>,
    journal: &mut Journal<J>,
    session: u32,
    mut doings: Vec<Doing<C>>,
    replies: &mut Vec<LineReply>,
) -> Result<(), Stop>
    requires takes { TakesNext core.old journal.old }
    requires valid { AreValid C.is_valid (all_asks session doings.items) }
    requires unrefused { reason_in replies.old.items ≡ None }
    ensures asked { AsksInTurn C.is_valid C.meaning B.contents J.is_known session doings
        core.old core.new journal.old journal.new replies.old replies.new result }
    ensures takes { OnOk result (TakesNext core.new journal.new) }
    ensures unrefused { OnOk result (reason_in replies.new.items ≡ None) }
    ensures base { B.stays core.old.base core.new.base }
    ensures counts { DisksCountedWhere (result ≡ Err Stop.DiskFault) (counts_of B.count core.old journal.old) (counts_of B.count core.new journal.new) }
{
    let Some(doing) = take_first(&mut doings) else {
        return Ok(());
    };
    answer(alloc, core, journal, session, doing, replies)?;
    if let Some(why) = reason_in(replies.as_slice()) {
        return Err(Stop::Refused(why));
    }
    ask_in_turn(alloc, core, journal, session, doings, replies)
}

/// Takes the first of a list.
fn take_first<C: TreeCall + Drop>(doings: &mut Vec<Doing<C>>) -> Option<Doing<C>>
    ensures first { IfSome result (λ doing. doings.old.items ≡ doing ∷ doings.new.items) }
    ensures none { result ≡ None → doings.old.items ≡ [] }
{
    if doings.as_slice().is_empty() {
        return None;
    }
    Some(doings.remove(0))
}
