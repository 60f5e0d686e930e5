// A store's sessions over its two disks, as a machine that does the lines of a script.
ghost use Rattle.std.specs.Prelude.{◌≡◌, ◌++◌, ◌∷◌, [], Err, IsTrue, OnOk};
ghost use Rattle.command_lines.specs.Replies.{reply_text};
ghost use Rattle.command_lines.specs.declared.line_reply.LineReply.TheVariants as line_reply;
ghost use Rattle.durable_sessions.specs.Asked.{counts_of, GrowsByOne, LeavesEither, TakesNext};
ghost use Rattle.script_runs.specs.Counts.{DisksCountedWhere};
ghost use Rattle.xtc.specs.Book.{done_by, replies_text};
ghost use Rattle.xtc.specs.ReadLines.{line_in};
ghost use Rattle.node_records.specs.declared.open_error.Place.{Place};
ghost use Rattle.script_runs.specs.declared.halt.Halt.TheVariants as halt;
ghost use Rattle.xtc.specs.Checkpoints.{is_positive};
ghost use Rattle.xtc.specs.StoreMachine.{HasAnswered, HasPages, HasRested, faults_of, file_in};
ghost use Rattle.xtc.specs.inside.Asking.{EachState, LeadsEach, done_for};
ghost use Rattle.xtc.specs.inside.Renewing.{KeepsStanding, LeftAsBefore, StoreCounts, is_due_behind, kept};

use crate::checkpoints::{Checkpoints, MakesCheckpoints};
use crate::line::{ReadLine, read_line};
use checkpoint::Base;
use command_lines::{LineReply, write_reply};
use dewey_labels::{List, NoMemory, Text};
use durable_sessions::{Halt, SessionBase, answer};
use journal::Journal;
use node_records::OpenError;
use outside_traits::Disk;
use overlays::Stacked;
use paged_seq::PagedSeq;
use script_runs::LineMachine;
use session_driver::Doing;
use std::alloc::Global;
use std::marker::Model;
use std::mem;
use store_calls::StoreOp;
use tx_core::Core;

/// A store that was opened: what its pages and the commits of its journal make together, the journal, and the number of the last commit.
#[derive(Drop)]
pub struct OpenStore<J: Disk, P: Disk + Drop> {
    pub base: Stacked<PagedSeq<P>>,
    pub journal: Journal<J>,
    pub number: u32,
}

/// The disk of the pages.
pub fn disk_of<P: Disk + Drop>(base: Stacked<PagedSeq<P>>) -> P
    ensures { result ≡ base.base.disk }
{
    let (pages, _layers) = base.into_parts();
    let (disk, _pool) = pages.into_parts();
    disk
}

/// The sessions of a store, the journal that their commits go to, and the checkpoints that move these into the pages.
#[derive(Drop)]
pub struct Store<J: Disk, P: Disk + Drop, C: MakesCheckpoints> {
    core: Core<StoreOp, Base<P>>,
    journal: Journal<J>,
    checkpoints: Checkpoints<P>,
    makes: C,
    /// The replies to the last line, whose room the next one uses.
    replies: Vec<LineReply>,
}

impl<J: Disk, P: Disk + Drop, C: MakesCheckpoints> Model for Store<J, P, C> {
    ghost use Rattle.std.specs.Coded.{codes};
    ghost use Rattle.path_model.specs.contracts.path.XPath as path;
    ghost use Rattle.tree_model.specs.contracts.fragment.Fragment as fragment;
    ghost use Rattle.xtc.specs.StoreMachine.{HasPages, KeptStore};

    ghost Value = { KeptStore P };

    ghost coded = { Prim.hlevel (codes, fragment.the_row.coded, path.the_row.coded) };

    ghost view = { λ s. record { core = s.core; journal = s.journal; checkpoints = s.checkpoints } };

    ghost invariant = { λ s. HasPages s.core.base s.checkpoints.pages };
}

impl<J: Disk, P: Disk + Drop, C: MakesCheckpoints> Store<J, P, C> {
    pub fn new(
        alloc: Global,
        core: Core<StoreOp, Base<P>>,
        journal: Journal<J>,
        checkpoints: Checkpoints<P>,
        makes: C,
    ) -> Store<J, P, C>
        requires pages { HasPages core.base checkpoints.pages }
        ensures { result ≡ record { core = core; journal = journal; checkpoints = checkpoints } }
    {
        Store {
            core,
            journal,
            checkpoints,
            makes,
            replies: Vec::new(alloc),
        }
    }

    /// Hands out the journal and the disk of the pages.
    pub fn into_parts(self) -> (Journal<J>, P)
        ensures journal { result.0 ≡ self.journal }
        ensures pages { P.history result.1 ≡ file_in P.history self }
        ensures faults { P.faults result.1 ≡ faults_of P.faults self.core.base self.checkpoints.pages }
    {
        let Store {
            core,
            journal,
            checkpoints,
            ..
        } = self;
        (journal, checkpoints.disk_beside(core.into_base()))
    }
}

/// Does a line that was read, by its number from 1, and adds its replies to `out`. They are made in `replies`.
fn do_line<B: SessionBase, J: Disk>(
    alloc: Global,
    core: &mut Core<StoreOp, B>,
    journal: &mut Journal<J>,
    replies: &mut Vec<LineReply>,
    number: u64,
    line: ReadLine,
    out: &mut Vec<u8>,
) -> Result<(), Halt>
    requires takes { TakesNext core.old journal.old }
    ensures state { OnOk result (LeadsEach B.contents J.Disk
        core.old core.new journal.old journal.new (λ s. (done_by s 0 (line_in line)).state)) }
    ensures text { OnOk result (EachState B.contents core.old
        (λ s. out.new.items
        ≡ out.old.items ++ replies_text (done_by s number (line_in line)).lines)) }
    ensures takes { OnOk result (TakesNext core.new journal.new) }
    ensures any_moment { EachState B.contents core.old
        (λ s. LeavesEither J.is_known journal.old.history journal.new.history
        s (done_by s 0 (line_in line)).state) }
    ensures grown { OnOk result (GrowsByOne core.old core.new) }
    ensures book { OnOk result (EachState B.contents core.old
        (λ s. core.new.book ≡ core.old.book ++ (done_by s 0 (line_in line)).book)) }
    ensures base { B.stays core.old.base core.new.base }
    ensures counts { DisksCountedWhere (result ≡ Err Halt.DiskFault) (counts_of B.count core.old journal.old) (counts_of B.count core.new journal.new) }
{
    match line {
        ReadLine::Nothing => Ok(()),
        ReadLine::Bad(why) => Ok(write_bad(alloc, why, number, out)?),
        ReadLine::Asked(session, doing) => {
            ask(alloc, core, journal, replies, session, doing, out)
        }
    }
}

/// Does what a session is asked, and adds the replies to `out`. They are made in `replies`.
fn ask<B: SessionBase, J: Disk>(
    alloc: Global,
    core: &mut Core<StoreOp, B>,
    journal: &mut Journal<J>,
    replies: &mut Vec<LineReply>,
    session: u32,
    doing: Doing<StoreOp>,
    out: &mut Vec<u8>,
) -> Result<(), Halt>
    requires takes { TakesNext core.old journal.old }
    ensures state { OnOk result (LeadsEach B.contents J.Disk
        core.old core.new journal.old journal.new (λ s. (done_for s session doing).state)) }
    ensures text { OnOk result (EachState B.contents core.old
        (λ s. out.new.items ≡ out.old.items ++ replies_text (done_for s session doing).lines)) }
    ensures takes { OnOk result (TakesNext core.new journal.new) }
    ensures any_moment { EachState B.contents core.old
        (λ s. LeavesEither J.is_known journal.old.history journal.new.history
        s (done_for s session doing).state) }
    ensures grown { OnOk result (GrowsByOne core.old core.new) }
    ensures book { OnOk result (EachState B.contents core.old
        (λ s. core.new.book ≡ core.old.book ++ (done_for s session doing).book)) }
    ensures base { B.stays core.old.base core.new.base }
    ensures counts { DisksCountedWhere (result ≡ Err Halt.DiskFault) (counts_of B.count core.old journal.old) (counts_of B.count core.new journal.new) }
{
    replies.clear();
    answer(alloc, core, journal, session, doing, replies)?;
    Ok(write_replies(alloc, replies.as_slice(), out)?)
}

/// Adds the reply to a line that is no command.
fn write_bad(alloc: Global, why: Text, line: u64, out: &mut Vec<u8>) -> Result<(), NoMemory>
    ensures { OnOk result (out.new.items ≡ out.old.items ++ replies_text (line_reply.Bad why line ∷ [])) }
{
    let replies = vec![in alloc; LineReply::Bad { why, line }]?;
    write_replies(alloc, replies.as_slice(), out)
}

/// Adds a reply.
fn write_line(alloc: Global, reply: &LineReply, out: &mut Vec<u8>) -> Result<(), NoMemory>
    ensures { OnOk result (out.new.items ≡ out.old.items ++ reply_text reply.now) }
{
    let mut text = List::from_vec(mem::replace(out, Vec::new(alloc)));
    let written = write_reply(alloc, reply, &mut text);
    *out = text.into_vec();
    written
}

/// Adds replies.
fn write_replies(alloc: Global, replies: &[LineReply], out: &mut Vec<u8>) -> Result<(), NoMemory>
    ensures { OnOk result (out.new.items ≡ out.old.items ++ replies_text replies.now) }
{
    for reply in replies {
        write_line(alloc, reply, out)?;
    }
    Ok(())
}

/// Makes a checkpoint if one is due.
fn rest<J: Disk, P: Disk + Drop>(
    alloc: Global,
    checkpoints: &mut Checkpoints<P>,
    core: &mut Core<StoreOp, Base<P>>,
    journal: &mut Journal<J>,
) -> Result<(), script_runs::Halt>
    requires answered { HasAnswered P.is_known P.history (kept core.old journal.old checkpoints.old) }
    ensures rested { OnOk result (HasRested P.is_known P.history (kept core.new journal.new checkpoints.new)) }
    ensures every { checkpoints.new.every ≡ checkpoints.old.every }
    ensures left { LeftAsBefore (is_due_behind checkpoints.old core.old)
        core.old core.new journal.old journal.new checkpoints.old.pages checkpoints.new.pages }
    ensures damaged { (place : Place) → result ≡ Err (halt.Damaged place) → IsTrue (is_positive checkpoints.old.every) × (IsTrue P.is_known → ⊥) }
    ensures files { KeepsStanding J.Disk P.Disk (kept core.old journal.old checkpoints.old)
        (kept core.new journal.new checkpoints.new) result }
    ensures counts { StoreCounts P.faults (result ≡ Err halt.DiskFault)
        (kept core.old journal.old checkpoints.old) (kept core.new journal.new checkpoints.new) }
{
    match checkpoints.make_if_due(alloc, core, journal) {
        Ok(()) => Ok(()),
        Err(OpenError::Damaged(place)) => Err(script_runs::Halt::Damaged(place)),
        Err(OpenError::DiskFault) => Err(script_runs::Halt::DiskFault),
        Err(OpenError::NoMemory) => Err(script_runs::Halt::NoMemory),
    }
}

impl<J: Disk, P: Disk + Drop, C: MakesCheckpoints> LineMachine for Store<J, P, C> {
    ghost use Rattle.xtc.specs.StoreMachine.{store_machine};

    ghost machine = { store_machine J.is_known P.is_known C.makes P.history P.faults };

    fn line(
        &mut self,
        alloc: Global,
        number: u64,
        line: &[u8],
        out: &mut Vec<u8>,
    ) -> Result<(), script_runs::Halt> {
        let Ok(line) = read_line(alloc, line) else {
            return Err(script_runs::Halt::NoMemory);
        };
        match do_line(
            alloc,
            &mut self.core,
            &mut self.journal,
            &mut self.replies,
            number,
            line,
            out,
        ) {
            Ok(()) => {
                // It tells that the book is legal.
                self.core.is_legal();
                Ok(())
            }
            Err(Halt::DiskFault) => Err(script_runs::Halt::DiskFault),
            Err(Halt::NoMemory) => Err(script_runs::Halt::NoMemory),
        }
    }

    fn is_due(&self) -> bool {
        self.checkpoints.is_due(&self.core)
    }

    fn rest(&mut self, alloc: Global) -> Result<(), script_runs::Halt> {
        rest(
            alloc,
            &mut self.checkpoints,
            &mut self.core,
            &mut self.journal,
        )
    }
}
