//! The core: what it was opened with, and its calls.

ghost use Rattle.std.specs.Prelude.{◌≡◌, ◌≢◌, ℕ, ◌+◌, ◌≤◌, [], length, None, Some, Err, IfOk, IfErr, IfSome, OnOk, OnErr, Option, IsTrue};
ghost use Rattle.lock_resources.specs.declared.resource.Resource.{Resource};
ghost use Rattle.lock_table.specs.Tables.{held};
ghost use Rattle.wait_graph.specs.Graphs.{waits};
ghost use Rattle.outside_traits.specs.Faults.{HasCause};
ghost use Rattle.tree_model.specs.Tree.{Tree, map_of};
ghost use Rattle.node_seq.specs.Trees.{StandsFor};
ghost use Rattle.call_contract.specs.Books.{entry as entry_of, FaultsRise, HasValidCalls, IsAtMost, IsBookFrom, IsSerial, last_fault};
ghost use Rattle.call_contract.specs.Ends.{LeavesAllElse};
ghost use Rattle.call_contract.specs.Lives.{NoCellIsShared};
ghost use Rattle.call_contract.specs.Sessions.{live_in, begins_of, commits_in, queue_after};
ghost use Rattle.call_contract.specs.declared.events.Event.TheVariants as event;
ghost use Rattle.call_contract.specs.declared.events.EventAnswer.TheVariants as said;
ghost use Rattle.node_records.specs.Pending.{FollowOn};
ghost use Rattle.tx_core.specs.Commits.{IsPrepared, HasChangesOf, IsPastLimitIn, ReplaysOthers, with_commit_entry};
ghost use Rattle.tx_core.specs.Cores.{opened_over, with_entry, with_committed, drained, over, HasFewMore, InState, BeforeAndAfter, next_number, waits_in, IsLeftBy, IsGivenUpBy, IsUndrained};
ghost use Rattle.tx_core.specs.Queues.{HasQueue};
ghost use Rattle.tx_core.specs.Refusals.{begin_refused, call_refused, abort_refused, shown_refusal, shown_prepare_refusal, shown_call_refusal};
ghost use Rattle.tx_core.specs.Retries.{HasRetried, IsStillBarred};
ghost use Rattle.tx_core.specs.Truths.{LiveStand, ShowsCycle};

use crate::attempts::attempt;
use crate::commits::{Prepared, commit, merge, prepare, rebase};
use crate::copying::copy_committed;
use crate::ends::{abort, begin};
use crate::errors::{CallError, SessionError};
use crate::parts::Parts;
use crate::retries::retry;
use crate::undrained::Bodies;
use call_contract::{Answer, Noted, TreeCall};
use dewey_labels::{List, NoMemory};
use lock_table::LockTable;
use node_records::Pending;
use node_seq::{NodeRead, SeqError, SortedSeq};
use overlays::Layers;
use std::alloc::Global;
use std::collections::BTreeMap;
use std::marker::Model;
use std::snapshot::Snapshot;
use wait_graph::WaitGraph;

/// The lock machine over a base, with the book of all that came to it.
#[derive(Drop)]
pub struct Core<C: TreeCall + Drop, B: NodeRead + Drop> {
    opening: Snapshot<B>,
    number: u32,
    limit: u32,
    parts: Parts<C, B>,
    bodies: Bodies,
}

impl<C: TreeCall + Drop, B: NodeRead + Drop> Model for Core<C, B> {
    ghost use Rattle.tx_core.specs.Cores.{CoreView};
    ghost use Rattle.tx_core.specs.inside.Kept.{IsKept};
    ghost use Rattle.overlays.specs.Views.{contents_after};
    ghost use Rattle.tree_model.specs.contracts.fragment.Fragment as fragment;
    ghost use Rattle.std.specs.Coded.{codes};

    ghost Value = { CoreView C B };

    ghost coded = { Prim.hlevel (codes, fragment.the_row.coded) };

    ghost view = { λ h. record {
      opening = h.opening.value;
      number = h.number;
      limit = h.limit;
      base = h.parts.base;
      committed = contents_after h.parts.layers.changes (B.contents h.parts.base);
      book = h.parts.book.items;
      prepared = h.parts.prepared;
      undrained = record { after = h.bodies.after; waiting = h.bodies.waiting.items };
    } };

    ghost invariant = { λ h. IsKept C.is_valid C.meaning B.contents B.count h.opening.value h.number h.limit h.parts h.bodies };
}

/// Want of memory for a core, with the base that it was to be opened over.
#[derive(Debug, Drop)]
pub struct NoCore<B> {
    pub base: B,
}

/// No locks, and nobody who waits.
fn no_locks(alloc: Global) -> Result<(LockTable, WaitGraph), NoMemory>
    ensures table { IfOk result (λ locks. (o : ℕ) (r : Resource) → held locks.0 o r ≡ None) }
    ensures graph { IfOk result (λ locks. (o : ℕ) → waits locks.1 o ≡ None) }
{
    Ok((LockTable::new(alloc)?, WaitGraph::new(alloc)?))
}

impl<C: TreeCall + Drop, B: NodeRead + Drop> Core<C, B> {
    /// A core over a base, whose last commit has this number, with an empty book.
    pub fn new(alloc: Global, base: B, number: u32, limit: u32) -> Result<Core<C, B>, NoCore<B>>
        requires { number ≤ limit }
        ensures ok { IfOk result (λ core. core ≡ opened_over base (B.contents base) number limit) }
        ensures err { IfErr result (λ none. none.base ≡ base) }
    {
        let Ok(locks) = no_locks(alloc) else {
            return Err(NoCore { base });
        };
        let (table, graph) = locks;
        Ok(Core {
            opening: Snapshot::of(&base),
            number,
            limit,
            parts: Parts {
                base,
                layers: Layers::new(alloc),
                opened: number,
                limit,
                number,
                begun: 0,
                live: 0,
                places: BTreeMap::new(alloc),
                passed: Vec::new(alloc),
                table,
                graph,
                waiting: Vec::new(alloc),
                book: Vec::new(alloc),
                prepared: None,
            },
            bodies: Bodies {
                after: number,
                waiting: Vec::new(alloc),
            },
        })
    }

    /// Begins a transaction, and answers how many the session has begun.
    pub fn begin(&mut self, alloc: Global, session: u32) -> Result<u32, SessionError>
        ensures ok { IfOk result (λ ordinal. self.new ≡ with_entry self.old (entry_of session event.Begin (said.Number ordinal))) }
        ensures ordinal { IfOk result (λ ordinal. ordinal ≡ begins_of self.old.book session + 1) }
        ensures err { OnErr result (self.new ≡ self.old) }
        ensures refused { shown_refusal result ≡ begin_refused self.old session }
    {
        begin(alloc, &mut self.parts, session)
    }

    /// An attempt of a call: it is answered, waits or ends in a deadlock, or it is given up.
    /// After a refusal all is as it was. After a fault or want of memory the session sees what it saw and doesn't wait, and may hold more; a fault is always noted in the book.
    pub fn attempt(&mut self, alloc: Global, session: u32, call: C) -> Result<Answer, CallError>
        ensures ok { IfOk result (λ a. self.new ≡ over (with_entry self.old (entry_of session (event.Call call) (said.Call a))) self.new.base) }
        ensures err { IfErr result (λ e. IsLeftBy B.count self.old session call e self.new) }
        ensures refused { shown_call_refusal result ≡ call_refused self.old session }
        ensures unchanged { B.unchanged self.old.base self.new.base }
        ensures cause { HasCause CallError.DiskFault (B.count self.old.base) (B.count self.new.base) result }
        ensures deadlock { BeforeAndAfter C.meaning B.contents self.old self.new
            (λ before after. ShowsCycle C.meaning before after session (event.Call call) result) }
    {
        attempt(alloc, &mut self.parts, session, call)
    }

    /// A further attempt of the call with which a session waits. One that waits again is an entry of the book only where it holds more or waits for something else.
    /// Where the request that it waits for is still barred, it costs a look at who holds what at that resource: then nothing is read of the base and nothing is changed.
    /// Else the call is attempted in full.
    pub fn retry(&mut self, alloc: Global, session: u32) -> Result<Answer, CallError>
        requires { IsTrue (waits_in (live_in self.old.book session)) }
        ensures ok { IfOk result (λ a. HasRetried C.meaning B.contents self.old session a self.new) }
        ensures err { IfErr result (λ e. IsGivenUpBy B.count self.old session e self.new) }
        ensures refused { shown_call_refusal result ≡ None }
        ensures unchanged { B.unchanged self.old.base self.new.base }
        ensures cause { HasCause CallError.DiskFault (B.count self.old.base) (B.count self.new.base) result }
        ensures deadlock { BeforeAndAfter C.meaning B.contents self.old self.new
            (λ before after. ShowsCycle C.meaning before after session event.Retry result) }
        ensures barred { InState C.meaning B.contents self.old
            (λ st. IsStillBarred st session → OnOk result (self.new ≡ self.old)) }
    {
        retry(alloc, &mut self.parts, session)
    }

    /// Takes all memory of a session's commit, and answers what is to be made durable before it. It writes each change once, and copies none.
    pub fn prepare(&mut self, alloc: Global, session: u32) -> Result<Prepared, SessionError>
        ensures ok { IfOk result (λ _. self.new ≡ record self.old { prepared = Some session }) }
        ensures commit { IfOk result (λ prepared. IsPrepared self.old prepared) }
        ensures changes { IfOk result (λ prepared. InState C.meaning B.contents self.old
            (λ st. HasChangesOf C.meaning st session prepared)) }
        ensures err { OnErr result (self.new ≡ self.old) }
        ensures refused { shown_prepare_refusal result ≡ call_refused self.old session }
        ensures limit { result ≡ Err SessionError.CommitLimit
            → InState C.meaning B.contents self.old (λ st. IsPastLimitIn C.meaning st session) }
    {
        prepare(alloc, &mut self.parts, &mut self.bodies, session)
    }

    /// Makes the commit that was prepared for a session, and answers its number. It costs what the transaction has changed, and takes no memory.
    /// Its body waits to be handed out.
    /// For every other live transaction it is as if its calls had been made on the new tree.
    pub fn commit(&mut self, session: u32, prepared: Prepared) -> u32
        requires prepared { self.old.prepared ≡ Some session }
        requires commit { IsPrepared self.old prepared }
        ensures number { result ≡ next_number self.old }
        ensures committed { self.new ≡ with_committed
            (with_commit_entry self.old session result prepared) self.new.committed }
        ensures apart { InState C.meaning B.contents self.old NoCellIsShared }
        ensures others { InState C.meaning B.contents self.old
            (λ st. ReplaysOthers C.meaning st session) }
    {
        let Prepared { number, body } = prepared;
        self.bodies.keep(Pending { number, body });
        commit(&mut self.parts, session, number);
        number
    }

    /// Hands out what the commits since the last such call have left to be made durable, in their order. It is no entry of the book, and takes no memory.
    /// A commit that was prepared before has to be prepared again.
    pub fn drain(&mut self, alloc: Global) -> List<Pending>
        ensures waiting { result ≡ self.old.undrained.waiting }
        ensures follow { FollowOn self.old.undrained.after result }
        ensures last { self.old.undrained.after + length result ≡ self.old.number + commits_in self.old.book }
        ensures none_waits { self.new ≡ drained self.old }
    {
        let last = self.parts.number;
        self.parts.prepared = None;
        self.bodies.hand_out(alloc, last)
    }

    /// Ends a session's transaction, a waiting call with it. It takes no memory.
    pub fn abort(&mut self, session: u32) -> Result<(), SessionError>
        ensures ok { IfOk result (λ _. self.new ≡ with_entry self.old (entry_of session event.Abort said.Nothing)) }
        ensures others { IfOk result (λ _. BeforeAndAfter C.meaning B.contents self.old self.new
            (λ before after. LeavesAllElse before after session)) }
        ensures err { OnErr result (self.new ≡ self.old) }
        ensures refused { shown_refusal result ≡ abort_refused self.old session }
        ensures memory { result ≢ Err SessionError.NoMemory }
    {
        abort(&mut self.parts, session)
    }

    /// Goes on over another base that stands for the committed tree, and answers the old one.
    pub fn rebase(&mut self, alloc: Global, base: B) -> B
        requires committed { InState C.meaning B.contents self.old
            (λ st. B.contents base ≡ Some (map_of st.tree)) }
        requires later { B.count self.old.base ≤ B.count base }
        ensures old { result ≡ self.old.base }
        ensures same { self.new ≡ with_committed (over self.old base) self.new.committed }
    {
        rebase(alloc, &mut self.parts, base)
    }

    /// A copy of the committed map in memory. It reads the base once an entry, and a few times more where it passes deletions; it is no entry of the book.
    pub fn copy_committed(&mut self, alloc: Global) -> Result<SortedSeq, SeqError>
        ensures map { IfOk result (λ map.
            InState C.meaning B.contents self.old (λ st. map ≡ map_of st.tree)) }
        ensures same { self.new ≡ over self.old self.new.base }
        ensures unchanged { B.unchanged self.old.base self.new.base }
        ensures cause { HasCause SeqError.DiskFault (B.count self.old.base) (B.count self.new.base) result }
    {
        copy_committed(alloc, &mut self.parts)
    }

    /// The base; all else is let go. It takes no memory.
    pub fn into_base(self) -> B
        ensures { result ≡ self.base }
    {
        let parts = self.parts;
        parts.base
    }

    /// The number of the last commit; the opening's where none was made since.
    pub fn number(&self) -> u32
        ensures { result ≡ self.now.number + commits_in self.now.book }
    {
        self.parts.number
    }

    /// The base's count of faults.
    pub fn faults(&self) -> u64
        ensures { result ≡ B.count self.now.base }
    {
        self.parts.base.faults()
    }

    /// The number of the last commit that was handed out; the opening's where none was.
    pub fn drained(&self) -> u32
        ensures { result ≡ self.now.undrained.after }
    {
        self.bodies.after
    }

    /// All that came to the core, in its order, with the answers. It is serial from the tree of the opening's map.
    pub fn book(&self) -> &[Noted<C>]
        ensures book { result.now ≡ self.now.book }
        ensures serial { (t : Tree) → StandsFor (B.contents self.now.opening) t → IsSerial C.meaning t self.now.number self.now.limit self.now.book }
    {
        self.parts.book.as_slice()
    }

    /// The sessions whose transactions wait, in the order in which they began to.
    pub fn waiting(&self) -> &[u32]
        ensures { result.now ≡ queue_after [] self.now.book }
    {
        self.parts.waiting.as_slice()
    }

    /// The book's calls are valid, its counts of faults rise from the base's at the opening, none is above the base's now, and who waits stands in its queue.
    /// It is legal from the tree of the opening's map. In the state that it comes to from there, what base and commits make is the committed tree,
    /// the live transactions were answered what they would be answered on it, and nobody waits for himself.
    /// The commits that weren't handed out are its last ones.
    pub fn is_legal(&self)
        ensures valid { HasValidCalls C.is_valid self.now.book }
        ensures faults { FaultsRise (Some (B.count self.now.opening)) self.now.book }
        ensures counted { IsAtMost (last_fault (Some (B.count self.now.opening)) self.now.book) (B.count self.now.base) }
        ensures queue { HasQueue self.now.book }
        ensures undrained { IsUndrained self.now }
        ensures book { (t : Tree) → StandsFor (B.contents self.now.opening) t → IsBookFrom C.is_valid C.meaning t self.now.number self.now.limit self.now.book }
        ensures committed { InState C.meaning B.contents self.now
            (λ st. self.now.committed ≡ Some (map_of st.tree)) }
        ensures live { InState C.meaning B.contents self.now (LiveStand C.meaning) }
    {
        // The invariant is read off the parts.
        let _parts = &self.parts;
    }
}

impl<C: TreeCall + Drop> Core<C, SortedSeq> {
    /// Merges what was committed into the base, where it has so many deletions that this is due: then a read passes over few of them.
    /// Called after each commit it costs a constant number of moves for each deleted entry, amortised.
    pub fn merge(&mut self, alloc: Global) -> Result<(), NoMemory>
        ensures merged { OnOk result (HasFewMore self.new.base self.new.committed) }
        ensures same { self.new ≡ over self.old self.new.base }
        ensures err { OnErr result (self.new ≡ self.old) }
    {
        merge(alloc, &mut self.parts)
    }
}
