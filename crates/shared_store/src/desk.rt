//! The value behind the turn: the core, and where in its book commits were handed out.

ghost use Rattle.std.specs.Prelude.{◌≡◌, ◌<◌, ◌≤◌, ◌∷◌, ◌++◌, [], length, nat_lt, vec_capacity, true, IfOk, IfErr};
ghost use Rattle.tx_core.specs.Queues.{times};
ghost use Rattle.shared_store.specs.Calls.{HasAborted, HasBegun, HasCommitted, HasDrained, HasTried, HasTriedAgain};
ghost use Rattle.tree_model.specs.Tree.{Tree};
ghost use Rattle.shared_store.specs.Bodies.{HasBodies, HaveLastBodies};
ghost use Rattle.shared_store.specs.Lists.{book_of, drained_in, HasLegalBook, OpensFrom, SessionsFit};
ghost use Rattle.shared_store.specs.inside.Desks.{AddsUnder, as_again, as_called, as_ended, list_in};

use crate::errors::StoreError;
use call_contract::{Answer, Noted, TreeCall};
use dewey_labels::List;
use node_records::Pending;
use node_seq::NodeRead;
use std::alloc::Global;
use std::marker::Model;
use std::snapshot::Snapshot;
use turn_lock::Grows;
use tx_core::{CallError, Core, SessionError};

/// An entry of the list behind the turn. No value of it is made.
pub enum Entry<C, B> {
    /// What the core was opened over, the number of the commit before and the limit;
    /// its base when the store was made, and the number of the last commit that was handed out by then.
    Opening {
        opening: B,
        number: u32,
        limit: u32,
        base: B,
        drained: u32,
    },
    /// An entry of the book.
    Noted(Noted<C>),
    /// Commits were handed out, up to the one of this number.
    Drained(u32),
}

/// Commits were handed out where the book had so many entries, up to the one of this number.
#[derive(Debug, Drop)]
pub struct Drain {
    pub at: usize,
    pub number: u32,
}

/// A core behind the turn.
#[derive(Drop)]
pub struct Desk<C: TreeCall + Drop, B: NodeRead + Drop> {
    core: Core<C, B>,
    /// The core when the store was made.
    first: Snapshot<Core<C, B>>,
    /// With room for one more where commits wait to be handed out.
    drains: Vec<Drain>,
}

impl<C: TreeCall + Drop, B: NodeRead + Drop> Model for Desk<C, B> {
    ghost use Rattle.std.specs.Coded.{codes};
    ghost use Rattle.tree_model.specs.contracts.fragment.Fragment as fragment;
    ghost use Rattle.shared_store.specs.Bodies.{HasBodies};
    ghost use Rattle.shared_store.specs.inside.Desks.{DeskView, IsDesk};

    ghost Value = { DeskView C B };

    ghost coded = { Prim.hlevel (codes, fragment.the_row.coded) };

    ghost view = { λ d. record { core = d.core; first = d.first.value; drains = d.drains.items } };

    ghost invariant = { λ d. IsDesk B.unchanged d.core d.first.value d.drains × HasBodies C.meaning B.contents d.core };
}

impl<C: TreeCall + Drop, B: NodeRead + Drop> Grows for Desk<C, B> {
    ghost use Rattle.shared_store.specs.Lists.{number_of};
    ghost use Rattle.shared_store.specs.inside.Desks.{list_in};

    type Entry = Entry<C, B>;

    ghost entries = { list_in };

    ghost number = { number_of };

    fn count(&self) -> u64 {
        (self.core.book().len() + self.drains.as_slice().len() + 1) as u64
    }
}

/// The answer of an attempt.
fn called(answer: Result<Answer, CallError>) -> Result<Answer, StoreError>
    ensures { result ≡ as_called answer }
{
    match answer {
        Ok(answer) => Ok(answer),
        Err(CallError::Session(why)) => Err(StoreError::Session(why)),
        Err(CallError::DiskFault) => Err(StoreError::DiskFault),
        Err(CallError::NoMemory) => Err(StoreError::NoMemory),
    }
}

/// The answer of a retry.
fn again(answer: Result<Answer, CallError>) -> Result<Option<Answer>, StoreError>
    ensures { result ≡ as_again answer }
{
    match answer {
        Ok(answer) => Ok(Some(answer)),
        Err(CallError::Session(why)) => Err(StoreError::Session(why)),
        Err(CallError::DiskFault) => Err(StoreError::DiskFault),
        Err(CallError::NoMemory) => Err(StoreError::NoMemory),
    }
}

/// The answer of a call that begins or ends a transaction.
fn ended<T>(answer: Result<T, SessionError>) -> Result<T, StoreError>
    ensures { result ≡ as_ended answer }
{
    match answer {
        Ok(answer) => Ok(answer),
        Err(SessionError::NoMemory) => Err(StoreError::NoMemory),
        Err(why) => Err(StoreError::Session(why)),
    }
}

/// Makes room for one more drain.
fn make_room(drains: &mut Vec<Drain>) -> bool
    ensures room { result ≡ true → length drains.new.items < vec_capacity drains.new }
    ensures same { drains.new.items ≡ drains.old.items }
    ensures kept { vec_capacity drains.old ≤ vec_capacity drains.new }
{
    drains.reserve(1).is_ok()
}

impl<C: TreeCall + Drop, B: NodeRead + Drop> Desk<C, B> {
    /// A desk over a core. For want of memory the core comes back.
    pub fn new(alloc: Global, core: Core<C, B>) -> Result<Desk<C, B>, Core<C, B>>
        requires sessions { SessionsFit core.book }
        requires bodies { HasBodies C.meaning B.contents core }
        ensures ok { IfOk result (λ desk. desk ≡ record { core = core; first = core; drains = [] }) }
        ensures err { IfErr result (λ same. same ≡ core) }
    {
        let mut drains = Vec::new(alloc);
        if !make_room(&mut drains) {
            return Err(core);
        }
        Ok(Desk {
            first: Snapshot::of(&core),
            core,
            drains,
        })
    }

    /// The core.
    pub fn into_core(self) -> Core<C, B>
        ensures core { result ≡ self.core }
        ensures base { B.unchanged self.first.base self.core.base }
        ensures opening { (self.core.opening ≡ self.first.opening) × (self.core.number ≡ self.first.number) × (self.core.limit ≡ self.first.limit) }
        ensures fit { SessionsFit self.core.book }
        ensures list { book_of (list_in self) ≡ self.core.book }
        ensures bodies { HasBodies C.meaning B.contents self.core }
        ensures drained { self.core.undrained.after ≡ drained_in (list_in self) }
    {
        let Desk { core, .. } = self;
        core
    }

    /// The list tells a legal book.
    pub fn is_legal(&self)
        ensures { HasLegalBook C.is_valid C.meaning B.contents (list_in self.now) }
    {
        self.core.is_legal();
    }

    pub fn begin(&mut self, alloc: Global, session: u32) -> Result<u32, StoreError>
        requires { session < 65 }
        ensures told { HasBegun (list_in self.old) session result (list_in self.new) }
        ensures under { AddsUnder session (list_in self.old) (list_in self.new) }
    {
        ended(self.core.begin(alloc, session))
    }

    pub fn try_call(&mut self, alloc: Global, session: u32, call: C) -> Result<Answer, StoreError>
        requires { session < 65 }
        ensures told { HasTried B.count (list_in self.old) session call result (list_in self.new) }
        ensures under { AddsUnder session (list_in self.old) (list_in self.new) }
    {
        let answer = self.core.attempt(alloc, session, call);
        self.core.is_legal();
        called(answer)
    }

    pub fn abort(&mut self, session: u32) -> Result<(), StoreError>
        requires { session < 65 }
        ensures told { HasAborted (list_in self.old) session result (list_in self.new) }
        ensures under { AddsUnder session (list_in self.old) (list_in self.new) }
    {
        ended(self.core.abort(session))
    }

    /// Commits. The room for the drain that hands the commit out is made before it is visible.
    pub fn commit(&mut self, alloc: Global, session: u32) -> Result<u32, StoreError>
        requires { session < 65 }
        ensures told { HasCommitted B.contents C.meaning (list_in self.old) session result (list_in self.new) }
        ensures under { AddsUnder session (list_in self.old) (list_in self.new) }
    {
        // Called for its contract: the book is legal, so its transactions are those of the machine.
        self.core.is_legal();
        match self.core.prepare(alloc, session) {
            Err(why) => ended(Err(why)),
            Ok(prepared) => {
                if make_room(&mut self.drains) {
                    Ok(self.core.commit(session, prepared))
                } else {
                    Err(StoreError::NoMemory)
                }
            }
        }
    }

    /// Hands out the commits that weren't handed out yet.
    pub fn drain(&mut self) -> List<Pending>
        ensures told { HasDrained (list_in self.old) result (list_in self.new) }
        ensures bodies { (t : Tree) → OpensFrom B.contents (list_in self.new) t → HaveLastBodies C.meaning t (book_of (list_in self.new)) result }
        ensures under { AddsUnder 0 (list_in self.old) (list_in self.new) }
    {
        let at = self.core.book().len();
        let bodies = self.core.drain(*self.drains.allocator());
        if !bodies.is_empty() {
            let number = self.core.drained();
            self.drains.push_reserved(Drain { at, number });
        }
        bodies
    }

    /// Tries a call that waits again; None where the session's transaction doesn't wait, or there is none.
    pub fn try_again(&mut self, alloc: Global, session: u32) -> Result<Option<Answer>, StoreError>
        requires { session < 65 }
        ensures told { HasTriedAgain B.count B.contents C.meaning (list_in self.old) session result (list_in self.new) }
        ensures under { AddsUnder session (list_in self.old) (list_in self.new) }
    {
        self.core.is_legal();
        if !is_among(self.core.waiting(), session) {
            return Ok(None);
        }
        let answer = self.core.retry(alloc, session);
        self.core.is_legal();
        again(answer)
    }
}

/// Whether a session is among those that wait.
fn is_among(waiting: &[u32], session: u32) -> bool
    ensures { result ≡ nat_lt 0 (times session waiting.now) }
{
    let mut rest = waiting;
    while let Some((other, behind)) = rest.split_first() {
        if *other == session {
            return true;
        }
        rest = behind;
    }
    false
}
