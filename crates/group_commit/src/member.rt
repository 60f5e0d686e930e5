//! A member of a group commit: a session of the store, with a pass of the journal's turn.
ghost use Rattle.std.specs.Prelude.{◌≡◌, ◌≢◌, ◌<◌, ℕ, None, true};
ghost use Rattle.call_contract.specs.Sessions.{live_in};
ghost use Rattle.shared_store.specs.Calls.{HasAborted, HasBegun, HasTried, HasTriedAgain};
ghost use Rattle.shared_store.specs.Lists.{book_of, is_opened};
ghost use Rattle.turn_lock.specs.Turns.{has_number};
ghost use Rattle.shared_store.specs.Waits.{HasCalled};
ghost use Rattle.group_commit.specs.Marks.{durable_in};
ghost use Rattle.group_commit.specs.Members.{HasActed};

use crate::scribe::Scribe;
use call_contract::{Answer, TreeCall};
use node_seq::NodeRead;
use outside_traits::Disk;
use shared_store::{Ended, Session, Store, StoreError};
use std::alloc::Global;
use std::marker::Model;
use std::sync::Wait;
use turn_lock::Pass;

/// A session whose commits are made durable. It has seen a part of the store's list, and a part of the list behind the journal's turn.
#[derive(Drop)]
pub struct Member<C: TreeCall + Drop, B: NodeRead + Drop, J: Disk> {
    pub(crate) session: Session<C, B>,
    pub(crate) pass: Pass<Scribe<C, B, J>>,
    /// The greatest durable number that the pass has seen.
    pub(crate) durable: u32,
}

impl<C: TreeCall + Drop, B: NodeRead + Drop, J: Disk> Model for Member<C, B, J> {
    ghost use Rattle.std.specs.Coded.{codes};
    ghost use Rattle.atomic_table.specs.Seated.{table_id_coded};
    ghost use Rattle.tree_model.specs.contracts.fragment.Fragment as fragment;
    ghost use Rattle.group_commit.specs.Members.{MemberView};
    ghost use Rattle.group_commit.specs.inside.Scribes.{IsMember};

    ghost Value = { MemberView C B };

    ghost coded = { Prim.hlevel (codes, table_id_coded, fragment.the_row.coded) };

    ghost view = { λ m. record { session = m.session; pass = m.pass } };

    ghost invariant = { λ m. IsMember (record { session = m.session; pass = m.pass }) m.durable };
}

// Each call is that of the session with the same name. The pass stays as it is.
impl<C: TreeCall + Drop, B: NodeRead + Drop, J: Disk> Member<C, B, J> {
    /// Begins a transaction, and answers how many the session's number has begun.
    pub fn begin<R: Wait>(
        &mut self,
        rt: &R,
        alloc: Global,
        store: &Store<C, B>,
    ) -> Result<u32, StoreError>
        requires store { self.old.session.lock ≡ store.now }
        requires number { self.old.session.under ≢ 0 }
        ensures done { HasActed self.old self.new
            (λ before under after. HasBegun before under result after) }
        ensures pass { self.new.pass ≡ self.old.pass }
    {
        self.session.begin(rt, alloc, store)
    }

    /// Makes one attempt of a call.
    pub fn try_call<R: Wait>(
        &mut self,
        rt: &R,
        alloc: Global,
        store: &Store<C, B>,
        call: C,
    ) -> Result<Answer, StoreError>
        requires { self.old.session.lock ≡ store.now }
        ensures done { HasActed self.old self.new
            (λ before under after. HasTried B.count before under call result after) }
        ensures pass { self.new.pass ≡ self.old.pass }
    {
        self.session.try_call(rt, alloc, store, call)
    }

    /// Makes one further attempt of the call with which the transaction waits; None where it doesn't wait, or there is none.
    pub fn try_again<R: Wait>(
        &mut self,
        rt: &R,
        alloc: Global,
        store: &Store<C, B>,
    ) -> Result<Option<Answer>, StoreError>
        requires { self.old.session.lock ≡ store.now }
        ensures done { HasActed self.old self.new
            (λ before under after. HasTriedAgain B.count B.contents C.meaning
            before under result after) }
        ensures pass { self.new.pass ≡ self.old.pass }
    {
        self.session.try_again(rt, alloc, store)
    }

    /// Makes a call, and tries it again until it needn't wait.
    pub fn call<R: Wait>(
        &mut self,
        rt: &R,
        alloc: Global,
        store: &Store<C, B>,
        call: C,
    ) -> Result<Ended, StoreError>
        requires { self.old.session.lock ≡ store.now }
        ensures done { HasActed self.old self.new
            (λ before under after. HasCalled B.count B.contents C.meaning
            self.old.session.has before under call result after) }
        ensures pass { self.new.pass ≡ self.old.pass }
    {
        self.session.call(rt, alloc, store, call)
    }

    /// Ends the transaction, a waiting call with it. The session then has none, whatever the answer. It takes no memory.
    pub fn abort<R: Wait>(&mut self, rt: &R, store: &Store<C, B>) -> Result<(), StoreError>
        requires { self.old.session.lock ≡ store.now }
        ensures done { HasActed self.old self.new
            (λ before under after. HasAborted before under result after) }
        ensures ended { live_in (book_of self.new.session.seen) self.new.session.under ≡ None }
        ensures pass { self.new.pass ≡ self.old.pass }
    {
        self.session.abort(rt, store)
    }

    /// Whether the session has a number.
    pub fn has(&self, number: u32) -> bool
        ensures { result ≡ has_number self.now.session.has number }
    {
        self.session.has(number)
    }

    /// The number that the session works under, which it has. What it has seen begins with the opening; the pass has each number that the session has.
    pub fn number(&self) -> u32
        ensures number { result ≡ self.now.session.under }
        ensures own { has_number self.now.session.has self.now.session.under ≡ true }
        ensures small { self.now.session.under < 65 }
        ensures opened { is_opened self.now.session.seen ≡ true }
        ensures pass { (n : ℕ) → n < 65 → has_number self.now.session.has n ≡ true → has_number self.now.pass.has n ≡ true }
    {
        self.session.number()
    }

    /// The greatest number of a durable commit that it has seen, 0 where it has seen none.
    pub fn durable(&self) -> u32
        ensures { result ≡ durable_in self.now.pass.seen }
    {
        self.durable
    }
}
