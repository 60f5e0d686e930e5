//! The store and its sessions.

ghost use Rattle.std.specs.Prelude.{◌≡◌, ◌≢◌, ◌<◌, [], true, None, IfOk, IfErr, OnOk};
ghost use Rattle.call_contract.specs.Sessions.{live_in};
ghost use Rattle.tx_core.specs.Cores.{waits_in};
ghost use Rattle.turn_lock.specs.Turns.{all_numbers, GoesOn, HasAll, has_number, longer, only_number};
ghost use Rattle.tree_model.specs.Tree.{Tree};
ghost use Rattle.shared_store.specs.Bodies.{HasBodies, HaveLastBodies};
ghost use Rattle.shared_store.specs.Calls.{HasAborted, HasBegun, HasCommitted, HasDrained, HasTried, HasTriedAgain};
ghost use Rattle.shared_store.specs.Waits.{HasCalled, HasCalledAgain};
ghost use Rattle.shared_store.specs.Lists.{book_of, drained_in, HasLegalBook, HasSerialBook, is_opened, list_of, number_of, OpensFrom, SessionsFit};
ghost use Rattle.shared_store.specs.Sessions.{HasDone, having_seen, IsOpenedAs, joined_session, session_without};

use crate::desk::Desk;
use crate::ended::{Ended, first_end, later_end};
use crate::errors::StoreError;
use call_contract::{Answer, TreeCall};
use dewey_labels::List;
use node_records::Pending;
use node_seq::NodeRead;
use std::alloc::Global;
use std::marker::Model;
use std::sync::Wait;
use turn_lock::{NoTurn, Pass, TurnLock};
use tx_core::Core;

/// There was no memory for a store. The core comes back.
#[derive(Drop)]
pub struct NoStore<C: TreeCall + Drop, B: NodeRead + Drop> {
    pub core: Core<C, B>,
}

/// A core behind a turn, which the threads of its sessions share. Contracts see which store it is.
#[derive(Drop)]
pub struct Store<C: TreeCall + Drop, B: NodeRead + Drop> {
    lock: TurnLock<Desk<C, B>>,
}

impl<C: TreeCall + Drop, B: NodeRead + Drop> Model for Store<C, B> {
    ghost use Rattle.atomic_table.specs.Seated.{TableId, table_id_coded};

    ghost Value = { TableId };

    ghost coded = { table_id_coded };

    ghost view = { λ s. s.lock };
}

/// A session of a store. It works under one number, and may have others that it can give. It has seen a part of the store's list.
#[derive(Drop)]
pub struct Session<C: TreeCall + Drop, B: NodeRead + Drop> {
    pass: Pass<Desk<C, B>>,
    number: u32,
}

impl<C: TreeCall + Drop, B: NodeRead + Drop> Model for Session<C, B> {
    ghost use Rattle.std.specs.Coded.{codes};
    ghost use Rattle.atomic_table.specs.Seated.{table_id_coded};
    ghost use Rattle.tree_model.specs.contracts.fragment.Fragment as fragment;
    ghost use Rattle.shared_store.specs.Sessions.{SessionView};
    ghost use Rattle.shared_store.specs.inside.Desks.{IsSession};

    ghost Value = { SessionView C B };

    ghost coded = { Prim.hlevel (codes, table_id_coded, fragment.the_row.coded) };

    ghost view = { λ s. record { lock = s.pass.lock; seen = s.pass.seen; has = s.pass.has; under = s.number } };

    ghost invariant = { λ s. IsSession C.is_valid C.meaning B.contents s.pass s.number };
}

impl<C: TreeCall + Drop, B: NodeRead + Drop> Session<C, B> {
    /// Whether the session has a number.
    pub fn has(&self, number: u32) -> bool
        ensures { result ≡ has_number self.now.has number }
    {
        self.pass.has(number)
    }

    /// The number that it works under, which it has. What it has seen begins with the opening.
    pub fn number(&self) -> u32
        ensures number { result ≡ self.now.under }
        ensures own { has_number self.now.has self.now.under ≡ true }
        ensures small { self.now.under < 65 }
        ensures opened { is_opened self.now.seen ≡ true }
    {
        self.number
    }

    /// What it has seen is a legal book of valid calls from the tree of the opening's map, and so a serial one, while other sessions go on.
    pub fn is_legal(&self)
        ensures book { HasLegalBook C.is_valid C.meaning B.contents self.now.seen }
        ensures serial { HasSerialBook C.meaning B.contents self.now.seen }
    {
        // The invariant is read off the pass.
        let _pass = &self.pass;
    }

    /// Begins a transaction, and answers how many the session's number has begun.
    pub fn begin<R: Wait>(
        &mut self,
        rt: &R,
        alloc: Global,
        store: &Store<C, B>,
    ) -> Result<u32, StoreError>
        requires store { self.old.lock ≡ store.now }
        requires number { self.old.under ≢ 0 }
        ensures { HasDone self.old self.new (λ before after. HasBegun before self.old.under result after) }
    {
        let mut turn = store.lock.take(rt, &mut self.pass);
        let result = turn.value.begin(alloc, self.number);
        turn.value.is_legal();
        store.lock.give(&mut self.pass, turn);
        result
    }

    /// Makes one attempt of a call.
    pub fn try_call<R: Wait>(
        &mut self,
        rt: &R,
        alloc: Global,
        store: &Store<C, B>,
        call: C,
    ) -> Result<Answer, StoreError>
        requires { self.old.lock ≡ store.now }
        ensures { HasDone self.old self.new (λ before after. HasTried B.count before self.old.under call result after) }
    {
        let mut turn = store.lock.take(rt, &mut self.pass);
        let result = turn.value.try_call(alloc, self.number, call);
        turn.value.is_legal();
        store.lock.give(&mut self.pass, turn);
        result
    }

    /// Makes one further attempt of the call with which the transaction waits; None where it doesn't wait, or there is none.
    pub fn try_again<R: Wait>(
        &mut self,
        rt: &R,
        alloc: Global,
        store: &Store<C, B>,
    ) -> Result<Option<Answer>, StoreError>
        requires { self.old.lock ≡ store.now }
        ensures { HasDone self.old self.new (λ before after. HasTriedAgain B.count B.contents C.meaning before self.old.under result after) }
    {
        let mut turn = store.lock.take(rt, &mut self.pass);
        let result = turn.value.try_again(alloc, self.number);
        turn.value.is_legal();
        store.lock.give(&mut self.pass, turn);
        result
    }

    /// Makes a call, and tries it again until it needn't wait: each time once the list has grown since this session saw it.
    /// It waits without the turn, as long as others take to end their transactions. It answers a deadlock, which ends the transaction, and it doesn't begin it anew.
    pub fn call<R: Wait>(
        &mut self,
        rt: &R,
        alloc: Global,
        store: &Store<C, B>,
        call: C,
    ) -> Result<Ended, StoreError>
        requires { self.old.lock ≡ store.now }
        ensures { HasDone self.old self.new (λ before after. HasCalled B.count B.contents C.meaning self.old.has before self.old.under call result after) }
    {
        match first_end(self.try_call(rt, alloc, store, call)) {
            Some(result) => result,
            None => self.try_until_ended(rt, alloc, store),
        }
    }

    // Tries the call that waits again, each time after the list has grown, until it needn't wait.
    fn try_until_ended<R: Wait>(
        &mut self,
        rt: &R,
        alloc: Global,
        store: &Store<C, B>,
    ) -> Result<Ended, StoreError>
        requires store { self.old.lock ≡ store.now }
        requires waits { waits_in (live_in (book_of self.old.seen) self.old.under) ≡ true }
        ensures same { self.new ≡ having_seen self.new.seen self.old }
        ensures ended { HasCalledAgain B.count B.contents C.meaning self.old.has self.old.seen self.old.under result self.new.seen }
    {
        for _ in rt.forever() {
            self.await_growth(rt, store);
            if let Some(result) = later_end(self.try_again(rt, alloc, store)) {
                return result;
            }
        }
        unreachable!()
    }

    // Sleeps until the list is longer than what the session has seen.
    fn await_growth<R: Wait>(&mut self, rt: &R, store: &Store<C, B>)
        requires { self.old.lock ≡ store.now }
        ensures same { self.new ≡ self.old }
        ensures own { has_number self.new.has self.new.under ≡ true }
    {
        store.lock.await_growth(rt, &mut self.pass);
    }

    /// Commits, and answers the commit's number.
    pub fn commit<R: Wait>(
        &mut self,
        rt: &R,
        alloc: Global,
        store: &Store<C, B>,
    ) -> Result<u32, StoreError>
        requires { self.old.lock ≡ store.now }
        ensures done { HasDone self.old self.new (λ before after. HasCommitted B.contents C.meaning before self.old.under result after) }
        ensures ended { OnOk result (live_in (book_of self.new.seen) self.new.under ≡ None) }
    {
        let mut turn = store.lock.take(rt, &mut self.pass);
        let result = turn.value.commit(alloc, self.number);
        turn.value.is_legal();
        store.lock.give(&mut self.pass, turn);
        result
    }

    /// Ends the transaction, a waiting call with it. The session then has none, whatever the answer. It takes no memory.
    pub fn abort<R: Wait>(&mut self, rt: &R, store: &Store<C, B>) -> Result<(), StoreError>
        requires { self.old.lock ≡ store.now }
        ensures done { HasDone self.old self.new (λ before after. HasAborted before self.old.under result after) }
        ensures ended { live_in (book_of self.new.seen) self.new.under ≡ None }
    {
        let mut turn = store.lock.take(rt, &mut self.pass);
        let result = turn.value.abort(self.number);
        turn.value.is_legal();
        store.lock.give(&mut self.pass, turn);
        result
    }

    /// Hands out what the commits since the last such call have left to be made durable, in their order. It takes no memory.
    pub fn drain<R: Wait>(&mut self, rt: &R, store: &Store<C, B>) -> List<Pending>
        requires store { self.old.lock ≡ store.now }
        requires number { has_number self.old.has 0 ≡ true }
        ensures done { HasDone self.old self.new (λ before after. HasDrained before result after) }
        ensures bodies { (t : Tree) → OpensFrom B.contents self.new.seen t → HaveLastBodies C.meaning t (book_of self.new.seen) result }
    {
        let mut turn = store.lock.take(rt, &mut self.pass);
        let result = turn.value.drain();
        turn.value.is_legal();
        store.lock.give(&mut self.pass, turn);
        result
    }

    /// A new session that works under a number which this one gives it. It has seen the same.
    pub fn split(&mut self, store: &Store<C, B>, number: u32) -> Session<C, B>
        requires store { self.old.lock ≡ store.now }
        requires number { (has_number self.old.has number ≡ true) × (self.old.under ≢ number) }
        ensures kept { self.new ≡ session_without number self.old }
        ensures given { result ≡ record { lock = self.old.lock; seen = self.old.seen; has = only_number number; under = number } }
    {
        let pass = store.lock.split(&mut self.pass, number);
        Session { pass, number }
    }

    /// This session has then seen what either has, and the other is as it was.
    pub fn meet(&mut self, store: &Store<C, B>, other: &mut Session<C, B>)
        requires { (self.old.lock ≡ store.now) × (other.old.lock ≡ store.now) }
        ensures seen { self.new ≡ having_seen (longer self.old.seen other.old.seen) self.old }
        ensures goes_on { GoesOn number_of self.old.has self.old.seen self.new.seen }
        ensures other_goes_on { GoesOn number_of other.old.has other.old.seen self.new.seen }
        ensures other { other.new ≡ other.old }
    {
        store.lock.meet(&mut self.pass, &mut other.pass);
    }
}

impl<C: TreeCall + Drop, B: NodeRead + Drop> Store<C, B> {
    /// Puts a core behind a turn. The session works under the number, has all numbers from 0 to 64, and has seen the whole list.
    /// Where commits of the core wait to be handed out they have the bodies of its book's last ones: so it is of a core that is new, that was drained, or that `close` answered.
    pub fn new(
        alloc: Global,
        core: Core<C, B>,
        number: u32,
    ) -> Result<(Store<C, B>, Session<C, B>), NoStore<C, B>>
        requires number { (0 < number) × (number < 65) }
        requires sessions { SessionsFit core.book }
        requires bodies { HasBodies C.meaning B.contents core }
        ensures ok { IfOk result (λ r. r.1 ≡ record { lock = r.0; seen = list_of core core.book []; has = all_numbers; under = number }) }
        ensures err { IfErr result (λ none. none.core ≡ core) }
    {
        let desk = match Desk::new(alloc, core) {
            Ok(desk) => desk,
            Err(core) => return Err(NoStore { core }),
        };
        desk.is_legal();
        match TurnLock::new(alloc, desk) {
            Ok((lock, pass)) => Ok((Store { lock }, Session { pass, number })),
            Err(NoTurn { value }) => Err(NoStore {
                core: value.into_core(),
            }),
        }
    }

    /// The kept session has seen what either has, and has the numbers of both.
    pub fn join(&self, session: &mut Session<C, B>, other: Session<C, B>)
        requires store { (session.old.lock ≡ self.now) × (other.lock ≡ self.now) }
        requires ended { live_in (book_of other.seen) other.under ≡ None }
        ensures kept { session.new ≡ joined_session session.old other }
        ensures goes_on { GoesOn number_of session.old.has session.old.seen session.new.seen }
        ensures other_goes_on { GoesOn number_of other.has other.seen session.new.seen }
    {
        let Session { pass, number: _ } = other;
        self.lock.join(&mut session.pass, pass);
    }

    /// The core, for a session that has every number: its book is what the session has seen of it.
    pub fn close(self, session: Session<C, B>) -> Core<C, B>
        requires store { session.lock ≡ self }
        requires all { HasAll session.has }
        ensures book { result.book ≡ book_of session.seen }
        ensures opened { IsOpenedAs B.unchanged session.seen result }
        ensures sessions { SessionsFit result.book }
        ensures bodies { HasBodies C.meaning B.contents result }
        ensures drained { result.undrained.after ≡ drained_in session.seen }
    {
        let Store { lock } = self;
        let Session { pass, number: _ } = session;
        lock.close(pass).into_core()
    }
}
