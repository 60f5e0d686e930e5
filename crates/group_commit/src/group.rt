//! A store with a journal behind a turn of its own.
ghost use Rattle.std.specs.Prelude.{◌≡◌, ◌≢◌, ◌<◌, ℕ, [], ◌∷◌, true, max, None, IfOk, IfErr};
ghost use Rattle.call_contract.specs.Sessions.{live_in};
ghost use Rattle.turn_lock.specs.Turns.{first_pass, HasAll, has_number};
ghost use Rattle.shared_store.specs.Lists.{book_of, SessionsFit};
ghost use Rattle.shared_store.specs.Sessions.{IsOpenedAs, session_without};
ghost use Rattle.group_commit.specs.Asked.{IsDrained, IsWholeSession, TakesNextOf};
ghost use Rattle.group_commit.specs.Closings.{IsAsTold};
ghost use Rattle.group_commit.specs.Members.{GoesOnIn, HasCommittedAll, HasMadeDurable, IsOf, joined, met, only_with, without_number};
ghost use Rattle.group_commit.specs.declared.mark.Mark.TheVariants as mark;

use crate::member::Member;
use crate::scribe::Scribe;
use call_contract::TreeCall;
use journal::Journal;
use node_seq::NodeRead;
use outside_traits::Disk;
use shared_store::{Session, Store, StoreError};
use std::alloc::Global;
use std::marker::Model;
use std::snapshot::Snapshot;
use std::sync::Wait;
use turn_lock::{NoTurn, TurnLock};
use tx_core::Core;

// How often a thread looks for the journal's turn before it sleeps: it is held while a disk syncs, which takes longer than a sleep.
const JOURNAL_LOOKS: u32 = 2;

/// There was no memory for a group commit. All comes back.
#[derive(Drop)]
pub struct GroupFault<C: TreeCall + Drop, B: NodeRead + Drop, J: Disk> {
    pub store: Store<C, B>,
    pub session: Session<C, B>,
    pub journal: Journal<J>,
}

/// A store, and the journal of its commits behind a turn of its own. Contracts see which they are.
/// Whoever holds both turns took the journal's first.
#[derive(Drop)]
pub struct GroupCommit<C: TreeCall + Drop, B: NodeRead + Drop, J: Disk> {
    store: Store<C, B>,
    lock: TurnLock<Scribe<C, B, J>>,
}

impl<C: TreeCall + Drop, B: NodeRead + Drop, J: Disk> Model for GroupCommit<C, B, J> {
    ghost use Rattle.std.specs.Coded.{codes};
    ghost use Rattle.atomic_table.specs.Seated.{table_id_coded};
    ghost use Rattle.group_commit.specs.Members.{GroupView};

    ghost Value = { GroupView };

    ghost coded = { Prim.hlevel (codes, table_id_coded) };

    ghost view = { λ g. record { store = g.store; lock = g.lock } };
}

impl<C: TreeCall + Drop, B: NodeRead + Drop, J: Disk> GroupCommit<C, B, J> {
    /// Puts a journal behind a turn, for a store whose commits so far need not be written. The session gives the number 0 to one that drains.
    pub fn new(
        alloc: Global,
        store: Store<C, B>,
        session: Session<C, B>,
        journal: Journal<J>,
    ) -> Result<(GroupCommit<C, B, J>, Member<C, B, J>), GroupFault<C, B, J>>
        requires session { IsWholeSession store session }
        requires drained { IsDrained session.seen }
        requires takes { TakesNextOf session.seen journal }

        ensures store { IfOk result (λ r. r.0.store ≡ store) }
        ensures session { IfOk result (λ r. r.1.session ≡ session_without 0 session) }
        ensures pass { IfOk result (λ r. r.1.pass ≡ first_pass r.0.lock (mark.Opening session journal ∷ [])) }
        ensures err { IfErr result (λ fault. (fault.store ≡ store) × (fault.session ≡ session) × (fault.journal ≡ journal)) }
    {
        let mut session = session;
        // Called for its contract: what the session has seen begins with the opening.
        let _number = session.number();
        let first = Snapshot::of(&session);
        let drainer = session.split(&store, 0);
        match TurnLock::new(alloc, Scribe::new(first, drainer, journal)) {
            Ok((lock, pass)) => Ok((
                GroupCommit {
                    store,
                    lock: lock.looking(JOURNAL_LOOKS),
                },
                Member {
                    session,
                    pass,
                    durable: 0,
                },
            )),
            Err(NoTurn { value }) => {
                let (journal, drainer) = value.into_parts();
                store.join(&mut session, drainer);
                Err(GroupFault {
                    store,
                    session,
                    journal,
                })
            }
        }
    }

    /// The store, for the members' calls.
    pub fn store(&self) -> &Store<C, B>
        ensures { result.now ≡ self.now.store }
    {
        &self.store
    }

    /// Commits, and answers the commit's number once it and all before it are durable.
    /// All memory is taken before the commit is visible. It may find its commit written by another member, and then makes no call of the disk.
    pub fn commit<R: Wait>(
        &self,
        rt: &R,
        alloc: Global,
        member: &mut Member<C, B, J>,
    ) -> Result<u32, StoreError>
        requires { IsOf self.now member.old }
        ensures { HasCommittedAll B.contents C.meaning member.old member.new result }
    {
        let number = member.session.commit(rt, alloc, &self.store)?;
        let mut turn = self.lock.take(rt, &mut member.pass);
        let result = turn
            .value
            .settle(rt, &self.store, &mut member.session, number);
        member.durable = turn.value.durable();
        self.lock.give(&mut member.pass, turn);
        result
    }

    /// Makes all commits durable that the member has seen, with all others that are visible by now. Where all are, it makes no call of the disk. It takes no memory.
    pub fn make_durable<R: Wait>(
        &self,
        rt: &R,
        member: &mut Member<C, B, J>,
    ) -> Result<(), StoreError>
        requires { IsOf self.now member.old }
        ensures { HasMadeDurable member.old member.new result }
    {
        let mut turn = self.lock.take(rt, &mut member.pass);
        let result = turn.value.settle_all(rt, &self.store, &mut member.session);
        member.durable = turn.value.durable();
        self.lock.give(&mut member.pass, turn);
        result
    }

    /// A new member, whose session works under a number that this one gives it. It has seen the same.
    pub fn split(&self, member: &mut Member<C, B, J>, number: u32) -> Member<C, B, J>
        requires group { IsOf self.now member.old }
        requires number { (has_number member.old.session.has number ≡ true) × (member.old.session.under ≢ number) }
        ensures kept { member.new ≡ without_number number member.old }
        ensures given { result ≡ only_with number member.old }
    {
        let session = member.session.split(&self.store, number);
        // Called for its contract: the number is at most 64.
        let _number = session.number();
        let pass = self.lock.split(&mut member.pass, number);
        Member {
            session,
            pass,
            durable: member.durable,
        }
    }

    /// The first member has then seen what either has, and the other is as it was.
    pub fn meet(&self, member: &mut Member<C, B, J>, other: &mut Member<C, B, J>)
        requires { IsOf self.now member.old × IsOf self.now other.old }
        ensures kept { member.new ≡ met member.old other.old }
        ensures goes_on { GoesOnIn member.old member.new × GoesOnIn other.old member.new }
        ensures other { other.new ≡ other.old }
    {
        member.session.meet(&self.store, &mut other.session);
        self.lock.meet(&mut member.pass, &mut other.pass);
        member.durable = greater(member.durable, other.durable);
    }

    /// The kept member has seen what either has, and has the numbers of both.
    pub fn join(&self, member: &mut Member<C, B, J>, other: Member<C, B, J>)
        requires group { IsOf self.now member.old × IsOf self.now other }
        requires ended { live_in (book_of other.session.seen) other.session.under ≡ None }
        ensures kept { member.new ≡ joined member.old other }
        ensures goes_on { GoesOnIn member.old member.new × GoesOnIn other member.new }
    {
        let Member {
            session,
            pass,
            durable,
        } = other;
        self.store.join(&mut member.session, session);
        self.lock.join(&mut member.pass, pass);
        member.durable = greater(member.durable, durable);
    }

    /// The core and the journal, for a member that has every number but the 0 of the session that drains.
    pub fn close(self, member: Member<C, B, J>) -> (Core<C, B>, Journal<J>)
        requires group { IsOf self member }
        requires numbers { (n : ℕ) → 0 < n → n < 65 → has_number member.session.has n ≡ true }
        requires all { HasAll member.pass.has }
        ensures book { result.0.book ≡ book_of member.session.seen }
        ensures opened { IsOpenedAs B.unchanged member.session.seen result.0 }
        ensures sessions { SessionsFit result.0.book }
        ensures journal { IsAsTold C.meaning B.contents J.is_known member.pass.seen result.0 result.1 }
    {
        let GroupCommit { store, lock } = self;
        let Member {
            mut session,
            pass,
            durable: _,
        } = member;
        let (journal, drainer) = lock.close(pass).into_parts();
        // Called for their contracts: what a usable journal reads, and that a read gives what a crash may leave.
        let _known = (journal.is_usable(), journal.faults());
        store.join(&mut session, drainer);
        let core = store.close(session);
        // Called for its contract: the book is legal.
        core.is_legal();
        (core, journal)
    }
}

fn greater(one: u32, other: u32) -> u32
    ensures { result ≡ max one other }
{
    if one < other { other } else { one }
}
