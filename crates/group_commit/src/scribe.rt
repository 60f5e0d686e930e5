//! The value behind the journal's turn: the journal, the session that drains, and what was written.
ghost use Rattle.std.specs.Prelude.{◌≡◌, ◌+◌, ◌<◌, ℕ, length, true, IsTrue, None, is_some, if◌then◌else◌};
ghost use Rattle.node_records.specs.Pending.{FollowOn};
ghost use Rattle.call_contract.specs.Sessions.{live_in};
ghost use Rattle.turn_lock.specs.Turns.{only_number};
ghost use Rattle.journal.specs.Groups.{is_next};
ghost use Rattle.journal.specs.Views.{TakesGroups};
ghost use Rattle.shared_store.specs.Lists.{book_of, drained_in, is_opened};
ghost use Rattle.group_commit.specs.Marks.{durable_in, last_commit};
ghost use Rattle.group_commit.specs.Members.{IsAnswered, IsMadeDurable};
ghost use Rattle.group_commit.specs.inside.Scribes.{began_after, IsScribe, KeepsWritten, marks_in, scribe_of};

use crate::gathering::gather;
use crate::mark::{Failed, Mark};
use call_contract::TreeCall;
use journal::Journal;
use node_records::Pending;
use node_seq::NodeRead;
use outside_traits::Disk;
use shared_store::{Session, Store, StoreError};
use std::marker::Model;
use std::snapshot::Snapshot;
use std::sync::Wait;
use turn_lock::Grows;

/// The journal behind its turn.
#[derive(Drop)]
pub struct Scribe<C: TreeCall + Drop, B: NodeRead + Drop, J: Disk> {
    journal: Journal<J>,
    /// The one session with the number 0, which drains.
    drainer: Session<C, B>,
    /// With which the group commit was made.
    session: Snapshot<Session<C, B>>,
    opening: Snapshot<Journal<J>>,
    /// How many commits were written since, and the number of the last one, 0 before the first.
    written: u32,
    durable: u32,
    failure: Option<Failed>,
}

impl<C: TreeCall + Drop, B: NodeRead + Drop, J: Disk> Model for Scribe<C, B, J> {
    ghost use Rattle.std.specs.Coded.{codes};
    ghost use Rattle.atomic_table.specs.Seated.{table_id_coded};
    ghost use Rattle.tree_model.specs.contracts.fragment.Fragment as fragment;
    ghost use Rattle.group_commit.specs.inside.Scribes.{IsScribe, scribe_of, ScribeView};

    ghost Value = { ScribeView C B };

    ghost coded = { Prim.hlevel (codes, table_id_coded, fragment.the_row.coded) };

    ghost view = { λ s. scribe_of s.journal s.drainer s.session.value s.opening.value s.written s.durable s.failure };

    ghost invariant = { λ s. IsScribe C.meaning B.contents J.is_known (scribe_of s.journal s.drainer s.session.value s.opening.value s.written s.durable s.failure) };
}

impl<C: TreeCall + Drop, B: NodeRead + Drop, J: Disk> Grows for Scribe<C, B, J> {
    ghost use Rattle.group_commit.specs.Marks.{marked_by};
    ghost use Rattle.group_commit.specs.inside.Scribes.{marks_in};

    type Entry = Mark<Session<C, B>, Journal<J>>;

    ghost entries = { marks_in };

    ghost number = { marked_by };

    fn count(&self) -> u64 {
        1 + self.written as u64 + one_if_any(&self.failure)
    }
}

impl<C: TreeCall + Drop, B: NodeRead + Drop, J: Disk> Scribe<C, B, J> {
    /// What stands behind the journal's turn at first: the session as it was before it gave the number 0 to the one that drains, and the journal.
    pub fn new(
        session: Snapshot<Session<C, B>>,
        drainer: Session<C, B>,
        journal: Journal<J>,
    ) -> Scribe<C, B, J>
        requires drainer { (drainer.lock ≡ session.value.lock) × (drainer.seen ≡ session.value.seen) × (drainer.has ≡ only_number 0) × (drainer.under ≡ 0) }
        requires opened { is_opened session.value.seen ≡ true }
        requires idle { live_in (book_of session.value.seen) 0 ≡ None }
        requires drained { drained_in session.value.seen ≡ last_commit session.value.seen }
        requires usable { TakesGroups journal }
        requires next { IsTrue (is_next journal.last (last_commit session.value.seen + 1)) }
        ensures { result ≡ scribe_of journal drainer session.value journal 0 0 None }
    {
        // Called for its contract: the groups of a usable journal without images are commits.
        journal.is_usable();
        Scribe {
            drainer,
            session,
            opening: Snapshot::of(&journal),
            journal,
            written: 0,
            durable: 0,
            failure: None,
        }
    }

    /// The number of the last commit that was written, 0 before the first.
    pub fn durable(&self) -> u32
        ensures { result ≡ durable_in (marks_in self.now) }
    {
        self.durable
    }

    /// The journal, and the session that drains.
    pub fn into_parts(self) -> (Journal<J>, Session<C, B>)
        ensures journal { result.0 ≡ self.journal }
        ensures drainer { result.1 ≡ self.drainer }
        ensures keeps { IsScribe C.meaning B.contents J.is_known self }
    {
        let Scribe {
            journal,
            drainer,
            ..
        } = self;
        (journal, drainer)
    }

    /// Makes a commit durable that is visible, with all others that are visible by now. The journal is written without the store's turn.
    pub fn settle<R: Wait>(
        &mut self,
        rt: &R,
        store: &Store<C, B>,
        session: &mut Session<C, B>,
        number: u32,
    ) -> Result<u32, StoreError>
        requires store { (self.old.session.lock ≡ store.now) × (session.old.lock ≡ store.now) }
        requires number { (number ≡ last_commit session.old.seen) × (began_after self.old < number) }
        ensures session { session.new ≡ session.old }
        ensures opening { (self.new.session ≡ self.old.session) × (self.new.opening ≡ self.old.opening) }
        ensures answer { IsAnswered (marks_in self.old) session.old.under number result (marks_in self.new) }
        ensures moments { IsTrue J.is_known → KeepsWritten self.old self.new }
    {
        // Called for its contract: between two calls of the journal all is synced.
        self.journal.is_usable();
        if number <= self.durable {
            return Ok(number);
        }
        self.settle_all(rt, store, session)?;
        Ok(number)
    }

    /// Makes all commits durable that are visible by now, those that the session has seen among them. Where all are, the journal's disk isn't called.
    pub fn settle_all<R: Wait>(
        &mut self,
        rt: &R,
        store: &Store<C, B>,
        session: &mut Session<C, B>,
    ) -> Result<(), StoreError>
        requires store { (self.old.session.lock ≡ store.now) × (session.old.lock ≡ store.now) }
        ensures session { session.new ≡ session.old }
        ensures opening { (self.new.session ≡ self.old.session) × (self.new.opening ≡ self.old.opening) }
        ensures answer { IsMadeDurable (marks_in self.old) session.old.under (last_commit session.old.seen) result (marks_in self.new) }
        ensures moments { IsTrue J.is_known → KeepsWritten self.old self.new }
    {
        // Called for its contract: between two calls of the journal all is synced.
        self.journal.is_usable();
        if let Some(failed) = &self.failure {
            return Err(StoreError::Halted {
                faults: failed.faults,
            });
        }
        self.write(rt, store, session)
    }

    // Writes all commits that are visible by now.
    fn write<R: Wait>(
        &mut self,
        rt: &R,
        store: &Store<C, B>,
        session: &mut Session<C, B>,
    ) -> Result<(), StoreError>
        requires store { (self.old.session.lock ≡ store.now) × (session.old.lock ≡ store.now) }
        requires unfailed { self.old.failure ≡ None }
        ensures session { session.new ≡ session.old }
        ensures opening { (self.new.session ≡ self.old.session) × (self.new.opening ≡ self.old.opening) }
        ensures answer { IsMadeDurable (marks_in self.old) session.old.under (last_commit session.old.seen) result (marks_in self.new) }
        ensures moments { IsTrue J.is_known → KeepsWritten self.old self.new }
    {
        // Called for its contract: between two calls of the journal all is synced.
        self.journal.is_usable();
        let commits = gather(rt, store, &mut self.drainer, session);
        if commits.is_empty() {
            return Ok(());
        }
        let pending = commits.as_slice();
        let appended = self.journal.append_groups(pending);
        let faults = self.journal.faults();
        match appended {
            Ok(()) => {
                self.durable = last_number(pending);
                self.written += pending.len() as u32;
                Ok(())
            }
            Err(_) => {
                let by = session.number();
                self.failure = Some(Failed { by, faults });
                Err(StoreError::DiskFault)
            }
        }
    }
}

fn one_if_any(failure: &Option<Failed>) -> u64
    ensures { result ≡ (if is_some failure.now then 1 else 0) }
{
    if failure.is_some() { 1 } else { 0 }
}

/// The number of the last of these commits.
fn last_number(commits: &[Pending]) -> u32
    requires { 0 < length commits.now }
    ensures { (after : ℕ) → FollowOn after commits.now → result ≡ after + length commits.now }
{
    let Some(last) = commits.last() else {
        unreachable!()
    };
    last.number
}
