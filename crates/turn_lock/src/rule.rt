//! What a pass knows, the rule between any two steps, and what each step tells.
use crate::grows::Grows;
use atomic_table::{Join, Play, Seat, Split, Table, TableRule};
use std::alloc::Global;
use std::collections::LinkedList;
use std::marker::PhantomData;
use std::snapshot::Snapshot;

/// What a pass knows. No value of it is made.
pub struct Known<E> {
    pub seen: LinkedList<E>,
    pub has: LinkedList<bool>,
    pub turn: bool,
    /// The number that the next split takes.
    pub picked: u64,
    /// What it had seen before its last join, and the numbers that it had then.
    pub before: LinkedList<E>,
    pub had: LinkedList<bool>,
}

/// What a table is told when it is made: the value, and the numbers from 0 to 64.
pub struct Start<V> {
    pub value: Snapshot<V>,
    pub numbers: [bool; 65],
}

impl<V> Drop for Start<V> {
    fn drop(self) {
        let Self {
            value: _,
            numbers: _,
        } = self;
    }
}

pub struct TurnRule<V> {
    value: PhantomData<V>,
}

impl<V: Grows> TableRule<Option<V>, Known<V::Entry>, Start<V>> for TurnRule<V> {
    ghost use Rattle.turn_lock.specs.Steps.{Kept, founder};

    ghost holds = { λ _. Kept V.entries V.number };

    ghost first = { λ key. founder key.numbers (V.entries key.value.value) };
}

pub type TurnTable<V: Grows> = Table<Option<V>, Known<V::Entry>, Start<V>, TurnRule<V>, Global>;

pub type TurnSeat<V: Grows> = Seat<Option<V>, Known<V::Entry>>;

pub struct Take<V> {
    value: PhantomData<V>,
}

impl<V: Grows> Play<Option<V>, Known<V::Entry>> for Take<V> {
    ghost use Rattle.turn_lock.specs.Steps.{took};

    ghost then = { took V.entries V.number };
}

/// Nothing that a pass knows changes.
pub struct Idle<V> {
    value: PhantomData<V>,
}

impl<V: Grows> Play<Option<V>, Known<V::Entry>> for Idle<V> {
    ghost use Rattle.turn_lock.specs.Steps.{idles};

    ghost then = { idles V.entries V.number };
}

pub struct Mark<V> {
    value: PhantomData<V>,
}

impl<V: Grows> Play<Option<V>, Known<V::Entry>> for Mark<V> {
    ghost use Rattle.turn_lock.specs.Steps.{marked};

    ghost then = { marked V.entries V.number };
}

pub struct Free<V> {
    value: PhantomData<V>,
}

impl<V: Grows> Play<Option<V>, Known<V::Entry>> for Free<V> {
    ghost use Rattle.turn_lock.specs.Steps.{freed};

    ghost then = { freed V.entries V.number };
}

pub struct Pick<V> {
    value: PhantomData<V>,
}

impl<V: Grows> Play<Option<V>, Known<V::Entry>> for Pick<V> {
    ghost use Rattle.turn_lock.specs.Steps.{picks};

    ghost then = { picks V.entries V.number };
}

/// What was seen goes on from what had been seen before the last join.
pub struct Recall<V> {
    value: PhantomData<V>,
}

impl<V: Grows> Play<Option<V>, Known<V::Entry>> for Recall<V> {
    ghost use Rattle.turn_lock.specs.Steps.{recalled};

    ghost then = { recalled V.entries V.number };
}

/// The same, and the last join is forgotten.
pub struct Return<V> {
    value: PhantomData<V>,
}

impl<V: Grows> Play<Option<V>, Known<V::Entry>> for Return<V> {
    ghost use Rattle.turn_lock.specs.Steps.{returned};

    ghost then = { returned V.entries V.number };
}

/// The picked number goes to a new pass.
pub struct Cut;

impl<E> Split<Known<E>> for Cut {
    ghost use Rattle.turn_lock.specs.Steps.{left_over, cut_off};

    ghost left = { left_over };

    ghost right = { cut_off };
}

/// A new pass with no number has seen the same.
pub struct Echo;

impl<E> Split<Known<E>> for Echo {
    ghost use Rattle.turn_lock.specs.Steps.{echo};

    ghost left = { λ v. v };

    ghost right = { echo };
}

/// The kept pass has the longer list and the numbers of both.
pub struct Both;

impl<E> Join<Known<E>> for Both {
    ghost use Rattle.turn_lock.specs.Steps.{joined, spent};

    ghost both = { joined };

    ghost spent = { spent };
}
