//! The lock, and how threads take and give the turn.
ghost use Rattle.std.specs.Prelude.{◌≡◌, ◌≤◌, ◌<◌, IfSome, IfNone, true, false, slice_set, IfOk, IfErr};
ghost use Rattle.turn_lock.specs.Steps.{echo, joined};
ghost use Rattle.turn_lock.specs.Turns.{has_number, HasSome, HasAll, merged, only_number, longer, GoesOn, GrewBy, first_pass, having_seen, having_numbers, having_turn};

use crate::grows::Grows;
use crate::pass::{Pass, add_numbers, every_number, longer_count, number_alone, take_out};
use crate::rule::{
    Both, Cut, Echo, Free, Idle, Mark, Pick, Recall, Return, Start, Take, TurnSeat, TurnTable,
};
use atomic_table::{Refused, Table};
use std::alloc::Global;
use std::hint::spin_loop;
use std::marker::Model;
use std::snapshot::Snapshot;
use std::sync::Wait;

// The words of the table: whether the turn is taken, how long the list was when it was last marked, how many threads sleep on either,
// and how many are awake and look for the turn.
const TAKEN: usize = 0;

const LENGTH: usize = 1;

const TAKERS_ASLEEP: usize = 2;

const GROWTH_ASLEEP: usize = 3;

const LOOKING: usize = 4;

// How often a thread looks whether the turn is free before it sleeps, where nothing else is said, and how many looks there are to a try to take it.
// A look takes about a nanosecond.
// Between two tries the thread that gave the turn may have it some more times, while the value is in its processor's cache.
const LOOKS: u32 = 100_000;

const LOOKS_A_TRY: u32 = 4096;

/// The value while it is out.
#[derive(Drop)]
pub struct Turn<V> {
    pub value: V,
}

/// There was no memory. The value comes back.
#[derive(Drop)]
pub struct NoTurn<V> {
    pub value: V,
}

/// A value behind a turn. Contracts see which lock it is.
#[derive(Drop)]
pub struct TurnLock<V: Grows> {
    table: TurnTable<V>,
    /// How often a thread looks before it sleeps.
    looks: u32,
}

impl<V: Grows> Model for TurnLock<V> {
    ghost use Rattle.std.specs.Prelude.{◌≡◌};
    ghost use Rattle.atomic_table.specs.Seated.{TableId, table_id_coded};

    ghost Value = { TableId };

    ghost coded = { table_id_coded };

    ghost view = { λ t. t.table.shared.table_id };

    ghost invariant = { λ t. (t.table.shared.table_id.words ≡ 5) × (t.table.shared.table_id.slots ≡ 1) };
}

impl<V: Grows> TurnLock<V> {
    /// Puts the value behind a lock. The pass has seen its whole list and has every number.
    pub fn new(alloc: Global, value: V) -> Result<(TurnLock<V>, Pass<V>), NoTurn<V>>
        ensures ok { IfOk result (λ r. r.1 ≡ first_pass r.0 (V.entries value)) }
        ensures err { IfErr result (λ r. r.value ≡ value) }
    {
        let count = value.count();
        let start = Start {
            value: Snapshot::of(&value),
            numbers: every_number(),
        };
        let mut slots = Vec::new(alloc);
        if let Err(failed) = slots.push(Some(value)) {
            let Some(value) = failed.value else {
                unreachable!()
            };
            slots.destroy_empty();
            return Err(NoTurn { value });
        }
        match Table::new(alloc, &[0, count, 0, 0, 0], slots, &start) {
            Ok((table, seat)) => Ok((
                TurnLock {
                    table,
                    looks: LOOKS,
                },
                Pass {
                    seat,
                    numbers: every_number(),
                    count,
                },
            )),
            Err(Refused { mut slots }) => {
                let Some(Some(value)) = slots.pop() else {
                    unreachable!()
                };
                slots.destroy_empty();
                Err(NoTurn { value })
            }
        }
    }

    /// The same lock, at which a thread looks so often whether the turn is free before it sleeps, about a nanosecond each time.
    /// A turn that is held for some microseconds wants looks for as long as a sleep takes, and one that is held while a disk works only few.
    pub fn looking(self, looks: u32) -> TurnLock<V>
        ensures { result ≡ self }
    {
        TurnLock {
            table: self.table,
            looks,
        }
    }

    // Takes the turn where it is free.
    fn try_take(&self, pass: &mut Pass<V>) -> Option<Turn<V>>
        requires { pass.old.lock ≡ self.now }
        ensures pass { IfSome result (λ t. pass.new ≡ having_turn true (having_seen (V.entries t.value) pass.old)) }
        ensures goes_on { IfSome result (λ t. GoesOn V.number pass.old.has pass.old.seen (V.entries t.value)) }
        ensures none { IfNone result (pass.new ≡ pass.old) }
    {
        let shared = &self.table.shared;
        if shared.compare_exchange::<Take<V>>(&mut pass.seat, TAKEN, 0, 1) != 0 {
            return None;
        }
        let slot = shared.exchange(&mut pass.seat, 0, None);
        let Some(value) = slot else { unreachable!() };
        pass.count = value.count();
        Some(Turn { value })
    }

    // Takes the turn if one of some looks finds it free.
    fn take_soon(&self, pass: &mut Pass<V>) -> Option<Turn<V>>
        requires { pass.old.lock ≡ self.now }
        ensures pass { IfSome result (λ t. pass.new ≡ having_turn true (having_seen (V.entries t.value) pass.old)) }
        ensures goes_on { IfSome result (λ t. GoesOn V.number pass.old.has pass.old.seen (V.entries t.value)) }
        ensures none { IfNone result (pass.new ≡ pass.old) }
    {
        for look in 0..self.looks {
            // A look is made each time, so that time passes.
            if self.table.shared.peek(TAKEN) == 0 && look % LOOKS_A_TRY == 0 {
                if let Some(turn) = self.try_take(pass) {
                    return Some(turn);
                }
            }
            spin_loop();
        }
        None
    }

    // Looks for the turn, and is counted among those that look meanwhile. Where it isn't found the thread is counted among those that sleep from then on.
    fn take_looking(&self, pass: &mut Pass<V>) -> Option<Turn<V>>
        requires { pass.old.lock ≡ self.now }
        ensures pass { IfSome result (λ t. pass.new ≡ having_turn true (having_seen (V.entries t.value) pass.old)) }
        ensures goes_on { IfSome result (λ t. GoesOn V.number pass.old.has pass.old.seen (V.entries t.value)) }
        ensures none { IfNone result (pass.new ≡ pass.old) }
    {
        self.count_in(pass, LOOKING);
        let found = self.take_soon(pass);
        if found.is_none() {
            self.count_in(pass, TAKERS_ASLEEP);
        }
        self.count_out(pass, LOOKING);
        found
    }

    // Takes the turn where it is free, and sleeps once where it isn't. The thread was counted among those that sleep.
    fn take_or_sleep<R: Wait>(&self, rt: &R, pass: &mut Pass<V>) -> Option<Turn<V>>
        requires { pass.old.lock ≡ self.now }
        ensures pass { IfSome result (λ t. pass.new ≡ having_turn true (having_seen (V.entries t.value) pass.old)) }
        ensures goes_on { IfSome result (λ t. GoesOn V.number pass.old.has pass.old.seen (V.entries t.value)) }
        ensures none { IfNone result (pass.new ≡ pass.old) }
    {
        let found = self.try_take(pass);
        if found.is_none() {
            self.table.shared.park(rt, TAKEN, 1);
        }
        self.count_out(pass, TAKERS_ASLEEP);
        found
    }

    // Takes the turn. It looks some times and sleeps, in turn, until it has it.
    fn take_slowly<R: Wait>(&self, rt: &R, pass: &mut Pass<V>) -> Turn<V>
        requires { pass.old.lock ≡ self.now }
        ensures pass { pass.new ≡ having_turn true (having_seen (V.entries result.value) pass.old) }
        ensures goes_on { GoesOn V.number pass.old.has pass.old.seen (V.entries result.value) }
    {
        for _ in rt.forever() {
            if let Some(turn) = self.take_looking(pass) {
                return turn;
            }
            if let Some(turn) = self.take_or_sleep(rt, pass) {
                return turn;
            }
        }
        unreachable!()
    }

    // Counts this thread in a word.
    fn count_in(&self, pass: &mut Pass<V>, word: usize)
        requires lock { pass.old.lock ≡ self.now }
        requires word { (2 ≤ word) × (word < 5) }
        ensures { pass.new ≡ pass.old }
    {
        self.table
            .shared
            .fetch_add::<Idle<V>>(&mut pass.seat, word, 1);
    }

    fn count_out(&self, pass: &mut Pass<V>, word: usize)
        requires lock { pass.old.lock ≡ self.now }
        requires word { (2 ≤ word) × (word < 5) }
        ensures { pass.new ≡ pass.old }
    {
        self.table
            .shared
            .fetch_sub::<Idle<V>>(&mut pass.seat, word, 1);
    }

    /// Takes the turn. It waits while another thread has it: it looks some times, and then sleeps until a `give` wakes it.
    /// Which of several threads that wait comes first isn't said.
    pub fn take<R: Wait>(&self, rt: &R, pass: &mut Pass<V>) -> Turn<V>
        requires lock { pass.old.lock ≡ self.now }
        ensures pass { pass.new ≡ having_turn true (having_seen (V.entries result.value) pass.old) }
        ensures goes_on { GoesOn V.number pass.old.has pass.old.seen (V.entries result.value) }
    {
        if self.table.shared.peek(TAKEN) == 0 {
            if let Some(turn) = self.try_take(pass) {
                return turn;
            }
        }
        self.take_slowly(rt, pass)
    }

    /// Waits until the list is longer than what the pass has seen. It doesn't take the turn.
    pub fn await_growth<R: Wait>(&self, rt: &R, pass: &mut Pass<V>)
        requires lock { pass.old.lock ≡ self.now }
        requires turn { pass.old.turn ≡ false }
        ensures pass { pass.new ≡ pass.old }
    {
        self.count_in(pass, GROWTH_ASLEEP);
        self.sleep_until_grown(rt, pass.count);
        self.count_out(pass, GROWTH_ASLEEP);
    }

    // Sleeps while the list has `seen` entries.
    fn sleep_until_grown<R: Wait>(&self, rt: &R, seen: u64) {
        for _ in rt.forever() {
            if self.table.shared.peek(LENGTH) != seen {
                return;
            }
            self.table
                .shared
                .park(rt, LENGTH, (seen % 4294967296) as u32);
        }
        unreachable!()
    }

    // Wakes a thread that sleeps for the turn where no other one looks for it, and all that wait for the list to grow where it did.
    //
    // No wake-up is lost. A thread that is to sleep is counted first, then looks at the word that it waits on, and then the kernel looks at that
    // word again as it lays the thread down. Here the word was changed before the count is read. All these steps stand in one order, so either the
    // count is read with that thread in it, and it is woken, or it was counted later, and then its own looks find the word changed. Where it finds
    // the turn taken again, whoever took it in between comes here after it was counted.
    // Where a thread looks for the turn it takes it, and then it comes here itself; or it gives up: then it is counted among those that sleep, no
    // longer among those that look, and tries once more, in this order. That try finds the turn free, or one who comes here after it.
    // One that waits for growth sees 32 bits of the length as it is laid down: a list would have to grow by 2^32 entries between two looks.
    fn wake(&self, grew: bool) {
        let shared = &self.table.shared;
        if shared.peek(LOOKING) == 0 && shared.peek(TAKERS_ASLEEP) != 0 {
            shared.wake_one(TAKEN);
        }
        if grew && shared.peek(GROWTH_ASLEEP) != 0 {
            shared.wake_all(LENGTH);
        }
    }

    /// Gives the turn back, with a list that has grown by entries that have a number of this pass or none.
    pub fn give(&self, pass: &mut Pass<V>, turn: Turn<V>)
        requires lock { pass.old.lock ≡ self.now }
        requires turn { pass.old.turn ≡ true }
        requires grew { GrewBy V.number pass.old.has pass.old.seen (V.entries turn.value) }
        ensures pass { pass.new ≡ having_turn false (having_seen (V.entries turn.value) pass.old) }
    {
        let seen = pass.count;
        let count = turn.value.count();
        let value = Some(turn.value);
        let shared = &self.table.shared;
        shared.compare_exchange_with::<Mark<V>>(&mut pass.seat, LENGTH, seen, count, &value);
        let before = shared.exchange(&mut pass.seat, 0, value);
        let None = before else { unreachable!() };
        shared.store::<Free<V>>(&mut pass.seat, TAKEN, 0);
        pass.count = count;
        self.wake(count != seen);
    }

    /// A new pass has this number alone, which the old one loses, and has seen the same.
    pub fn split(&self, pass: &mut Pass<V>, number: u32) -> Pass<V>
        requires lock { pass.old.lock ≡ self.now }
        requires turn { pass.old.turn ≡ false }
        requires number { has_number pass.old.has number ≡ true }
        requires another { HasSome (slice_set pass.old.has number false) }
        ensures kept { pass.new ≡ having_numbers (slice_set pass.old.has number false) pass.old }
        ensures given { result ≡ having_numbers (only_number number) pass.old }
        ensures fits { number < 65 }
    {
        take_out(&mut pass.numbers, number);
        let shared = &self.table.shared;
        shared.compare_exchange::<Pick<V>>(&mut pass.seat, TAKEN, number as u64, number as u64);
        let seat = shared.split_seat::<Cut>(&mut pass.seat);
        Pass {
            seat,
            numbers: number_alone(number),
            count: pass.count,
        }
    }

    // The second has then seen what either has, and remembers what it had seen before.
    fn tell(&self, seat: &mut TurnSeat<V>, other: &mut TurnSeat<V>)
        requires lock { (seat.old.table_id ≡ self.now) × (other.old.table_id ≡ self.now) }
        requires turn { (seat.old.me.0.turn ≡ false) × (other.old.me.0.turn ≡ false) }
        ensures kept { (seat.new.table_id ≡ seat.old.table_id) × (seat.new.me ≡ seat.old.me) × (other.new.table_id ≡ other.old.table_id) }
        ensures joined { other.new.me ≡ (joined other.old.me.0 (echo seat.old.me.0), other.old.me.1) }
    {
        let shared = &self.table.shared;
        let told = shared.split_seat::<Echo>(seat);
        shared.join_seat::<Both>(other, told);
    }

    /// The first pass has then seen what either has, and the other is as it was.
    pub fn meet(&self, pass: &mut Pass<V>, other: &mut Pass<V>)
        requires lock { (pass.old.lock ≡ self.now) × (other.old.lock ≡ self.now) }
        requires turn { (pass.old.turn ≡ false) × (other.old.turn ≡ false) }
        ensures pass { pass.new ≡ having_seen (longer pass.old.seen other.old.seen) pass.old }
        ensures goes_on { GoesOn V.number pass.old.has pass.old.seen (longer pass.old.seen other.old.seen) }
        ensures other_goes_on { GoesOn V.number other.old.has other.old.seen (longer pass.old.seen other.old.seen) }
        ensures other { other.new ≡ other.old }
    {
        self.tell(&mut pass.seat, &mut other.seat);
        self.tell(&mut other.seat, &mut pass.seat);
        let shared = &self.table.shared;
        shared.load::<Return<V>>(&mut other.seat, TAKEN);
        shared.load::<Recall<V>>(&mut pass.seat, TAKEN);
        pass.count = longer_count(pass.count, other.count);
    }

    /// The kept pass has then seen what either has, and has the numbers of both.
    pub fn join(&self, pass: &mut Pass<V>, other: Pass<V>)
        requires lock { (pass.old.lock ≡ self.now) × (other.lock ≡ self.now) }
        requires turn { (pass.old.turn ≡ false) × (other.turn ≡ false) }
        ensures pass { pass.new ≡ having_numbers (merged pass.old.has other.has) (having_seen (longer pass.old.seen other.seen) pass.old) }
        ensures goes_on { GoesOn V.number pass.old.has pass.old.seen (longer pass.old.seen other.seen) }
        ensures other_goes_on { GoesOn V.number other.has other.seen (longer pass.old.seen other.seen) }
    {
        let Pass {
            mut seat,
            numbers,
            count,
        } = other;
        add_numbers(&mut pass.numbers, &numbers);
        self.tell(&mut pass.seat, &mut seat);
        let shared = &self.table.shared;
        shared.load::<Recall<V>>(&mut seat, TAKEN);
        shared.join_seat::<Both>(&mut pass.seat, seat);
        shared.load::<Recall<V>>(&mut pass.seat, TAKEN);
        pass.count = longer_count(pass.count, count);
    }

    /// The value. Its list is what the pass has seen, and then entries with no number.
    pub fn close(self, pass: Pass<V>) -> V
        requires lock { pass.lock ≡ self }
        requires turn { pass.turn ≡ false }
        requires all { HasAll pass.has }
        ensures { GoesOn V.number pass.has pass.seen (V.entries result) }
    {
        let TurnLock { table, looks: _ } = self;
        let Pass {
            seat,
            numbers: _,
            count: _,
        } = pass;
        let mut closed = table.close_with(seat);
        let slot = closed.take(0);
        closed.free();
        let Some(value) = slot else { unreachable!() };
        value
    }
}
