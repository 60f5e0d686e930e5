//! What a thread comes to the lock with.
ghost use Rattle.std.specs.Prelude.{◌≡◌, ℕ, ◌||◌, ◌<◌, if◌then◌else◌, nat_lt, false, slice_set};
ghost use Rattle.turn_lock.specs.Turns.{has_number, all_numbers, only_number};

use crate::grows::Grows;
use crate::rule::TurnSeat;
use std::marker::Model;

const NUMBERS: usize = 65;

/// What its owner has seen of the list, and numbers from 0 to 64, of which it has at least one.
#[derive(Drop)]
pub struct Pass<V: Grows> {
    pub(crate) seat: TurnSeat<V>,
    // By number.
    pub(crate) numbers: [bool; 65],
    // How many entries it has seen.
    pub(crate) count: u64,
}

impl<V: Grows> Model for Pass<V> {
    ghost use Rattle.std.specs.Prelude.{◌≡◌, length};
    ghost use Rattle.std.specs.Coded.{codes};
    ghost use Rattle.atomic_table.specs.Seated.{table_id_coded};
    ghost use Rattle.turn_lock.specs.Turns.{PassView};
    ghost use Rattle.turn_lock.specs.Steps.{IsPass};

    ghost Value = { PassView V.Entry };

    ghost coded = { Prim.hlevel (codes, table_id_coded) };

    ghost view = { λ p. record { lock = p.seat.table_id; seen = p.seat.me.0.seen; has = p.seat.me.0.has; turn = p.seat.me.0.turn } };

    ghost invariant = { λ p. IsPass p.numbers p.seat.me × (p.count ≡ length p.seat.me.0.seen) };
}

impl<V: Grows> Pass<V> {
    /// Whether `number` is one of its numbers.
    pub fn has(&self, number: u32) -> bool
        ensures { result ≡ has_number self.now.has number }
    {
        (number as usize) < NUMBERS && self.numbers[number as usize]
    }
}

pub fn every_number() -> [bool; 65]
    ensures { result ≡ all_numbers }
{
    [true; 65]
}

pub fn number_alone(number: u32) -> [bool; 65]
    requires { number < 65 }
    ensures { result ≡ only_number number }
{
    let mut numbers = [false; 65];
    numbers[number as usize] = true;
    numbers
}

pub fn take_out(numbers: &mut [bool; 65], number: u32)
    requires { number < 65 }
    ensures { numbers.new ≡ slice_set numbers.old number false }
{
    numbers[number as usize] = false;
}

pub fn add_numbers(numbers: &mut [bool; 65], others: &[bool; 65])
    ensures { (n : ℕ) → has_number numbers.new n ≡ (has_number numbers.old n || has_number others.now n) }
{
    for i in 0..NUMBERS {
        numbers[i] = numbers[i] || others[i];
    }
}

pub fn longer_count(count: u64, other: u64) -> u64
    ensures { result ≡ (if nat_lt count other then other else count) }
{
    if count < other { other } else { count }
}
