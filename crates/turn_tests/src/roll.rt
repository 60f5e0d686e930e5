//! A value whose entries have numbers, and passes that write in it, meet and become one again.
ghost use Rattle.std.specs.Prelude.{◌≡◌, ◌++◌, ◌∷◌, [], ◌<◌, OnOk, IfSome, false, true};
ghost use Rattle.turn_lock.specs.Turns.{has_number, HasAll};

use std::alloc::{AllocError, Global};
use std::sync::Wait;
use turn_lock::{Grows, Pass, TurnLock};

/// Its list is the numbers of those that wrote in it, in order.
#[derive(Drop)]
pub struct Roll {
    pub numbers: Vec<u32>,
}

impl Grows for Roll {
    ghost use Rattle.std.specs.Prelude.{Some};

    type Entry = u32;

    ghost entries = { λ r. r.numbers.items };

    ghost number = { λ e. Some e };

    fn count(&self) -> u64 {
        self.numbers.len() as u64
    }
}

/// One turn, with an entry of this number. After an Err the turn isn't given back.
pub fn write<R: Wait>(
    rt: &R,
    lock: &TurnLock<Roll>,
    pass: &mut Pass<Roll>,
    number: u32,
) -> Result<(), AllocError>
    requires lock { pass.old.lock ≡ lock.now }
    requires turn { pass.old.turn ≡ false }
    requires number { has_number pass.old.has number ≡ true }
    ensures kept { OnOk result ((pass.new.lock ≡ pass.old.lock) × (pass.new.turn ≡ false) × (pass.new.has ≡ pass.old.has)) }
{
    let mut turn = lock.take(rt, pass);
    turn.value.numbers.push(number)?;
    lock.give(pass, turn);
    Ok(())
}

/// Who wrote in a roll, in order, and what the last pass says of number 7 before its pass is joined and afterwards.
/// Three passes write in turn, each after it met the one before, and the last of them writes with a number that it was given.
pub fn roll_of_three<R: Wait>(rt: &R, alloc: Global) -> Result<(Vec<u32>, bool, bool), AllocError> {
    let value = Roll {
        numbers: Vec::new(alloc),
    };
    let Ok((lock, mut rest)) = TurnLock::new(alloc, value) else {
        return Err(AllocError);
    };
    let mut seven = lock.split(&mut rest, 7);
    let mut last = lock.split(&mut rest, 64);
    write(rt, &lock, &mut seven, 7)?;
    lock.meet(&mut last, &mut seven);
    write(rt, &lock, &mut last, 64)?;
    write(rt, &lock, &mut rest, 0)?;
    lock.meet(&mut seven, &mut rest);
    write(rt, &lock, &mut seven, 7)?;
    lock.join(&mut rest, last);
    let before = rest.has(7);
    write(rt, &lock, &mut rest, 64)?;
    lock.join(&mut rest, seven);
    let after = rest.has(7);
    Ok((lock.close(rest).numbers, before, after))
}
