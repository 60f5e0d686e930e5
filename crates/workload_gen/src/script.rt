//! The script, line by line.
ghost use Rattle.std.specs.Prelude.{◌≡◌, ◌≤◌, ◌<◌, ◌∷◌, [], MatchOption};
ghost use Rattle.workload_gen.specs.Scripts.{script};

use crate::line::Line;
use crate::place::{Place, after, line_at};
use std::marker::Model;

/// The most books that a script may have.
pub const MOST_BOOKS: u32 = 20_000;

/// A script that gives its lines one by one. It is seen as those that it has still to give.
#[derive(Drop)]
pub struct Script {
    seed: u32,
    count: u32,
    place: Place,
}

impl Model for Script {
    ghost use Rattle.std.specs.Prelude as p;
    ghost use Rattle.workload_gen.specs.declared.line.Line.{Line};
    ghost use Rattle.workload_gen.specs.inside.Rests.{IsPlace, rest};

    ghost Value = { p.List Line };

    ghost view = { λ s. rest s.seed s.count s.place };

    ghost invariant = { λ s. (p.◌<◌ 0 s.count) × (p.◌≤◌ s.count 20000) × IsPlace s.count s.place };
}

impl Script {
    /// The script of a seed and a count of books, from 1 to 20,000.
    pub fn new(seed: u32, count: u32) -> Script
        requires { (0 < count) × (count ≤ MOST_BOOKS) }
        ensures { result ≡ script seed count }
    {
        Script {
            seed,
            count,
            place: Place::Opening(0),
        }
    }

    /// The next line; none at the end.
    pub fn next(&mut self) -> Option<Line>
        ensures { MatchOption result ((self.old ≡ []) × (self.new ≡ [])) (λ line. self.old ≡ line ∷ self.new) }
    {
        let line = line_at(self.seed, self.count, self.place)?;
        self.place = after(self.count, self.place);
        Some(line)
    }
}
