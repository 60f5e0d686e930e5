//! The divisions of a label: in the label itself where they are few, so that a label of a usual depth takes no memory of its own.
ghost use Rattle.std.specs.Prelude.{◌≡◌, ◌≤◌, ◌<◌, [], ◌∷◌, ◌++◌, length, take, IfOk, OnOk, OnErr};

use crate::NoMemory;
use std::alloc::Global;
use std::marker::Model;

/// How many divisions stand in the label itself. With one more a label, and with it each key, would be longer.
const FEW: usize = 7;

#[derive(Drop)]
enum Held {
    /// The first `count` places.
    Few { count: u8, places: [u32; FEW] },
    Many(Vec<u32>),
}

/// Divisions, seen as the list of them: what a label is made of.
pub struct Divisions {
    held: Held,
}

/// One call, so that what is proved where a value goes doesn't depend on what holds its divisions.
impl Drop for Divisions {
    fn drop(self) {
        let Divisions { held } = self;
        drop(held);
    }
}

impl Model for Divisions {
    ghost use Rattle.std.specs.Prelude as p;
    ghost use Rattle.dewey_labels.specs.inside.Divisions.{divisions_held, AreHeld};

    ghost Value = { p.List p.ℕ };

    ghost view = { λ d. divisions_held d.held };

    ghost invariant = { λ d. AreHeld d.held };
}

impl Divisions {
    /// No divisions. They take no memory.
    pub fn new() -> Divisions
        ensures { result ≡ [] }
    {
        held_few(0, [0; FEW])
    }

    /// A copy of these divisions.
    pub fn of_slice(alloc: Global, divisions: &[u32]) -> Result<Divisions, NoMemory>
        ensures { IfOk result (λ held. held ≡ divisions.now) }
    {
        if divisions.len() <= FEW {
            return Ok(few(divisions));
        }
        Ok(many(Vec::from_slice(alloc, divisions)?))
    }

    /// The divisions of a vector. It takes no memory.
    pub fn of_vec(divisions: Vec<u32>) -> Divisions
        ensures { result ≡ divisions.items }
    {
        if divisions.len() <= FEW {
            return few(divisions.as_slice());
        }
        many(divisions)
    }

    pub fn len(&self) -> usize
        ensures { result ≡ length self.now }
    {
        self.as_slice().len()
    }

    pub fn as_slice(&self) -> &[u32]
        ensures { result.now ≡ self.now }
    {
        match &self.held {
            Held::Few { count, places } => &places[..usize::from(*count)],
            Held::Many(divisions) => divisions.as_slice(),
        }
    }

    pub fn copy(&self, alloc: Global) -> Result<Divisions, NoMemory>
        ensures { IfOk result (λ copy. copy ≡ self.now) }
    {
        match &self.held {
            Held::Few { count, places } => Ok(Divisions {
                held: Held::Few {
                    count: *count,
                    places: *places,
                },
            }),
            Held::Many(divisions) => Ok(many(Vec::from_slice(alloc, divisions)?)),
        }
    }

    /// Puts a division at the end. Up to the seventh it takes no memory.
    pub fn push(&mut self, alloc: Global, division: u32) -> Result<(), NoMemory>
        ensures ok { OnOk result (self.new ≡ self.old ++ division ∷ []) }
        ensures err { OnErr result (self.new ≡ self.old) }
    {
        if let Held::Many(divisions) = &mut self.held {
            divisions.push(division)?;
            return Ok(());
        }
        *self = self.one_more(alloc, division)?;
        Ok(())
    }

    /// These divisions, of which there are few, with one more.
    fn one_more(&self, alloc: Global, division: u32) -> Result<Divisions, NoMemory>
        ensures { IfOk result (λ more. more ≡ self.now ++ division ∷ []) }
    {
        match &self.held {
            Held::Few { count, places } if usize::from(*count) < FEW => {
                Ok(with_place(*count, *places, division))
            }
            _ => {
                let mut more = Vec::with_capacity(alloc, 2 * FEW)?;
                more.extend_from_slice(self.as_slice())?;
                more.push(division)?;
                Ok(many(more))
            }
        }
    }
}

/// Few divisions, which are copied.
fn few(divisions: &[u32]) -> Divisions
    requires { length divisions.now ≤ 7 }
    ensures { result ≡ divisions.now }
{
    let count = divisions.len();
    let mut places = [0; FEW];
    places[..count].copy_from_slice(divisions);
    held_few(count as u8, places)
}

/// The first places, and one more division behind them.
fn with_place(count: u8, mut places: [u32; FEW], division: u32) -> Divisions
    requires { count < 7 }
    ensures { result ≡ take count places ++ division ∷ [] }
{
    places[usize::from(count)] = division;
    held_few(count + 1, places)
}

/// The first places.
fn held_few(count: u8, places: [u32; FEW]) -> Divisions
    requires { count ≤ 7 }
    ensures { result ≡ take count places }
{
    Divisions {
        held: Held::Few { count, places },
    }
}

/// Any divisions, which stay where they are.
fn many(divisions: Vec<u32>) -> Divisions
    ensures { result ≡ divisions.items }
{
    Divisions {
        held: Held::Many(divisions),
    }
}
