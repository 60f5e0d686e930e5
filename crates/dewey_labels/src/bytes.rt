//! The bytes of a text: in the text itself where they are few, so that a name or a short value takes no memory of its own.
ghost use Rattle.std.specs.Prelude.{◌≡◌, ◌≤◌, length, IfOk};

use crate::NoMemory;
use std::alloc::Global;
use std::marker::Model;

/// How many bytes stand in the text itself. With one more a text, and with it each key and record, would be longer.
const FEW: usize = 30;

#[derive(Drop)]
enum Held {
    /// The first `count` places.
    Few { count: u8, places: [u8; FEW] },
    Many(Vec<u8>),
}

/// Bytes, seen as the list of them.
pub(crate) struct Bytes {
    held: Held,
}

/// One call, so that what is proved where a value goes doesn't depend on what holds its bytes.
impl Drop for Bytes {
    fn drop(self) {
        let Bytes { held } = self;
        drop(held);
    }
}

impl Model for Bytes {
    ghost use Rattle.std.specs.Prelude as p;
    ghost use Rattle.dewey_labels.specs.inside.Bytes.{bytes_held, AreHeld};

    ghost Value = { p.List p.ℕ };

    ghost view = { λ d. bytes_held d.held };

    ghost invariant = { λ d. AreHeld d.held };
}

impl Bytes {
    /// A copy of these bytes.
    pub(crate) fn of_slice(alloc: Global, bytes: &[u8]) -> Result<Bytes, NoMemory>
        ensures { IfOk result (λ held. held ≡ bytes.now) }
    {
        if bytes.len() <= FEW {
            return Ok(few(bytes));
        }
        Ok(many(Vec::from_slice(alloc, bytes)?))
    }

    /// The bytes of a vector. It takes no memory.
    pub(crate) fn of_vec(bytes: Vec<u8>) -> Bytes
        ensures { result ≡ bytes.items }
    {
        if bytes.len() <= FEW {
            return few(bytes.as_slice());
        }
        many(bytes)
    }

    pub(crate) fn as_slice(&self) -> &[u8]
        ensures { result.now ≡ self.now }
    {
        match &self.held {
            Held::Few { count, places } => &places[..usize::from(*count)],
            Held::Many(bytes) => bytes.as_slice(),
        }
    }

    pub(crate) fn copy(&self, alloc: Global) -> Result<Bytes, NoMemory>
        ensures { IfOk result (λ copy. copy ≡ self.now) }
    {
        match &self.held {
            Held::Few { count, places } => Ok(Bytes {
                held: Held::Few {
                    count: *count,
                    places: *places,
                },
            }),
            Held::Many(bytes) => Ok(many(Vec::from_slice(alloc, bytes)?)),
        }
    }
}

/// Few bytes, which are copied.
fn few(bytes: &[u8]) -> Bytes
    requires { length bytes.now ≤ 30 }
    ensures { result ≡ bytes.now }
{
    let count = bytes.len();
    let mut places = [0; FEW];
    places[..count].copy_from_slice(bytes);
    let count = count as u8;
    Bytes {
        held: Held::Few { count, places },
    }
}

/// Any bytes, which stay where they are.
fn many(bytes: Vec<u8>) -> Bytes
    ensures { result ≡ bytes.items }
{
    Bytes {
        held: Held::Many(bytes),
    }
}
