//! The search for the shortest way back to one owner: layer by layer those who wait that lead there, each with the least of its shortest ways.

ghost use Rattle.std.specs.Prelude.{◌≡◌, [], ◌∷◌, ◌++◌, length, IfOk, OnOk};
ghost use Rattle.wait_cycles.specs.Walks.{has};
ghost use Rattle.wait_graph.specs.inside.Search.{found, the_end, reached, unreached, seek};

use dewey_labels::{List, NoMemory};
use std::alloc::Global;

/// An owner that waits, with those that it waits for.
#[derive(Debug, Drop)]
pub struct Waiter {
    pub owner: u32,
    pub holders: List<u32>,
}

/// An owner that was reached, with the owners by which it leads to the end: itself first, and the end left out.
#[derive(Debug, Drop)]
pub struct Walk {
    pub owner: u32,
    pub by: List<u32>,
}

/// The owners of one distance to the end, and those that are farther away.
#[derive(Debug, Drop)]
struct Layer {
    walks: List<Walk>,
    farther: List<Waiter>,
}

fn contains(owners: &[u32], owner: u32) -> bool
    ensures { result ≡ has owner owners.now }
{
    for other in owners {
        if *other == owner {
            return true;
        }
    }
    false
}

/// The list with an owner before it.
pub fn put_before(alloc: Global, owner: u32, rest: &[u32]) -> Result<List<u32>, NoMemory>
    ensures { IfOk result (λ list. list ≡ owner ∷ rest.now) }
{
    let mut list = List::new(alloc);
    list.push(owner)?;
    for other in rest {
        list.push(*other)?;
    }
    Ok(list)
}

/// The walk of the first in the layer that is one of these owners.
fn walk_by(alloc: Global, holders: &[u32], layer: &[Walk]) -> Result<Option<List<u32>>, NoMemory>
    ensures { IfOk result (λ walk. walk ≡ found holders.now layer.now) }
{
    for walk in layer {
        if contains(holders, walk.owner) {
            return Ok(Some(walk.by.copy(alloc)?));
        }
    }
    Ok(None)
}

/// Puts an owner that was farther away into the layer behind one where he waits for somebody in that, and else among those that are farther still.
fn place(alloc: Global, layer: &[Walk], waiter: Waiter, next: &mut Layer) -> Result<(), NoMemory>
    ensures walks { OnOk result (next.new.walks ≡ next.old.walks ++ reached layer.now (waiter ∷ [])) }
    ensures farther { OnOk result (next.new.farther ≡ next.old.farther ++ unreached layer.now (waiter ∷ [])) }
{
    match walk_by(alloc, waiter.holders.as_slice(), layer)? {
        Some(rest) => {
            let owner = waiter.owner;
            let by = put_before(alloc, owner, rest.as_slice())?;
            next.walks.push(Walk { owner, by })
        }
        None => next.farther.push(waiter),
    }
}

/// The layer behind one: of those that are farther away, the ones that wait for somebody in it.
fn next_layer(alloc: Global, layer: &[Walk], farther: List<Waiter>) -> Result<Layer, NoMemory>
    ensures walks { IfOk result (λ next. next.walks ≡ reached layer.now farther) }
    ensures farther { IfOk result (λ next. next.farther ≡ unreached layer.now farther) }
{
    let mut next = Layer {
        walks: List::new(alloc),
        farther: List::new(alloc),
    };
    for waiter in farther.into_vec() {
        place(alloc, layer, waiter, &mut next)?;
    }
    Ok(next)
}

/// The layer of the end alone.
fn end_alone(alloc: Global, end: u32) -> Result<List<Walk>, NoMemory>
    ensures { IfOk result (λ layer. layer ≡ the_end end ∷ []) }
{
    let mut layer = List::new(alloc);
    layer.push(Walk {
        owner: end,
        by: List::new(alloc),
    })?;
    Ok(layer)
}

/// The owners between, of the shortest way from one that waits for these holders to the end, the least of its length.
/// Whether one waits for another is looked up once at most for each two of them.
pub fn search(
    alloc: Global,
    holders: &[u32],
    waiters: List<Waiter>,
    end: u32,
) -> Result<Option<List<u32>>, NoMemory>
    ensures { IfOk result (λ walk. walk ≡ seek holders.now (length waiters) (unreached (the_end end ∷ []) waiters) (reached (the_end end ∷ []) waiters)) }
{
    let rounds = waiters.len();
    let first = end_alone(alloc, end)?;
    let mut layer = next_layer(alloc, first.as_slice(), waiters)?;
    for _round in 0..rounds {
        if let Some(walk) = walk_by(alloc, holders, layer.walks.as_slice())? {
            return Ok(Some(walk));
        }
        if layer.walks.is_empty() {
            return Ok(None);
        }
        let Layer { walks, farther } = layer;
        layer = next_layer(alloc, walks.as_slice(), farther)?;
    }
    Ok(None)
}
