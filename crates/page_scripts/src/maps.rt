//! Maps by chance: keys of all forms of divisions, names and records of many lengths, some over several pages.
use dewey_labels::{Label, List, NoMemory, Text};
use node_seq::SortedSeq;
use std::alloc::Global;
use tree_model::{Key, Record};

const COUNTS: [u32; 6] = [0, 1, 2, 8, 40, 200];

const DEPTHS: [u32; 6] = [0, 1, 2, 3, 4, 5];

const DIVISIONS: [u32; 6] = [3, 1001, 16_511, 16_513, 2_113_665, 4_294_967_291];

const NAMES: [u32; 8] = [0, 0, 0, 0, 1, 7, 300, 1_024];

const KINDS: [u32; 3] = [2, 3, 4];

const LENGTHS: [u32; 24] = [
    0, 5, 9, 30, 0, 5, 9, 30, 0, 5, 9, 30, 0, 5, 9, 30, 0, 30, 1_022, 1_023, 1_024, 2_047, 9_000,
    30_000,
];

/// Numbers by chance, the same ones for the same seed.
#[derive(Drop)]
pub struct Chance {
    state: u64,
}

impl Chance {
    pub fn new(seed: u32) -> Chance {
        Chance { state: seed as u64 }
    }

    /// A number below this one, or 0 where there is none.
    pub fn below(&mut self, count: usize) -> usize {
        self.state = self
            .state
            .wrapping_mul(6_364_136_223_846_793_005)
            .wrapping_add(1_442_695_040_888_963_407);
        let number = (self.state >> 33) as usize;
        if count == 0 { 0 } else { number % count }
    }

    /// One of these numbers.
    pub fn one_of(&mut self, numbers: &[u32]) -> u32 {
        let at = self.below(numbers.len());
        numbers.get(at).copied().unwrap_or(0)
    }
}

/// A name or text of so many letters.
fn letters(alloc: Global, count: u32) -> Result<Text, NoMemory> {
    let mut text = String::new(alloc);
    for _ in 0..count {
        text.push('n')?;
    }
    Text::of(alloc, text.as_str())
}

/// A key that isn't the root's own.
fn key_by(alloc: Global, chance: &mut Chance) -> Result<Key, NoMemory> {
    let mut divisions = Vec::new(alloc);
    divisions.push(1)?;
    let depth = chance.one_of(&DEPTHS);
    for _ in 0..depth {
        divisions.push(chance.one_of(&DIVISIONS))?;
    }
    let count = chance.one_of(&NAMES);
    let name = letters(alloc, if depth == 0 { count.max(1) } else { count })?;
    match Label::of_divisions(List::from_vec(divisions)) {
        Some(label) => Key::of_attribute(alloc, &label, name.as_str()),
        None => Err(NoMemory),
    }
}

fn record_by(alloc: Global, chance: &mut Chance) -> Result<Record, NoMemory> {
    let kind = chance.one_of(&KINDS);
    let length = chance.one_of(&LENGTHS);
    Ok(match kind {
        2 => Record::Element(letters(alloc, length.max(1).min(1_024))?),
        3 => Record::Text(letters(alloc, length)?),
        _ => Record::Attr(letters(alloc, length)?),
    })
}

pub fn map_by(alloc: Global, chance: &mut Chance) -> Result<SortedSeq, NoMemory> {
    let mut map = SortedSeq::new(alloc);
    let count = chance.one_of(&COUNTS);
    for _ in 0..count {
        let key = key_by(alloc, chance)?;
        let record = record_by(alloc, chance)?;
        map.put(alloc, key, record)?;
    }
    Ok(map)
}
