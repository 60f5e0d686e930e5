//! What is kept of an evaluation: of each predicate that may be evaluated again and again, whether it keeps a node.
ghost use Rattle.std.specs.Prelude.{◌≡◌, [], IfOk, IfSome, IsTrue};
ghost use Rattle.std.specs.BTreeMap.{values};
ghost use Rattle.path_model.specs.PlainPaths.{plain};
ghost use Rattle.xpath_axes.specs.Positions as position;
ghost use Rattle.xpath_eval.specs.inside.Memos.{IsAlikeTo, IsAt};

use crate::sameness::{is_same, is_same_position};
use crate::spot::Spot;
use crate::tests::{hangs_on_document, is_free, repeated_tests, weight, weights_of};
use dewey_labels::{List, NoMemory};
use path_model::{Expr, XPath};
use std::alloc::Global;
use std::collections::BTreeMap;
use xpath_axes::{Look, Looks, Notes, Position, document_label};

/// Notes looks, and keeps what predicates hold at nodes.
#[derive(Drop)]
pub(crate) struct Memo<W> {
    notes: W,
    /// The predicates of which it is kept.
    tests: List<Expr>,
    /// The weight of each of them, by which most of the others are told at once.
    weights: List<u64>,
    kept: BTreeMap<Spot, Kept>,
}

/// Whether a predicate, by its place among those of which it is kept, keeps a node at its place among so many.
#[derive(Drop)]
pub(crate) struct Kept {
    test: usize,
    at: Position,
    proximity: usize,
    size: usize,
    holds: bool,
}

impl<W: Notes + Drop> Memo<W> {
    /// Nothing is kept yet.
    pub(crate) fn new(alloc: Global, path: &XPath, notes: W) -> Result<Memo<W>, NoMemory>
        ensures { IfOk result (λ memo. (memo.notes ≡ notes) × (values memo.kept ≡ [])) }
    {
        let tests = repeated_tests(alloc, path)?;
        let weights = weights_of(alloc, tests.as_slice())?;
        Ok(Memo {
            notes,
            tests,
            weights,
            kept: BTreeMap::new(alloc),
        })
    }

    /// What the looks were noted in.
    pub(crate) fn into_notes(self) -> W
        ensures { result ≡ self.notes }
    {
        let Memo { notes, .. } = self;
        notes
    }
}

impl<W: Notes> Looks for Memo<W> {
    ghost use Rattle.xpath_eval.specs.inside.Memos.{IsRight};

    ghost saw = { λ t v os w. IsRight W.saw t v × W.saw v.notes os w.notes × IsRight W.saw t w };

    fn note(&mut self, alloc: Global, look: Look<'_>) -> Result<(), NoMemory> {
        self.notes.note(alloc, look)
    }

    fn recall(
        &self,
        alloc: Global,
        test: &Expr,
        at: &Position,
        proximity: usize,
        size: usize,
    ) -> Result<Option<bool>, NoMemory> {
        let Some(index) = place_of(self.tests.as_slice(), self.weights.as_slice(), test) else {
            return Ok(None);
        };
        let spot = Spot::of(alloc, index, test, at, proximity, size)?;
        let Some(kept) = self.kept.get(&spot) else {
            return Ok(None);
        };
        if kept.test != index || !is_alike(alloc, test, kept, at, proximity, size)? {
            return Ok(None);
        }
        Ok(Some(kept.holds))
    }

    fn keep(
        &mut self,
        alloc: Global,
        test: &Expr,
        at: &Position,
        proximity: usize,
        size: usize,
        holds: bool,
    ) -> Result<(), NoMemory> {
        let Some(index) = place_of(self.tests.as_slice(), self.weights.as_slice(), test) else {
            return Ok(());
        };
        let spot = Spot::of(alloc, index, test, at, proximity, size)?;
        let kept = Kept {
            test: index,
            at: at.copy(alloc)?,
            proximity,
            size,
            holds,
        };
        let _before = self.kept.insert(spot, kept)?;
        Ok(())
    }

    ghost saw_nothing = { λ t x y os h. (h.2, W.saw_nothing y.notes, h.2) };

    ghost saw_further = { λ t x y z os ps h g. (h.0, W.saw_further x.notes y.notes z.notes os ps h.1 g.1, g.2) };

    ghost saw_again = { λ t x y os h. (h.2, W.saw_again x.notes y.notes y.notes os [] h.1 (W.saw_nothing y.notes), h.2) };
}

/// The place of a predicate among those of which it is kept.
fn place_of(tests: &[Expr], weights: &[u64], test: &Expr) -> Option<usize>
    ensures { IfSome result (λ index. IsAt tests.now index (plain test.now)) }
{
    if tests.is_empty() {
        return None;
    }
    let weight = weight(test);
    for (index, one) in tests.iter().enumerate() {
        let may_be = index < weights.len() && weights[index] == weight;
        if may_be && is_same(one, test) {
            return Some(index);
        }
    }
    None
}

/// Whether the predicate has to keep the node there just as it keeps the one of which it is kept:
/// by the document alone, by the node alone, or by its place among so many as well.
fn is_alike(
    alloc: Global,
    test: &Expr,
    kept: &Kept,
    at: &Position,
    proximity: usize,
    size: usize,
) -> Result<bool, NoMemory>
    ensures { IfOk result (λ is. IsTrue is → IsAlikeTo (plain test.now) kept.now (position.plain at.now) proximity size) }
{
    if hangs_on_document(test) {
        let document = document_label(alloc, at.label())?;
        return Ok(document_label(alloc, kept.at.label())? == document);
    }
    if !is_same_position(&kept.at, at) {
        return Ok(false);
    }
    Ok(is_free(test) || kept.proximity == proximity && kept.size == size)
}
