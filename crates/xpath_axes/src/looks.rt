//! What an evaluation notes, and what it keeps of what it found.
ghost use Rattle.std.specs.Prelude.{[], ◌∷◌, ◌++◌, List, IfOk, OnOk, ⊤};
ghost use Rattle.tree_model.specs.Tree.{Tree};
ghost use Rattle.path_model.specs.PlainPaths as paths;
ghost use Rattle.path_model.specs.Programs as path;
ghost use Rattle.xpath_axes.specs.Kept.{holds_at, KeepsToo, Recalls};
ghost use Rattle.xpath_axes.specs.Looks.{meant};
ghost use Rattle.xpath_axes.specs.Positions.{plain};

use crate::{Look, Position};
use dewey_labels::NoMemory;
use path_model::Expr;
use std::alloc::Global;

/// What is told of the looks of an evaluation.
///
/// `saw` holds of a value, looks, and the value once these were noted, in order. What was noted may be noted again, with nothing changed.
pub trait Notes {
    ghost saw: { Self → List path.Look → Self → Type 0 };

    /// Notes a look.
    fn note(&mut self, alloc: Global, look: Look<'_>) -> Result<(), NoMemory>
        ensures { OnOk result (saw self.old (meant look.entry ∷ []) self.new) };

    ghost saw_nothing: { (x : Self) → saw x [] x };

    ghost saw_further: { (x y z : Self) (os ps : List path.Look) → saw x os y → saw y ps z → saw x (os ++ ps) z };

    ghost saw_again: { (x y z : Self) (os ps : List path.Look) → saw x os y → saw y ps z → saw z os z };
}

/// What an evaluation notes its looks in, and keeps what predicates hold at nodes.
///
/// `saw` holds of a tree, a value, looks, and the value once these were noted, in order.
/// It may be that what the value keeps is not right of the tree: that it is says `saw` of no looks at all.
pub trait Looks {
    ghost saw: { Tree → Self → List path.Look → Self → Type 0 };

    /// Notes a look.
    fn note(&mut self, alloc: Global, look: Look<'_>) -> Result<(), NoMemory>
        ensures { OnOk result ((t : Tree) → saw t self.old [] self.old → saw t self.old (meant look.entry ∷ []) self.new) };

    /// Whether the predicate keeps the node at its place among so many, if that is kept.
    fn recall(
        &self,
        alloc: Global,
        test: &Expr,
        at: &Position,
        proximity: usize,
        size: usize,
    ) -> Result<Option<bool>, NoMemory>
        ensures { IfOk result (Recalls saw self.now (holds_at (paths.plain test.now) (plain at.now) proximity size)) };

    /// Keeps whether it does, of a predicate for which this is of use.
    fn keep(
        &mut self,
        alloc: Global,
        test: &Expr,
        at: &Position,
        proximity: usize,
        size: usize,
        holds: bool,
    ) -> Result<(), NoMemory>
        ensures { OnOk result (KeepsToo saw (holds_at (paths.plain test.now) (plain at.now) proximity size) holds self.old self.new) };

    ghost saw_nothing: { (t : Tree) (x y : Self) (os : List path.Look) → saw t x os y → saw t y [] y };

    ghost saw_further: { (t : Tree) (x y z : Self) (os ps : List path.Look) → saw t x os y → saw t y ps z → saw t x (os ++ ps) z };

    ghost saw_again: { (t : Tree) (x y : Self) (os : List path.Look) → saw t x os y → saw t y os y };
}

/// Keeps no look.
#[derive(Clone, Copy, Debug, Drop, PartialEq, Eq)]
pub struct NoLooks;

impl Notes for NoLooks {
    ghost saw = { λ _ _ _. ⊤ };

    ghost saw_nothing = { λ _. tt };

    ghost saw_further = { λ _ _ _ _ _ _ _. tt };

    ghost saw_again = { λ _ _ _ _ _ _ _. tt };

    fn note(&mut self, _alloc: Global, _look: Look<'_>) -> Result<(), NoMemory> {
        Ok(())
    }
}
