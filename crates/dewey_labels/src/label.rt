//! Labels, their order, and the labels that lie above one.
ghost use Rattle.std.specs.Prelude.{◌≡◌, ◌≢◌, ◌↔◌, ◌<◌, ◌≤◌, [], ◌∷◌, ◌++◌, length, nat_eq, IsTrue, IsNone, IsSome, IfOk, IfSome, Some, refl};
ghost use Rattle.std.specs.Ordering.{nat_cmp};
ghost use Rattle.std.specs.Cmp.{partial_equiv_from_equiv};
ghost use Rattle.std.specs.Cmp.Lexicographic.{pointwise, slice_cmp, nat_list_eq_equiv, nat_list_cmp_total, texts_ties, texts_po};
ghost use Rattle.std.specs.List.{AllByRecursion};
ghost use Rattle.dewey_labels.specs.Sides.{rest, first_code, fill, child_toward};
ghost use Rattle.dewey_labels.specs.Labels.{root, greatest, is_child, is_label, IsLabel, IsAncestor, is_ancestor, are_codes as in_a_row, level as level_of, parent as parent_of};

use crate::divisions::Divisions;
use crate::{Copied, List, NoMemory};
use std::alloc::Global;
use std::cmp::Ordering;
use std::fmt;
use std::marker::Model;

/// The most divisions of a label: `most_divisions` of the definitions.
pub const MOST_DIVISIONS: usize = 255;

/// The greatest division of a label: `greatest` of the definitions.
pub const GREATEST: u32 = 4_294_967_291;

/// A label, seen as the list of its divisions.
#[derive(Drop)]
pub struct Label {
    divisions: Divisions,
}

impl Model for Label {
    ghost use Rattle.std.specs.Prelude as p;
    ghost use Rattle.dewey_labels.specs.Labels.{IsLabel};

    ghost Value = { p.List p.ℕ };

    ghost view = { λ l. l.divisions };

    ghost invariant = { λ l. IsLabel l.divisions };
}

impl Label {
    /// The label of the store's root.
    pub fn root(alloc: Global) -> Result<Label, NoMemory>
        ensures { IfOk result (λ l. l ≡ root) }
    {
        let divisions = Divisions::of_slice(alloc, &[1])?;
        Ok(Label { divisions })
    }

    /// The label with these divisions. It takes no memory.
    pub fn of(divisions: Divisions) -> Option<Label>
        ensures label { IsSome result ↔ IsLabel divisions }
        ensures divisions { IfSome result (λ l. l ≡ divisions) }
    {
        if is_label(divisions.as_slice()) {
            Some(Label { divisions })
        } else {
            None
        }
    }

    /// The label with the divisions of a list. It takes no memory.
    pub fn of_divisions(divisions: List<u32>) -> Option<Label>
        ensures label { IsSome result ↔ IsLabel divisions }
        ensures divisions { IfSome result (λ l. l ≡ divisions) }
    {
        Label::of(Divisions::of_vec(divisions.into_vec()))
    }

    /// A copy of the label's divisions, to which more can be put.
    pub fn own_divisions(&self, alloc: Global) -> Result<Divisions, NoMemory>
        ensures divisions { IfOk result (λ own. own ≡ self.now) }
        ensures label { IsLabel self.now }
    {
        self.divisions.copy(alloc)
    }

    pub fn divisions(&self) -> &[u32]
        ensures divisions { result.now ≡ self.now }
        ensures label { IsLabel self.now }
    {
        self.divisions.as_slice()
    }

    /// The level: 0 for the root, and one more for each code.
    pub fn level(&self) -> u32
        ensures { result ≡ level_of self.now }
    {
        self.divisions()
            .iter()
            .filter(|division| **division % 2 == 1)
            .count() as u32
            - 1
    }

    /// Whether this label is that of a proper ancestor.
    pub fn is_ancestor_of(&self, other: &Label) -> bool
        ensures ancestor { IsTrue result ↔ IsAncestor self.now other.now }
        ensures prefix { result ≡ is_ancestor self.now other.now }
    {
        let (above, below) = (self.divisions(), other.divisions());
        above.len() < below.len() && below.starts_with(above)
    }

    /// The label without its last code, or None for the root.
    pub fn parent(&self, alloc: Global) -> Result<Option<Label>, NoMemory>
        ensures parent { IfOk result (λ found. IfSome found (λ p. p ≡ parent_of self.now)) }
        ensures root { IfOk result (λ found. IsNone found ↔ (self.now ≡ root)) }
    {
        let own = self.divisions();
        if own.len() == 1 {
            return Ok(None);
        }
        let divisions = Divisions::of_slice(alloc, &own[..last_code(own)])?;
        Ok(Some(Label { divisions }))
    }

    /// The label of the child of this one on the way to `below`, or None where `below` doesn't lie under this label.
    pub fn child_toward(&self, alloc: Global, below: &Label) -> Result<Option<Label>, NoMemory>
        ensures toward { IfOk result (λ found. found ≡ child_toward self.now below.now) }
        ensures child { IfOk result (λ found. IfSome found (λ c. IsTrue (is_child self.now c))) }
    {
        if !self.is_ancestor_of(below) {
            return Ok(None);
        }
        let way = cut_toward(self.divisions(), below.divisions());
        let divisions = Divisions::of_slice(alloc, way)?;
        Ok(Some(Label { divisions }))
    }

    /// The name of the attribute root: the label's divisions with 1 behind them, which is no label.
    pub fn attr_root(&self, alloc: Global) -> Result<List<u32>, NoMemory>
        ensures { IfOk result (λ l. l ≡ self.now ++ 1 ∷ []) }
    {
        let mut divisions = Vec::from_slice(alloc, self.divisions())?;
        divisions.push(1)?;
        Ok(List::from_vec(divisions))
    }

    /// The greatest label that may lie under this one. It has the most divisions that a label may have.
    pub fn filled(&self, alloc: Global) -> Result<Label, NoMemory>
        ensures { IfOk result (λ l. l ≡ fill self.now) }
    {
        let mut divisions = Vec::with_capacity(alloc, MOST_DIVISIONS)?;
        divisions.extend_from_slice(self.divisions())?;
        divisions.resize(MOST_DIVISIONS, GREATEST)?;
        Ok(Label {
            divisions: Divisions::of_vec(divisions),
        })
    }

    pub fn copy(&self, alloc: Global) -> Result<Label, NoMemory>
        ensures { IfOk result (λ l. l ≡ self.now) }
    {
        let divisions = self.divisions.copy(alloc)?;
        Ok(Label { divisions })
    }
}

impl Copied for Label {
    fn copy(&self, alloc: Global) -> Result<Label, NoMemory> {
        Label::copy(self, alloc)
    }
}

/// Whether these are the divisions of a label within the limits.
fn is_label(divisions: &[u32]) -> bool
    ensures { IsTrue result ↔ IsLabel divisions.now }
{
    match divisions {
        [1, codes @ ..] => codes.len() < MOST_DIVISIONS && are_codes(codes),
        _ => false,
    }
}

/// Whether these are codes in a row, with no division above the greatest.
fn are_codes(codes: &[u32]) -> bool
    ensures { IsTrue result ↔ (IsTrue (in_a_row codes.now) × AllByRecursion (λ d. d ≤ greatest) codes.now) }
{
    match codes {
        [] => true,
        [division, rest @ ..] => {
            (2..=GREATEST).contains(division)
                && (division % 2 == 1 || !rest.is_empty())
                && are_codes(rest)
        }
    }
}

/// The divisions of the child of `at` on the way to `below`.
fn cut_toward<'a>(at: &[u32], below: &'a [u32]) -> &'a [u32]
    requires { IsTrue (is_ancestor at.now below.now) }
    ensures { result.now ≡ at.now ++ first_code (rest at.now below.now) }
{
    let (_, codes) = below.split_at(at.len());
    let (way, _) = below.split_at(at.len() + first_code_length(codes));
    way
}

/// How many divisions the first code has.
fn first_code_length(codes: &[u32]) -> usize
    ensures count { result ≡ length (first_code codes.now) }
    ensures within { result ≤ length codes.now }
{
    match codes {
        [] => 0,
        [division, ..] if division % 2 == 1 => 1,
        [_, rest @ ..] => 1 + first_code_length(rest),
    }
}

/// Where the last code of a label begins.
fn last_code(divisions: &[u32]) -> usize
    requires label { IsTrue (is_label divisions.now) }
    requires below_root { divisions.now ≢ root }
    ensures begins { result ≡ length (parent_of divisions.now) }
    ensures within { result < length divisions.now }
{
    let mut start = divisions.len() - 1;
    while divisions[start - 1] % 2 == 0 {
        start -= 1;
    }
    start
}

impl fmt::Debug for Label {
    fn fmt<W: fmt::Write>(&self, f: &mut fmt::Formatter<W>) -> fmt::Result {
        f.debug_struct("Label")
            .field("divisions", &self.divisions())
            .finish()
    }
}

impl PartialEq for Label {
    ghost eq = { pointwise nat_eq };

    ghost laws = { partial_equiv_from_equiv nat_list_eq_equiv };

    fn eq(&self, other: &Label) -> bool {
        self.divisions() == other.divisions()
    }
}

impl Eq for Label {
    ghost laws = { nat_list_eq_equiv };
}

/// The order of division lists: a label comes before its extensions.
impl Ord for Label {
    ghost cmp = { slice_cmp nat_cmp };

    ghost total = { nat_list_cmp_total };

    ghost matches_partial_cmp = { λ x y. refl };

    ghost matches_eq = { texts_ties };

    fn cmp(&self, other: &Label) -> Ordering {
        order(self.divisions(), other.divisions())
    }
}

impl PartialOrd for Label {
    ghost partial_cmp = { λ x y. Some (slice_cmp nat_cmp x y) };

    ghost laws = { texts_po };

    fn partial_cmp(&self, other: &Label) -> Option<Ordering> {
        Some(self.cmp(other))
    }
}

/// The order of two lists of divisions. They are short, so their divisions are compared one by one.
fn order(one: &[u32], other: &[u32]) -> Ordering
    ensures { result ≡ slice_cmp nat_cmp one.now other.now }
{
    match one {
        [] => 0.cmp(&other.len()),
        [division, rest @ ..] => match other {
            [] => Ordering::Greater,
            [against, others @ ..] => match division.cmp(against) {
                Ordering::Equal => order(rest, others),
                unequal => unequal,
            },
        },
    }
}
