//! The label of a new node, between those of its neighbours.
ghost use Rattle.std.specs.Prelude.{◌≡◌, ◌≤◌, ◌++◌, if◌then◌else◌, Some, None, IsTrue, IfOk, IfSome, OnOk};
ghost use Rattle.std.specs.declared.cmp.Ordering.TheVariants.{Less};
ghost use Rattle.std.specs.Ordering.{nat_cmp};
ghost use Rattle.std.specs.Cmp.Lexicographic.{slice_cmp};
ghost use Rattle.dewey_labels.specs.Labels.{greatest, is_child, is_label, is_within, IsLabel};
ghost use Rattle.dewey_labels.specs.Sides.{rest as rest_behind};
ghost use Rattle.dewey_labels.specs.NewLabels.{odd_above as least_odd_above, after, before, between, new_label, AreNeighbours};
ghost use Rattle.dewey_labels.specs.LabelLimits.{IsRefusedAtLimit};
ghost use Rattle.dewey_labels.specs.inside.Codes.{IsCode};
ghost use Rattle.dewey_labels.specs.inside.MadeLabels.{IsMade};

use crate::{Divisions, Label, NoMemory};
use std::alloc::Global;

/// The odd division with which the children of a node are begun: there is room on both sides of it; `first_division` of the definitions.
pub const FIRST_DIVISION: u32 = 1001;

/// Why there is no new label.
#[derive(Debug, Drop, Clone, Copy, PartialEq, Eq)]
pub enum LabelError {
    /// The label would have more than 255 divisions, or one above 4,294,967,291.
    LabelLimit,
    NoMemory,
}

impl From<NoMemory> for LabelError {
    ghost use Rattle.std.specs.Prelude.{◌≡◌};
    ghost use Rattle.dewey_labels.specs.declared.new_labels.LabelError.TheVariants.{NoMemory};

    ghost from_gives = { λ _ e. e ≡ NoMemory };

    fn from(_refused: NoMemory) -> LabelError {
        LabelError::NoMemory
    }
}

/// The label of a new child of `parent`, which has no other one.
pub fn child_first(alloc: Global, parent: &Label) -> Result<Label, LabelError>
    ensures ok { IfOk result (λ new. new_label parent.now None None ≡ Some new) }
    ensures limit { IsRefusedAtLimit result (new_label parent.now None None) }
    ensures label { IfOk result IsLabel }
    ensures child { IfOk result (λ new. IsTrue (is_child parent.now new)) }
{
    let mut divisions = parent.own_divisions(alloc)?;
    divisions.push(alloc, FIRST_DIVISION)?;
    within_limits(divisions)
}

/// The label of a new child of `parent` behind `left`, its last one.
pub fn child_after(alloc: Global, parent: &Label, left: &Label) -> Result<Label, LabelError>
    requires { IsTrue (is_child parent.now left.now) }
    ensures ok { IfOk result (λ new. new_label parent.now (Some left.now) None ≡ Some new) }
    ensures limit { IsRefusedAtLimit result (new_label parent.now (Some left.now) None) }
    ensures label { IfOk result IsLabel }
    ensures child { IfOk result (λ new. IsTrue (is_child parent.now new)) }
    ensures behind { IfOk result (λ new. slice_cmp nat_cmp left.now new ≡ Less) }
{
    let mut divisions = parent.own_divisions(alloc)?;
    push_after(alloc, &mut divisions, code(parent, left))?;
    within_limits(divisions)
}

/// The label of a new child of `parent` before `right`, its first one.
pub fn child_before(alloc: Global, parent: &Label, right: &Label) -> Result<Label, LabelError>
    requires { IsTrue (is_child parent.now right.now) }
    ensures ok { IfOk result (λ new. new_label parent.now None (Some right.now) ≡ Some new) }
    ensures limit { IsRefusedAtLimit result (new_label parent.now None (Some right.now)) }
    ensures label { IfOk result IsLabel }
    ensures child { IfOk result (λ new. IsTrue (is_child parent.now new)) }
    ensures ahead { IfOk result (λ new. slice_cmp nat_cmp new right.now ≡ Less) }
{
    let mut divisions = parent.own_divisions(alloc)?;
    push_before(alloc, &mut divisions, code(parent, right))?;
    within_limits(divisions)
}

/// The label of a new child of `parent` between its neighbours `left` and `right`,
/// whose own labels stay as they are.
pub fn child_between(
    alloc: Global,
    parent: &Label,
    left: &Label,
    right: &Label,
) -> Result<Label, LabelError>
    requires { AreNeighbours parent.now (Some left.now) (Some right.now) }
    ensures ok { IfOk result (λ new.
        new_label parent.now (Some left.now) (Some right.now) ≡ Some new) }
    ensures limit { IsRefusedAtLimit result (new_label parent.now (Some left.now) (Some right.now)) }
    ensures label { IfOk result IsLabel }
    ensures child { IfOk result (λ new. IsTrue (is_child parent.now new)) }
    ensures behind { IfOk result (λ new. slice_cmp nat_cmp left.now new ≡ Less) }
    ensures ahead { IfOk result (λ new. slice_cmp nat_cmp new right.now ≡ Less) }
{
    let mut divisions = parent.own_divisions(alloc)?;
    push_between(
        alloc,
        &mut divisions,
        code(parent, left),
        code(parent, right),
    )?;
    within_limits(divisions)
}

/// The label of a new child of `parent` between its neighbours, each of which may be missing; none where it would pass a limit.
pub fn child_beside(
    alloc: Global,
    parent: &Label,
    left: &Option<Label>,
    right: &Option<Label>,
) -> Result<Option<Label>, NoMemory>
    requires left_child { IfSome left.now (λ l. IsTrue (is_child parent.now l)) }
    requires right_child { IfSome right.now (λ r. IsTrue (is_child parent.now r)) }
    requires order { IfSome left.now (λ l. IfSome right.now (λ r. slice_cmp nat_cmp l r ≡ Less)) }
    ensures new { IfOk result (λ new. new ≡ new_label parent.now left.now right.now) }
    ensures label { IfOk result (λ new. IfSome new IsLabel) }
    ensures child { IfOk result (λ new. IfSome new (λ n. IsTrue (is_child parent.now n))) }
    ensures behind { IfOk result (λ new. IfSome new (λ n. IfSome left.now (λ l. slice_cmp nat_cmp l n ≡ Less))) }
    ensures ahead { IfOk result (λ new. IfSome new (λ n. IfSome right.now (λ r. slice_cmp nat_cmp n r ≡ Less))) }
{
    match (left, right) {
        (None, None) => unless_limit(child_first(alloc, parent)),
        (Some(left), None) => unless_limit(child_after(alloc, parent, left)),
        (None, Some(right)) => unless_limit(child_before(alloc, parent, right)),
        (Some(left), Some(right)) => unless_limit(child_between(alloc, parent, left, right)),
    }
}

/// The label that was made, or none where it would pass a limit.
fn unless_limit(made: Result<Label, LabelError>) -> Result<Option<Label>, NoMemory>
    ensures { IfOk result (IsMade made) }
{
    match made {
        Ok(label) => Ok(Some(label)),
        Err(LabelError::LabelLimit) => Ok(None),
        Err(LabelError::NoMemory) => Err(NoMemory),
    }
}

/// The code of a child: its divisions behind those of its parent.
fn code<'a>(parent: &Label, child: &'a Label) -> &'a [u32]
    requires { IsTrue (is_child parent.now child.now) }
    ensures rest { result.now ≡ rest_behind parent.now child.now }
    ensures code { IsCode result.now }
{
    &child.divisions()[parent.divisions().len()..]
}

/// Puts the code behind `left` at the end.
fn push_after(alloc: Global, divisions: &mut Divisions, left: &[u32]) -> Result<(), NoMemory>
    requires { IsCode left.now }
    ensures { OnOk result (divisions.new ≡ divisions.old ++ after left.now) }
{
    match left {
        [] => unreachable!(),
        [first, ..] => divisions.push(alloc, odd_above(*first)),
    }
}

/// Puts the code before `right` at the end.
fn push_before(alloc: Global, divisions: &mut Divisions, right: &[u32]) -> Result<(), NoMemory>
    requires { IsCode right.now }
    ensures { OnOk result (divisions.new ≡ divisions.old ++ before right.now) }
{
    match right {
        [] => unreachable!(),
        [first, ..] if first % 2 == 1 && *first >= 5 => divisions.push(alloc, first - 2),
        [3, ..] => {
            divisions.push(alloc, 2)?;
            divisions.push(alloc, FIRST_DIVISION)
        }
        [first, ..] if *first >= 4 => divisions.push(alloc, first - 1),
        [_, rest @ ..] => {
            divisions.push(alloc, 2)?;
            push_before(alloc, divisions, rest)
        }
    }
}

/// Puts the code between `left` and `right` at the end.
fn push_between(
    alloc: Global,
    divisions: &mut Divisions,
    left: &[u32],
    right: &[u32],
) -> Result<(), NoMemory>
    requires left_code { IsCode left.now }
    requires right_code { IsCode right.now }
    requires order { slice_cmp nat_cmp left.now right.now ≡ Less }
    ensures { OnOk result (divisions.new ≡ divisions.old ++ between left.now right.now) }
{
    let ([a, after_a @ ..], [b, after_b @ ..]) = (left, right) else {
        unreachable!()
    };
    if a == b {
        divisions.push(alloc, *a)?;
        push_between(alloc, divisions, after_a, after_b)
    } else if odd_above(*a) < *b {
        divisions.push(alloc, odd_above(*a))
    } else if a % 2 == 1 && *b == a + 2 {
        divisions.push(alloc, a + 1)?;
        divisions.push(alloc, FIRST_DIVISION)
    } else if a % 2 == 1 {
        divisions.push(alloc, *b)?;
        push_before(alloc, divisions, after_b)
    } else {
        divisions.push(alloc, *a)?;
        push_after(alloc, divisions, after_a)
    }
}

/// The least odd number above a division.
fn odd_above(division: u32) -> u32
    requires { division ≤ greatest }
    ensures { result ≡ least_odd_above division }
{
    if division % 2 == 1 {
        division + 2
    } else {
        division + 1
    }
}

/// The label with these divisions, unless they pass a limit.
#[tactic(auto, using(crate::proofs::NewLabelCalls::found_within))]
fn within_limits(divisions: Divisions) -> Result<Label, LabelError>
    requires { IsTrue (is_label divisions) }
    ensures { result ≡ (if is_within divisions then Ok divisions else Err LabelError.LabelLimit) }
{
    Label::of(divisions).ok_or(LabelError::LabelLimit)
}
