//! New labels, worked by hand.
use dewey_labels::{
    Label, LabelError, List, child_after, child_before, child_between, child_first,
};
use std::alloc::Global;
use std::process::Abort;
use std::test::Fail;

/// Ends the test where a label hasn't the wanted divisions.
fn agree(rt: &impl Abort, label: &Label, wanted: &[u32]) {
    assert_eq!(rt; label.divisions(), wanted);
}

/// The label 1.1001.1001, an element's.
fn element(alloc: Global) -> Result<Label, Fail> {
    let document = child_first(alloc, &Label::root(alloc)?)?;
    Ok(child_first(alloc, &document)?)
}

#[test]
fn siblings_get_the_label_between_their_neighbours(rt: HostRuntime) -> Result<(), Fail> {
    let alloc = rt.alloc();
    let element = element(alloc)?;
    let first = child_first(alloc, &element)?;
    let last = child_after(alloc, &element, &first)?;
    let third = child_between(alloc, &element, &first, &last)?;
    let second = child_between(alloc, &element, &first, &third)?;
    agree(&rt, &element, &[1, 1001, 1001]);
    agree(&rt, &first, &[1, 1001, 1001, 1001]);
    agree(&rt, &second, &[1, 1001, 1001, 1002, 999]);
    agree(&rt, &third, &[1, 1001, 1001, 1002, 1001]);
    agree(&rt, &last, &[1, 1001, 1001, 1003]);
    Ok(())
}

/// The child that comes before the first so many times.
fn before_first(alloc: Global, element: &Label, times: u32) -> Result<Label, Fail> {
    let mut first = child_first(alloc, element)?;
    for _ in 0..times {
        first = child_before(alloc, element, &first)?;
    }
    Ok(first)
}

/// How many children are put before the first, and the label of the last.
const BEFORE_FIRST: [(u32, &[u32]); 2] = [
    (499, &[1, 1001, 1001, 3]),
    (500, &[1, 1001, 1001, 2, 1001]),
];

#[test]
fn the_five_hundredth_before_the_first_overflows(rt: HostRuntime) -> Result<(), Fail> {
    let element = element(rt.alloc())?;
    for &(times, want) in &BEFORE_FIRST {
        let first = before_first(rt.alloc(), &element, times)?;
        agree(&rt, &first, want);
    }
    Ok(())
}

/// How many divisions two children have after a gap was narrowed so many times from both sides, and whether no label is left between them.
fn narrowed(alloc: Global, element: &Label, times: u32) -> Result<(usize, usize, bool), Fail> {
    let mut left = child_first(alloc, element)?;
    let mut right = child_after(alloc, element, &left)?;
    for _ in 0..times {
        left = child_between(alloc, element, &left, &right)?;
        right = child_between(alloc, element, &left, &right)?;
    }
    let refused = child_between(alloc, element, &left, &right);
    let none_left = matches!(refused, Err(LabelError::LabelLimit));
    Ok((left.divisions().len(), right.divisions().len(), none_left))
}

/// The same between the children of the element.
fn narrowed_in_element(alloc: Global, times: u32) -> Result<(usize, usize, bool), Fail> {
    let element = element(alloc)?;
    narrowed(alloc, &element, times)
}

#[test]
fn a_narrowing_gap_ends_at_255_divisions(rt: HostRuntime) -> Result<(), Fail> {
    assert_eq!(rt; narrowed_in_element(rt.alloc(), 251)?, (255, 255, true));
    Ok(())
}

/// Whether the label limit refuses a child behind the one with the greatest code.
fn nothing_is_behind_the_greatest(alloc: Global) -> Result<bool, Fail> {
    let root = Label::root(alloc)?;
    let divisions = List::from_vec(Vec::from_slice(alloc, &[1, 4_294_967_291])?);
    let last = Label::of_divisions(divisions).ok_or("no label")?;
    let refused = child_after(alloc, &root, &last);
    Ok(matches!(refused, Err(LabelError::LabelLimit)))
}

#[test]
fn nothing_comes_behind_the_greatest_code(rt: HostRuntime) -> Result<(), Fail> {
    assert!(rt; nothing_is_behind_the_greatest(rt.alloc())?);
    Ok(())
}
