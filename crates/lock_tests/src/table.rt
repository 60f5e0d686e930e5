//! Owners who meet at resources of a lock table.
use crate::modes::{COLUMNS, TABLE};
use dewey_labels::Label;
use lock_modes::{Ask, EdgeMode, Mode};
use lock_resources::{Request, Resource, Side};
use lock_table::{Asked, LockTable};
use std::alloc::Global;
use std::test::Fail;

/// A request at a node, or at an edge of it.
fn request(alloc: Global, label: &str, side: Option<Side>, ask: Ask) -> Result<Request, Fail> {
    let label = Label::read_text(alloc, label.as_bytes())?;
    let resource = match side {
        Some(side) => Resource::Edge(label, side),
        None => Resource::Node(label),
    };
    Ok(Request { resource, ask })
}

/// Who bars what was asked; nobody where it is granted.
fn barring(alloc: Global, asked: Asked) -> Vec<u32> {
    match asked {
        Asked::Granted => Vec::new(alloc),
        Asked::Conflict { holders } => holders.into_vec(),
    }
}

/// Who bars what the owner asks; nobody where it is granted.
fn asked(
    alloc: Global,
    table: &mut LockTable,
    owner: u32,
    at: (&str, Option<Side>),
    ask: Ask,
) -> Result<Vec<u32>, Fail> {
    let request = request(alloc, at.0, at.1, ask)?;
    Ok(barring(alloc, table.ask(alloc, owner, &request)?))
}

/// Whether an owner who asks for a mode at the element is barred.
fn is_barred(alloc: Global, table: &mut LockTable, owner: u32, mode: Mode) -> Result<bool, Fail> {
    Ok(!asked(alloc, table, owner, (E, None), Ask::Node(mode))?.is_empty())
}

/// Grants an owner a mode at the element, where nobody is to bar it.
fn grant(alloc: Global, table: &mut LockTable, owner: u32, mode: Mode) -> Result<(), Fail> {
    if is_barred(alloc, table, owner, mode)? {
        return Err(Fail::from("an owner is barred whom nobody is to bar"));
    }
    Ok(())
}

const E: &str = "1.1001.1001";

/// Whether another owner is barred by a mode that is held, and then holds nothing.
fn bars(alloc: Global, held: Mode, mode: Mode) -> Result<(bool, bool), Fail> {
    let mut table = LockTable::new(alloc)?;
    grant(alloc, &mut table, 1, held)?;
    let barred = is_barred(alloc, &mut table, 2, mode)?;
    Ok((barred, held_at_element(alloc, &table, 2)?.is_none()))
}

/// What an owner holds at the element.
fn held_at_element(alloc: Global, table: &LockTable, owner: u32) -> Result<Option<Ask>, Fail> {
    let node = request(alloc, E, None, Ask::Node(Mode::IR))?;
    Ok(table.held(owner, &node.resource))
}

/// The mark of a mode beside one that is held: a plus where it is granted, a minus where it is barred and then nothing is held, else a question mark.
fn mark_beside(alloc: Global, held: Mode, mode: Mode) -> Result<u8, Fail> {
    let (barred, holds_nothing) = bars(alloc, held, mode)?;
    if barred != holds_nothing {
        return Ok(b'?');
    }
    Ok(if barred { b'-' } else { b'+' })
}

/// The marks of each of `COLUMNS` beside a mode that is held.
fn marks_beside(alloc: Global, held: Mode) -> Result<[u8; 11], Fail> {
    let mut marks = [b'?'; 11];
    for (mark, mode) in marks.iter_mut().zip(&COLUMNS) {
        *mark = mark_beside(alloc, held, *mode)?;
    }
    Ok(marks)
}

#[test]
fn two_owners_meet_as_the_printed_table_says(rt: HostRuntime) -> Result<(), Fail> {
    for (held, want) in &TABLE {
        let marks = marks_beside(rt.alloc(), *held)?;
        assert_eq!(rt; marks.as_slice(), want.as_bytes(), "beside {held:?}");
    }
    Ok(())
}

/// What an owner asks for first and then, and what it holds.
const JOINS: [(Mode, Mode, Mode); 7] = [
    (Mode::LR, Mode::IX, Mode::LRIX),
    (Mode::LR, Mode::CX, Mode::LRCX),
    (Mode::SR, Mode::IX, Mode::SRIX),
    (Mode::SR, Mode::CX, Mode::SRCX),
    (Mode::IX, Mode::CX, Mode::CX),
    (Mode::CX, Mode::IR, Mode::CX),
    (Mode::NR, Mode::SX, Mode::SX),
];

/// What an owner holds that was granted both, and once it has let go.
fn joined(alloc: Global, first: Mode, then: Mode) -> Result<(Option<Ask>, Option<Ask>), Fail> {
    let mut table = LockTable::new(alloc)?;
    grant(alloc, &mut table, 1, first)?;
    grant(alloc, &mut table, 1, then)?;
    let held = held_at_element(alloc, &table, 1)?;
    table.release_all(1);
    Ok((held, held_at_element(alloc, &table, 1)?))
}

#[test]
fn an_owner_holds_the_join_of_its_grants(rt: HostRuntime) -> Result<(), Fail> {
    for (first, then, want) in &JOINS {
        let held_and_left = joined(rt.alloc(), *first, *then)?;
        assert_eq!(rt;
            held_and_left,
            (Some(Ask::Node(*want)), None),
            "{first:?}, {then:?}"
        );
    }
    Ok(())
}

/// Whether these owners bar one who asks for a mode at the element.
fn are_barring(
    alloc: Global,
    table: &mut LockTable,
    owner: u32,
    mode: Mode,
    by: &[u32],
) -> Result<bool, Fail> {
    let barred = asked(alloc, table, owner, (E, None), Ask::Node(mode))?;
    Ok(barred.as_slice() == by)
}

/// What owners ask for at the element in turn, and who bars them.
const CROWD: [(u32, Mode, &[u32]); 5] = [
    (7, Mode::LR, &[]),
    (3, Mode::LR, &[]),
    (2, Mode::IX, &[]),
    (5, Mode::SX, &[2, 3, 7]),
    (3, Mode::SX, &[2, 7]),
];

/// What they hold then.
const HELD: [(u32, Option<Ask>); 4] = [
    (2, Some(Ask::Node(Mode::IX))),
    (3, Some(Ask::Node(Mode::LR))),
    (5, None),
    (7, Some(Ask::Node(Mode::LR))),
];

/// The first owner of the crowd whom others bar than are listed.
fn barred_otherwise(alloc: Global, table: &mut LockTable) -> Result<Option<u32>, Fail> {
    for (owner, mode, by) in &CROWD {
        if !are_barring(alloc, table, *owner, *mode, by)? {
            return Ok(Some(*owner));
        }
    }
    Ok(None)
}

/// The first owner that holds otherwise than is listed, and what it holds.
fn held_otherwise(alloc: Global, table: &LockTable) -> Result<Option<(u32, Option<Ask>)>, Fail> {
    for (owner, want) in &HELD {
        let held = held_at_element(alloc, table, *owner)?;
        if held != *want {
            return Ok(Some((*owner, held)));
        }
    }
    Ok(None)
}

/// Whether 3 alone would bar 5 from a child change at the element.
fn three_would_bar(alloc: Global, table: &LockTable) -> Result<bool, Fail> {
    let request = request(alloc, E, None, Ask::Node(Mode::CX))?;
    Ok(table.barring(alloc, 5, &request)?.as_slice() == [3].as_slice())
}

/// Who of the crowd is barred otherwise than is listed, who holds otherwise, and whether 3 alone would bar 5 once 7 has let go.
type Crowd = (Option<u32>, Option<(u32, Option<Ask>)>, bool);

/// How the crowd meets.
fn crowd(alloc: Global) -> Result<Crowd, Fail> {
    let mut table = LockTable::new(alloc)?;
    let barred = barred_otherwise(alloc, &mut table)?;
    let held = held_otherwise(alloc, &table)?;
    table.release_all(7);
    Ok((barred, held, three_would_bar(alloc, &table)?))
}

#[test]
fn all_holders_are_named_and_nothing_is_changed(rt: HostRuntime) -> Result<(), Fail> {
    assert_eq!(rt; crowd(rt.alloc())?, (None, None, true));
    Ok(())
}

/// An owner, the label and the side that it asks at, its mode, and who bars it.
type Step = (u32, &'static str, Option<Side>, Ask, Option<u32>);

/// Whether an owner is barred by whom the step names, and by nobody else.
fn is_step(alloc: Global, table: &mut LockTable, step: &Step) -> Result<bool, Fail> {
    let (owner, label, side, ask, by) = step;
    let barred = asked(alloc, table, *owner, (*label, *side), *ask)?;
    Ok(barred.first().copied() == *by && barred.len() <= 1)
}

/// Whether each owner in turn is answered so.
fn is_answered(alloc: Global, table: &mut LockTable, steps: &[Step]) -> Result<bool, Fail> {
    for step in steps {
        if !is_step(alloc, table, step)? {
            return Ok(false);
        }
    }
    Ok(true)
}

/// Whether owners are answered so, and then, once the first has let go of all that it holds, so.
fn is_met(alloc: Global, steps: &[Step], then: &[Step]) -> Result<bool, Fail> {
    let mut table = LockTable::new(alloc)?;
    let first = is_answered(alloc, &mut table, steps)?;
    table.release_all(1);
    Ok(first && is_answered(alloc, &mut table, then)?)
}

const FIRST: Option<Side> = Some(Side::First);

const IX: Ask = Ask::Node(Mode::IX);

const CX: Ask = Ask::Node(Mode::CX);

const SX: Ask = Ask::Node(Mode::SX);

const IR: Ask = Ask::Node(Mode::IR);

const NR: Ask = Ask::Node(Mode::NR);

const LR: Ask = Ask::Node(Mode::LR);

const SR: Ask = Ask::Node(Mode::SR);

const ER: Ask = Ask::Edge(EdgeMode::ER);

const EX: Ask = Ask::Edge(EdgeMode::EX);

const D: &str = "1.1001";

/// One reads that an element has no child, and another would append one.
const APPEND: [Step; 11] = [
    (1, "1", None, IR, None),
    (1, D, None, IR, None),
    (1, E, None, NR, None),
    (1, E, FIRST, ER, None),
    (2, "1", None, IX, None),
    (2, D, None, IX, None),
    (2, E, None, NR, None),
    (2, E, None, CX, None),
    (2, E, Some(Side::Last), EX, None),
    (2, E, FIRST, EX, Some(1)),
    (1, E, FIRST, ER, None),
];

#[test]
fn an_append_waits_for_who_read_that_there_is_no_child(rt: HostRuntime) -> Result<(), Fail> {
    assert!(rt;
        is_met(
            rt.alloc(),
            &APPEND,
            &[(2, E, FIRST, EX, None), (1, E, FIRST, ER, Some(2))]
        )?
    );
    Ok(())
}

/// One reads the children, and another would append one.
const CHILDREN: [Step; 3] = [
    (1, E, None, LR, None),
    (2, E, None, NR, None),
    (2, E, None, CX, Some(1)),
];

#[test]
fn an_append_waits_for_who_read_the_children(rt: HostRuntime) -> Result<(), Fail> {
    assert!(rt; is_met(rt.alloc(), &CHILDREN, &[(2, E, None, CX, None)])?);
    Ok(())
}

/// Two insert between different children.
const INSERTS: [Step; 6] = [
    (1, E, None, CX, None),
    (1, "1.1001.1001.1003", Some(Side::Prev), EX, None),
    (1, "1.1001.1001.1001", Some(Side::Next), EX, None),
    (2, E, None, CX, None),
    (2, "1.1001.1001.1007", Some(Side::Prev), EX, None),
    (2, "1.1001.1001.1005", Some(Side::Next), EX, None),
];

#[test]
fn inserts_between_different_children_go_together(rt: HostRuntime) -> Result<(), Fail> {
    assert!(rt; is_met(rt.alloc(), &INSERTS, &[])?);
    Ok(())
}

/// One changes a text, and another reads two levels above it, and then one.
const TEXTS: [Step; 6] = [
    (1, D, None, IX, None),
    (1, E, None, IX, None),
    (1, "1.1001.1001.1001", None, CX, None),
    (1, "1.1001.1001.1001.1001", None, SX, None),
    (2, E, None, LR, None),
    (2, "1.1001.1001.1001", None, LR, Some(1)),
];

#[test]
fn a_changed_text_bars_its_level_and_not_the_one_above(rt: HostRuntime) -> Result<(), Fail> {
    assert!(rt;
        is_met(
            rt.alloc(),
            &TEXTS,
            &[(2, "1.1001.1001.1001", None, LR, None)]
        )?
    );
    Ok(())
}

/// One removes an element, and another looks below it.
const REMOVED: [Step; 4] = [
    (1, E, None, CX, None),
    (1, "1.1001.1001.1001", None, SX, None),
    (2, E, None, IR, None),
    (2, "1.1001.1001.1001", None, IR, Some(1)),
];

#[test]
fn a_removed_element_bars_all_that_looks_below_it(rt: HostRuntime) -> Result<(), Fail> {
    assert!(rt; is_met(rt.alloc(), &REMOVED, &[])?);
    Ok(())
}

/// One finds nothing in a document, and another would change it.
const SEARCHES: [Step; 5] = [
    (1, "1", None, IR, None),
    (1, D, None, SR, None),
    (2, "1", None, IX, None),
    (2, D, None, IX, Some(1)),
    (1, D, None, SR, None),
];

#[test]
fn an_empty_result_of_a_search_bars_changes_below(rt: HostRuntime) -> Result<(), Fail> {
    assert!(rt; is_met(rt.alloc(), &SEARCHES, &[])?);
    Ok(())
}
