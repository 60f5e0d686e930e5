//! The printed tables of the lock modes, row by row.
use lock_modes::{Ask, EdgeMode, Mode, ReadPart, WritePart};

/// The modes in the order of the printed table's columns.
pub const COLUMNS: [Mode; 11] = [
    Mode::IR,
    Mode::NR,
    Mode::LR,
    Mode::SR,
    Mode::IX,
    Mode::LRIX,
    Mode::SRIX,
    Mode::CX,
    Mode::LRCX,
    Mode::SRCX,
    Mode::SX,
];

/// A mode held by one owner, and at each column whether another may hold that.
pub const TABLE: [(Mode, &str); 11] = [
    (Mode::IR, "++++++++++-"),
    (Mode::NR, "++++++++++-"),
    (Mode::LR, "+++++++----"),
    (Mode::SR, "++++-------"),
    (Mode::IX, "+++-++-++--"),
    (Mode::LRIX, "+++-++-----"),
    (Mode::SRIX, "+++--------"),
    (Mode::CX, "++--+--+---"),
    (Mode::LRCX, "++--+------"),
    (Mode::SRCX, "++---------"),
    (Mode::SX, "-----------"),
];

/// The marks of a mode: a plus at each column whose mode another may hold beside it.
fn marks_of(mode: Mode) -> [u8; 11] {
    let mut marks = [b'-'; 11];
    for (mark, other) in marks.iter_mut().zip(&COLUMNS) {
        if mode.compatible(*other) {
            *mark = b'+';
        }
    }
    marks
}

#[test]
fn modes_go_together_as_the_printed_table_says(rt: HostRuntime) {
    for (mode, marks) in &TABLE {
        assert_eq!(rt;
            marks_of(*mode).as_slice(),
            marks.as_bytes(),
            "beside {mode:?}"
        );
    }
}

/// Two modes and their join.
const JOINS: [(Mode, Mode, Mode); 9] = [
    (Mode::LR, Mode::IX, Mode::LRIX),
    (Mode::LR, Mode::CX, Mode::LRCX),
    (Mode::SR, Mode::IX, Mode::SRIX),
    (Mode::SR, Mode::CX, Mode::SRCX),
    (Mode::IR, Mode::IR, Mode::IR),
    (Mode::IR, Mode::CX, Mode::CX),
    (Mode::NR, Mode::LR, Mode::LR),
    (Mode::IX, Mode::CX, Mode::CX),
    (Mode::SRIX, Mode::LRCX, Mode::SRCX),
];

#[test]
fn a_join_takes_the_greater_of_each_part(rt: HostRuntime) {
    for (mode, other, want) in &JOINS {
        let joins = (mode.join(*other), other.join(*mode));
        assert_eq!(rt;
            joins,
            (*want, *want),
            "{mode:?} with {other:?}, and the other way round"
        );
    }
}

#[test]
fn exclusive_with_anything_stays_exclusive(rt: HostRuntime) {
    for mode in &COLUMNS {
        let joins = (mode.join(Mode::SX), Mode::SX.join(*mode));
        assert_eq!(rt; joins, (Mode::SX, Mode::SX));
    }
}

/// A mode and its parts.
const PARTS: [(Mode, Option<(ReadPart, WritePart)>); 11] = [
    (Mode::IR, Some((ReadPart::I, WritePart::NoWrite))),
    (Mode::NR, Some((ReadPart::N, WritePart::NoWrite))),
    (Mode::LR, Some((ReadPart::L, WritePart::NoWrite))),
    (Mode::SR, Some((ReadPart::S, WritePart::NoWrite))),
    (Mode::IX, Some((ReadPart::N, WritePart::IX))),
    (Mode::LRIX, Some((ReadPart::L, WritePart::IX))),
    (Mode::SRIX, Some((ReadPart::S, WritePart::IX))),
    (Mode::CX, Some((ReadPart::N, WritePart::CX))),
    (Mode::LRCX, Some((ReadPart::L, WritePart::CX))),
    (Mode::SRCX, Some((ReadPart::S, WritePart::CX))),
    (Mode::SX, None),
];

#[test]
fn each_mode_has_its_parts(rt: HostRuntime) {
    for (mode, want) in &PARTS {
        assert_eq!(rt; mode.parts(), *want, "{mode:?}");
    }
}

/// Two modes of an edge, their join, and whether they go together.
const EDGES: [(EdgeMode, EdgeMode, EdgeMode, bool); 4] = [
    (EdgeMode::ER, EdgeMode::ER, EdgeMode::ER, true),
    (EdgeMode::ER, EdgeMode::EX, EdgeMode::EX, false),
    (EdgeMode::EX, EdgeMode::ER, EdgeMode::EX, false),
    (EdgeMode::EX, EdgeMode::EX, EdgeMode::EX, false),
];

#[test]
fn only_readers_share_an_edge(rt: HostRuntime) {
    for (mode, other, joined, together) in &EDGES {
        let meets = (mode.join(*other), mode.compatible(*other));
        assert_eq!(rt; meets, (*joined, *together));
    }
}

/// What is asked for, and its name.
const NAMES: [(Ask, &str); 13] = [
    (Ask::Node(Mode::IR), "IR"),
    (Ask::Node(Mode::NR), "NR"),
    (Ask::Node(Mode::LR), "LR"),
    (Ask::Node(Mode::SR), "SR"),
    (Ask::Node(Mode::IX), "IX"),
    (Ask::Node(Mode::LRIX), "LRIX"),
    (Ask::Node(Mode::SRIX), "SRIX"),
    (Ask::Node(Mode::CX), "CX"),
    (Ask::Node(Mode::LRCX), "LRCX"),
    (Ask::Node(Mode::SRCX), "SRCX"),
    (Ask::Node(Mode::SX), "SX"),
    (Ask::Edge(EdgeMode::ER), "ER"),
    (Ask::Edge(EdgeMode::EX), "EX"),
];

#[test]
fn a_mode_has_its_name(rt: HostRuntime) {
    for (ask, want) in &NAMES {
        assert_eq!(rt; ask.name(), *want);
    }
}
