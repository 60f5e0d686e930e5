//! The commands of one document: each with its input, over a store, and how it ends.
use std::test::Fail;
use xtc_cases::{CUT, Case, NEW, NO_DOCUMENT, PLAIN, SIXTY, run_cases};

/// The sixty bytes, and behind them the commit of document y with the element b.
const TWO: &[u8] =
    b"\x01XTCJRN1\x01\0\0\0\0\x01\0\0\0\x29\x01\x01\0x\0\0\0\0\x07\x041.1001\x01\x01\x83\x69\0\0\0\0\0\x01\x01\x01\x01\x83\x69\x83\x69\0\0\0\0\0\x02\x02a\x01\0\0\0\0\x02\0\0\0\x29\x01\x01\0y\0\0\0\0\x07\x041.1003\x01\x01\x83\x6b\0\0\0\0\0\x01\x01\x01\x01\x83\x6b\x83\x69\0\0\0\0\0\x02\x02b\0";

/// A run of `put x` on a new store, whose input comes in small pieces.
const PUT: Case<'static> = Case {
    words: "put x",
    piece: 7,
    journal: NEW,
    now: Some(NEW),
    ..PLAIN
};

/// A run of `get x` where the document is there.
const GET: Case<'static> = Case {
    words: "get x",
    piece: 7,
    journal: SIXTY,
    text: "[\"a\"]\n",
    now: Some(SIXTY),
    ..PLAIN
};

const ENDS: &[Case<'static>] = &[
    // A document is created and read, once.
    Case {
        input: r#"["a"]"#,
        text: "\"1.1001\"\n",
        now: Some(SIXTY),
        ..PUT
    },
    Case {
        input: " [ \"a\" ]\r\n",
        journal: b"",
        text: "\"1.1001\"\n",
        now: Some(SIXTY),
        ..PUT
    },
    Case { ..GET },
    Case {
        input: r#"["b"]"#,
        journal: SIXTY,
        status: "10 Call(DocumentExists)",
        now: Some(SIXTY),
        ..PUT
    },
    Case {
        words: "put y",
        input: r#"["b"]"#,
        journal: SIXTY,
        text: "\"1.1003\"\n",
        now: Some(TWO),
        ..PUT
    },
    Case {
        words: "get y",
        journal: TWO,
        text: "[\"b\"]\n",
        now: Some(TWO),
        ..GET
    },
    // No document has the name, or may have it.
    Case {
        words: "get y",
        status: "10 Call(Dom(8))",
        text: "",
        ..GET
    },
    Case {
        journal: b"",
        status: "10 Call(Dom(8))",
        text: "",
        now: Some(NEW),
        ..GET
    },
    Case {
        words: "get ",
        status: "10 Call(Dom(8))",
        text: "",
        ..GET
    },
    Case {
        words: "put 1a",
        input: r#"["a"]"#,
        journal: SIXTY,
        status: "10 Call(Dom(5))",
        now: Some(SIXTY),
        ..PUT
    },
    Case {
        words: "put ",
        input: r#"["a"]"#,
        status: "10 Call(Dom(5))",
        ..PUT
    },
    Case {
        words: "put -- -x",
        input: r#"["a"]"#,
        status: "10 Call(Dom(5))",
        ..PUT
    },
    Case {
        words: "put -",
        input: r#"["a"]"#,
        status: "10 Call(Dom(5))",
        ..PUT
    },
    // The input isn't an element in JsonML.
    Case {
        input: "[1]",
        status: "9 NotJsonMl at /0",
        ..PUT
    },
    Case {
        input: r#""t""#,
        status: "9 NotJsonMl at ",
        ..PUT
    },
    Case {
        input: "[",
        status: "9 NotJson at ",
        ..PUT
    },
    Case {
        input: "",
        status: "9 NotJson at ",
        ..PUT
    },
    Case {
        input: r#"["a",{"n":1.5}]"#,
        status: "9 Fraction at /1/n",
        ..PUT
    },
    Case {
        input: r#"["a",["1a"]]"#,
        status: "9 BadName at /1/0",
        ..PUT
    },
    Case {
        input: r#"["a",{"n":[]}]"#,
        status: "9 NotJsonMl at /1/n",
        ..PUT
    },
    Case {
        input: r#"@100 ["a",@["a"]@100 ]@"#,
        status: "9 TooDeep at @100 /1@",
        ..PUT
    },
    Case {
        input: r#"@100 ["a",@"t"@100 ]@"#,
        status: "9 TooDeep at @100 /1@",
        ..PUT
    },
    Case {
        input: r#"["a","@1048577 x@"]"#,
        status: "9 TextLimit at /1",
        ..PUT
    },
    Case {
        input: r#"["a",{"k":"@1048577 x@"}]"#,
        status: "9 TextLimit at /1/k",
        ..PUT
    },
    // An input of several pieces is judged once it is whole, whatever its first piece is.
    Case {
        input: "[\"a\"]@65531  @x",
        journal: SIXTY,
        piece: 65_536,
        status: "9 NotJson at ",
        now: Some(SIXTY),
        ..PUT
    },
    // The words are tested first, then the store is opened, then the input is read.
    Case {
        words: "put -x",
        input: "[",
        journal: CUT,
        status: "2 xtc: usage",
        now: Some(CUT),
        ..PUT
    },
    Case {
        input: "[",
        journal: CUT,
        status: "4 xtc: damaged journal at 8",
        now: Some(CUT),
        ..PUT
    },
    Case {
        journal: CUT,
        status: "4 xtc: damaged journal at 8",
        text: "",
        now: Some(CUT),
        ..GET
    },
    Case {
        journal: NO_DOCUMENT,
        status: "4 xtc: damaged tree at 1",
        text: "",
        now: Some(NO_DOCUMENT),
        ..GET
    },
    // An input of `put` may have 16,777,216 bytes, and a line 1,048,576; the first line here has 22 and its end.
    Case {
        input: r#"["a"]"#,
        bytes: 16_777_216,
        piece: 65_536,
        text: "\"1.1001\"\n",
        now: Some(SIXTY),
        ..PUT
    },
    Case {
        input: r#"["a"]"#,
        bytes: 16_777_217,
        piece: 65_536,
        status: "3 xtc: line 0 is too long",
        ..PUT
    },
    Case {
        words: "run",
        input: "{\"s\":1,\"call\":\"begin\"}\n[]",
        bytes: 1_048_599,
        piece: 65_536,
        text: "{\"ok\":1,\"s\":1}\n{\"bad\":\"object\",\"line\":2}\n",
        ..PUT
    },
    Case {
        words: "run",
        input: "{\"s\":1,\"call\":\"begin\"}\n[]",
        bytes: 1_048_600,
        piece: 65_536,
        status: "3 xtc: line 2 is too long",
        text: "{\"ok\":1,\"s\":1}\n",
        ..PUT
    },
];

#[test]
fn each_command_of_a_document_ends_and_writes_as_its_input_and_store_have_it(
    rt: HostRuntime,
) -> Result<(), Fail> {
    run_cases(&rt, rt.alloc(), ENDS)
}

const ROUND_TRIPS: &[Case<'static>] = &[
    Case {
        input: r#"["a",{"n":5,"t":true,"z":null},"",["b"],"x","y"]"#,
        text: "\"1.1001\"\n",
        now: None,
        then: "0 [\"a\",{\"n\":\"5\",\"t\":\"true\",\"z\":\"\"},\"\",[\"b\"],\"x\",\"y\"]\n",
        ..PUT
    },
    Case {
        input: r#"["a", "\u00e9\n"]"#,
        text: "\"1.1001\"\n",
        now: None,
        then: "0 [\"a\",\"\u{e9}\\n\"]\n",
        ..PUT
    },
    // An input of 100,000 bytes, of which the first piece is no JSON.
    Case {
        input: r#"["a","@99992 x@"]"#,
        piece: 65_536,
        text: "\"1.1001\"\n",
        now: None,
        then: "0 [\"a\",\"@99992 x@\"]\n",
        ..PUT
    },
    // The deepest level and the longest text.
    Case {
        input: r#"@99 ["a",@["a"]@99 ]@"#,
        text: "\"1.1001\"\n",
        now: None,
        then: "0 @99 [\"a\",@[\"a\"]@99 ]@\n",
        ..PUT
    },
    Case {
        input: r#"["a","@1048576 x@"]"#,
        text: "\"1.1001\"\n",
        now: None,
        then: "0 [\"a\",\"@1048576 x@\"]\n",
        ..PUT
    },
    // A document without an element.
    Case {
        words: "run",
        input: "{\"s\":1,\"call\":\"begin\"}\n{\"s\":1,\"call\":\"create\",\"name\":\"x\",\"tree\":null}\n{\"s\":1,\"call\":\"commit\"}\n",
        text: "{\"ok\":1,\"s\":1}\n{\"ok\":\"1.1001\",\"s\":1}\n{\"ok\":1,\"s\":1}\n",
        now: None,
        then: "0 null\n",
        ..PUT
    },
];

#[test]
fn what_is_put_is_what_is_got(rt: HostRuntime) -> Result<(), Fail> {
    run_cases(&rt, rt.alloc(), ROUND_TRIPS)
}

const FAULTS: &[Case<'static>] = &[
    Case {
        input: r#"["a"]"#,
        piece: 4,
        read: 1,
        status: "5 xtc: input failed",
        ..PUT
    },
    Case {
        input: r#"["a"]"#,
        piece: 4,
        read: 2,
        status: "5 xtc: input failed",
        ..PUT
    },
    Case {
        input: r#"["a"]"#,
        piece: 4,
        write: 1,
        status: "6 xtc: output failed",
        now: Some(SIXTY),
        ..PUT
    },
    Case {
        input: r#"["a"]"#,
        piece: 4,
        write: 2,
        status: "6 xtc: output failed",
        text: "\"1.1001\"\n",
        written: 4,
        now: Some(SIXTY),
        ..PUT
    },
    // Whether the document is there is sure of the first two calls of its commit alone.
    Case {
        input: r#"["a"]"#,
        later_call: 1,
        status: "7 xtc: disk failed",
        now: None,
        then: "10 Call(Dom(8))",
        ..PUT
    },
    Case {
        input: r#"["a"]"#,
        later_call: 2,
        status: "7 xtc: disk failed",
        now: None,
        then: "10 Call(Dom(8))",
        ..PUT
    },
    Case {
        input: r#"["a"]"#,
        later_call: 3,
        status: "7 xtc: disk failed",
        now: None,
        ..PUT
    },
    Case {
        input: r#"["a"]"#,
        later_call: 4,
        status: "7 xtc: disk failed",
        now: None,
        ..PUT
    },
    // `get` reads no input and commits nothing.
    Case { read: 1, ..GET },
    Case {
        piece: 4,
        write: 1,
        status: "6 xtc: output failed",
        text: "",
        ..GET
    },
    Case {
        piece: 4,
        write: 2,
        status: "6 xtc: output failed",
        written: 4,
        ..GET
    },
    Case {
        later_call: 1,
        ..GET
    },
    // A fault of the opening.
    Case {
        input: r#"["a"]"#,
        journal: SIXTY,
        journal_call: 1,
        status: "7 xtc: disk failed",
        now: Some(SIXTY),
        ..PUT
    },
    Case {
        journal_call: 1,
        status: "7 xtc: disk failed",
        text: "",
        ..GET
    },
];

#[test]
fn a_fault_ends_a_command_and_what_was_committed_stays(rt: HostRuntime) -> Result<(), Fail> {
    run_cases(&rt, rt.alloc(), FAULTS)
}
