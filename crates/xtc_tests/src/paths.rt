//! Paths through the whole program: `find` in scripts of several sessions, and the command `query`.
//! What is found, refused and waited for is worked by hand from docs/PROFILE.md, "Paths", "Requests of calls" and "Lock modes".
use std::alloc::{AllocError, Global};
use std::process::Abort;
use std::sync::Wait;
use std::test::Fail;
use std::thread::Threads;
use xtc_cases::{
    CUT, Case, NEW, PATH_SCRIPTS, PLAIN, run_case, run_case_on, run_rows, words_of, written_out,
};

#[test]
fn each_find_is_answered_from_what_its_session_sees_and_kept_to_the_end(
    rt: HostRuntime,
) -> Result<(), Fail> {
    run_rows(&rt, rt.alloc(), PATH_SCRIPTS)
}

/// A run of `query` and its path, which may have blanks in it.
#[derive(Clone, Copy)]
struct Query<'a> {
    path: &'a str,
    case: Case<'a>,
}

/// It takes the document x, and its text is written in small pieces.
const QUERY: Case<'static> = Case {
    words: "query x",
    input: "[",
    piece: 4,
    ..PLAIN
};

/// What is found in a document of `PRICES`.
const IN_PRICES: &[Query<'static>] = &[
    Query {
        path: "/c/i[price > 10]",
        case: Case {
            text: "[\"1.1001.1001.1003\"]\n",
            ..QUERY
        },
    },
    Query {
        path: " c / i [ price = 9 or number(price) != number(price) ] / @@n ",
        case: Case {
            text: "[\"1.1001.1001.1001/@@n\",\"1.1001.1001.1007/@@n\"]\n",
            ..QUERY
        },
    },
    Query {
        path: "//i[9]",
        case: Case {
            text: "[]\n",
            ..QUERY
        },
    },
    Query {
        path: "/",
        case: Case {
            text: "[\"1.1001\"]\n",
            ..QUERY
        },
    },
    // It reads no input, and makes no call of a disk once the store is open.
    Query {
        path: ".",
        case: Case {
            text: "[\"1.1001\"]\n",
            read: 1,
            later_call: 1,
            ..QUERY
        },
    },
    // Its path is refused, whether the document is there or not.
    Query {
        path: "count(//a)",
        case: Case {
            status: "10 Path(Unsupported { place: 5, what: Text { chars: \"expression\" } })",
            ..QUERY
        },
    },
    Query {
        path: "//a[",
        case: Case {
            words: "query y",
            status: "10 Path(Syntax { place: 4 })",
            ..QUERY
        },
    },
    Query {
        path: "//a[last() div 2]",
        case: Case {
            status: "10 Path(Unsupported { place: 11, what: Text { chars: \"operator\" } })",
            ..QUERY
        },
    },
    Query {
        path: "a@51 [a@@51 ]@",
        case: Case {
            status: "10 Path(Deep { place: 101 })",
            ..QUERY
        },
    },
    Query {
        path: "-a",
        case: Case {
            words: "query x --",
            status: "10 Path(Unsupported { place: 0, what: Text { chars: \"expression\" } })",
            ..QUERY
        },
    },
    // No document has the name.
    Query {
        path: "/",
        case: Case {
            words: "query y",
            status: "10 Call(Dom(8))",
            ..QUERY
        },
    },
    // Its text can't be written, or the store not be opened.
    Query {
        path: "/",
        case: Case {
            write: 1,
            status: "6 xtc: output failed",
            ..QUERY
        },
    },
    Query {
        path: "/",
        case: Case {
            write: 2,
            status: "6 xtc: output failed",
            text: "[\"1.1001\"]\n",
            written: 4,
            ..QUERY
        },
    },
    Query {
        path: "/",
        case: Case {
            journal_call: 1,
            status: "7 xtc: disk failed",
            ..QUERY
        },
    },
];

const PRICES: Case<'static> = Case {
    words: "put x",
    input: r#"["c",["i",{"n":"1"},["price","9"]],["i",["price"," 11 "]],["i",["price","1.5"]],["i",{"n":"4"},["price","abc"]]]"#,
    journal: NEW,
    text: "\"1.1001\"\n",
    ..PLAIN
};

/// The words of a query.
fn words_of_query(alloc: Global, row: &Query<'_>) -> Result<Vec<String>, AllocError> {
    let mut words = words_of(alloc, row.case.words)?;
    words.push(written_out(alloc, row.path)?)?;
    Ok(words)
}

/// Runs a query over a journal: it ends and writes as the row says, and the journal's bytes stay.
fn run_query<'x>(
    rt: &(impl Abort + Threads + Wait + Sync),
    alloc: Global,
    journal: &'x [u8],
    row: &Query<'x>,
) -> Result<(), Fail> {
    let words = words_of_query(alloc, row)?;
    let case = Case {
        journal,
        now: Some(journal),
        ..row.case
    };
    let _outcome = run_case_on(rt, alloc, &case, &words)?;
    Ok(())
}

fn run_queries<'x>(
    rt: &(impl Abort + Threads + Wait + Sync),
    alloc: Global,
    journal: &'x [u8],
    rows: &[Query<'x>],
) -> Result<(), Fail> {
    for row in rows {
        run_query(rt, alloc, journal, row)?;
    }
    Ok(())
}

fn run_in_prices(rt: &(impl Abort + Threads + Wait + Sync), alloc: Global) -> Result<(), Fail> {
    let store = run_case(rt, alloc, &PRICES)?;
    run_queries(rt, alloc, &store.journal, IN_PRICES)
}

#[test]
fn a_query_writes_what_its_path_finds_and_leaves_the_journal(rt: HostRuntime) -> Result<(), Fail> {
    run_in_prices(&rt, rt.alloc())
}

/// A query that is refused in every respect, on a damaged journal.
const ON_DAMAGE: Query<'static> = Query {
    path: "//a[",
    case: Case {
        words: "query y",
        status: "4 xtc: damaged journal at 8",
        ..QUERY
    },
};

#[test]
fn the_store_is_opened_before_the_path_is_read(rt: HostRuntime) -> Result<(), Fail> {
    run_query(&rt, rt.alloc(), CUT, &ON_DAMAGE)
}
