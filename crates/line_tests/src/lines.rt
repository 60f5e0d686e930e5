//! Lines and replies, as the manual's tables have them.
use crate::fragments::nested;
use command_lines::{
    BadLine, Command, LineAnswer, LineReply, SessionRefusal, read_line, write_reply,
};
use dewey_labels::{Label, List, NoMemory, Text};
use lock_modes::{Ask, EdgeMode};
use lock_resources::{Resource, Side};
use std::alloc::Global;
use std::test::Fail;
use tree_model::{Hit, Refusal, Reply};

/// The reply's line, without its end.
fn written(alloc: Global, reply: &LineReply) -> Result<String, Fail> {
    let mut out = List::new(alloc);
    write_reply(alloc, reply, &mut out)?;
    match str::from_utf8(out.as_slice()) {
        Ok(text) => Ok(String::from_str(alloc, text.trim_end())?),
        Err(_) => Err(Fail::from("no text")),
    }
}

/// Whether the reply, and a copy of it, is written so. It is let go of in one place, since each place takes the proof long.
fn writes(alloc: Global, reply: LineReply, want: &str) -> Result<bool, Fail> {
    let copy = reply.copy(alloc);
    drop(reply);
    let copy = copy?;
    let text = written(alloc, &copy);
    drop(copy);
    Ok(text?.as_str() == want)
}

/// The reason of a copy of a bad line; empty where the line is a command or blank.
fn reason(alloc: Global, line: &[u8]) -> Result<Text, Fail> {
    match read_line(alloc, line) {
        Ok(command) => {
            drop(command);
            Ok(Text::of(alloc, "")?)
        }
        Err(bad) => match bad.copy(alloc)? {
            BadLine::Why(why) => Ok(why),
            BadLine::NoMemory => Err(Fail::from("no memory")),
        },
    }
}

/// A line, and the reason that it is bad; none of a command or a blank line.
const REASONS: [(&str, &str); 44] = [
    ("", ""),
    (" \t\r", ""),
    ("\u{c}", "json"),
    ("nope", "json"),
    ("{\"s\":1e999}", "json"),
    ("[]", "object"),
    ("{\"call\":\"begin\"}", "s"),
    ("{\"s\":0,\"call\":\"begin\"}", "s"),
    ("{\"s\":65,\"call\":\"begin\"}", "s"),
    ("{\"s\":-0,\"call\":\"begin\"}", "s"),
    ("{\"s\":1}", "call"),
    ("{\"s\":1,\"call\":\"zap\"}", "call"),
    ("{\"s\":64,\"call\":\"begin\"}", ""),
    ("{\"s\":65,\"s\":1,\"call\":\"zap\",\"call\":\"begin\"}", ""),
    ("{\"s\":1,\"call\":\"begin\",\"x\":0}", "extra"),
    ("{\"s\":1,\"call\":\"first\"}", "at"),
    ("{\"s\":1,\"call\":\"first\",\"at\":\"1\"}", "at"),
    ("{\"s\":1,\"call\":\"first\",\"at\":\"01.3\"}", "at"),
    ("{\"s\":1,\"call\":\"first\",\"at\":\"1.2\"}", "at"),
    ("{\"s\":1,\"call\":\"first\",\"at\":7}", "at"),
    ("{\"s\":1,\"call\":\"first\",\"at\":7,\"x\":0}", "at"),
    (
        "{\"s\":1,\"call\":\"substring\",\"at\":\"1.1001\",\"offset\":-1,\"count\":1}",
        "offset",
    ),
    (
        "{\"s\":1,\"call\":\"substring\",\"at\":\"1.1001\",\"offset\":-0,\"count\":1}",
        "offset",
    ),
    (
        "{\"s\":1,\"call\":\"substring\",\"at\":\"1.1001\",\"offset\":0,\"count\":4294967296}",
        "count",
    ),
    (
        "{\"s\":1,\"call\":\"substring\",\"at\":\"1.1001\",\"offset\":0,\"count\":4294967295}",
        "",
    ),
    ("{\"s\":1,\"call\":\"create\",\"name\":\"x\"}", ""),
    (
        "{\"s\":1,\"call\":\"create\",\"name\":\"x\",\"tree\":null}",
        "",
    ),
    (
        "{\"s\":1,\"call\":\"create\",\"name\":\"x\",\"tree\":[\"a\",{\"n\":1.5}]}",
        "tree Fraction /1/n",
    ),
    (
        "{\"s\":1,\"call\":\"create\",\"name\":\"x\",\"tree\":[\"1a\"]}",
        "tree BadName /0",
    ),
    ("{\"s\":1,\"call\":\"append\",\"at\":\"1.1001\"}", "tree"),
    (
        "{\"s\":1,\"call\":\"append\",\"at\":\"1.1001\",\"tree\":null}",
        "tree NotJsonMl ",
    ),
    (
        "{\"s\":1,\"call\":\"insert\",\"at\":\"1.1001\",\"tree\":\"t\"}",
        "before",
    ),
    (
        "{\"s\":1,\"call\":\"insert\",\"at\":\"1.1001\",\"before\":null,\"tree\":\"t\"}",
        "",
    ),
    ("{\"s\":1,\"call\":\"find\",\"path\":\"a\"}", "at"),
    (
        "{\"s\":1,\"call\":\"find\",\"at\":\"1\",\"path\":\"[\"}",
        "at",
    ),
    ("{\"s\":1,\"call\":\"find\",\"at\":\"1.1001\"}", "path"),
    (
        "{\"s\":1,\"call\":\"find\",\"at\":\"1.1001\",\"path\":null}",
        "path",
    ),
    (
        "{\"s\":1,\"call\":\"find\",\"at\":\"1.1001\",\"path\":\"\"}",
        "path Syntax 0",
    ),
    (
        "{\"s\":1,\"call\":\"find\",\"at\":\"1.1001\",\"path\":\"a[\",\"x\":0}",
        "path Syntax 2",
    ),
    (
        "{\"s\":1,\"call\":\"find\",\"at\":\"1.1001\",\"path\":\"é|b\"}",
        "path Unsupported 2",
    ),
    (
        "{\"s\":1,\"call\":\"find\",\"at\":\"1.1001\",\"path\":\"a[--------------------------------------------------1]\"}",
        "path Deep 51",
    ),
    (
        "{\"s\":1,\"call\":\"find\",\"at\":\"1.1001\",\"path\":\"a[((((((((((((((((((((((((((((((((((((((((((((((((((\"}",
        "path Deep 51",
    ),
    (
        "{\"s\":1,\"call\":\"find\",\"at\":\"1.1001\",\"path\":\"a\",\"x\":0}",
        "extra",
    ),
    (
        "{\"s\":1,\"call\":\"find\",\"at\":\"1.1001\",\"path\":\"//b[@id='x']/title\"}",
        "",
    ),
];

#[test]
fn the_first_reason_that_holds_is_given(rt: HostRuntime) -> Result<(), Fail> {
    let alloc = rt.alloc();
    for &(line, want) in &REASONS {
        let why = reason(alloc, line.as_bytes())?;
        assert_eq!(rt; why.as_str(), want, "{line}");
    }
    assert_eq!(rt; reason(alloc, &[0xFF])?.as_str(), "json");
    Ok(())
}

/// The reason of so many arrays, one in the other.
fn reason_of_arrays(alloc: Global, count: usize) -> Result<Text, Fail> {
    let line = nested(alloc, count, "[", "", "]")?;
    reason(alloc, line.as_bytes())
}

#[test]
fn arrays_nest_127_deep_in_a_line(rt: HostRuntime) -> Result<(), Fail> {
    assert_eq!(rt; reason_of_arrays(rt.alloc(), 127)?.as_str(), "object");
    assert_eq!(rt; reason_of_arrays(rt.alloc(), 128)?.as_str(), "json");
    Ok(())
}

fn label(alloc: Global, text: &str) -> Result<Label, Fail> {
    Ok(Label::read_text(alloc, text.as_bytes())?)
}

fn numbers(alloc: Global, numbers: &[u32]) -> Result<List<u32>, NoMemory> {
    let mut list = List::new(alloc);
    list.extend_from_slice(alloc, numbers)?;
    Ok(list)
}

fn said(session: u32, answer: LineAnswer) -> LineReply {
    LineReply::Said {
        session,
        woke: false,
        answer,
    }
}

fn refused(why: Refusal) -> LineReply {
    said(1, LineAnswer::Reply(Reply::Refused(why)))
}

/// What a session is answered after it had waited.
fn woke(session: u32, answer: LineAnswer) -> LineReply {
    LineReply::Said {
        session,
        woke: true,
        answer,
    }
}

#[test]
fn answers_are_written_in_the_order_of_keys(rt: HostRuntime) -> Result<(), Fail> {
    let alloc = rt.alloc();
    let two = said(1, LineAnswer::Reply(Reply::Number(2)));
    assert!(rt; writes(alloc, two, "{\"ok\":2,\"s\":1}")?);
    let null = said(1, LineAnswer::Reply(Reply::Nothing));
    assert!(rt; writes(alloc, null, "{\"ok\":null,\"s\":1}")?);
    let place = Reply::Place(Some(label(alloc, "1.1001.1001")?));
    let place = woke(2, LineAnswer::Reply(place));
    assert!(rt;
        writes(
            alloc,
            place,
            "{\"ok\":\"1.1001.1001\",\"s\":2,\"woke\":true}"
        )?
    );
    let cycle = LineAnswer::Deadlock(numbers(alloc, &[2, 1])?);
    assert!(rt; writes(alloc, said(2, cycle), "{\"deadlock\":[2,1],\"s\":2}")?);
    Ok(())
}

#[test]
fn refusals_are_written_by_their_names(rt: HostRuntime) -> Result<(), Fail> {
    let alloc = rt.alloc();
    let none = refused(Refusal::Dom(8));
    assert!(rt;
        writes(
            alloc,
            none,
            "{\"err\":{\"code\":8,\"name\":\"NOT_FOUND_ERR\"},\"s\":1}"
        )?
    );
    let deep = refused(Refusal::TooDeep);
    assert!(rt; writes(alloc, deep, "{\"err\":{\"name\":\"TooDeep\"},\"s\":1}")?);
    let waiting = said(2, LineAnswer::Session(SessionRefusal::IsWaiting));
    assert!(rt; writes(alloc, waiting, "{\"err\":{\"name\":\"IsWaiting\"},\"s\":2}")?);
    Ok(())
}

/// Session 2 waits for session 1 at the edge to an element's first child.
fn wait(alloc: Global) -> Result<LineReply, Fail> {
    let on = Resource::Edge(label(alloc, "1.1001.1001")?, Side::First);
    let by = numbers(alloc, &[1])?;
    let asks = Ask::Edge(EdgeMode::EX);
    Ok(said(2, LineAnswer::Wait { on, asks, by }))
}

fn order(alloc: Global) -> Result<LineReply, Fail> {
    let mut commits = List::new(alloc);
    commits.push((2, 1))?;
    commits.push((1, 1))?;
    Ok(LineReply::Order(commits))
}

#[test]
fn waits_bad_lines_and_the_order_are_written(rt: HostRuntime) -> Result<(), Fail> {
    let alloc = rt.alloc();
    let want = "{\"s\":2,\"wait\":{\"asks\":\"EX\",\"by\":[1],\"on\":\"first 1.1001.1001\"}}";
    assert!(rt; writes(alloc, wait(alloc)?, want)?);
    let why = Text::of(alloc, "tree BadName /0")?;
    let bad = LineReply::Bad { why, line: 3 };
    assert!(rt; writes(alloc, bad, "{\"bad\":\"tree BadName /0\",\"line\":3}")?);
    assert!(rt; writes(alloc, order(alloc)?, "{\"order\":[[2,1],[1,1]]}")?);
    Ok(())
}

fn hit(alloc: Global, attr: Option<Text>) -> Result<Hit, Fail> {
    Ok(Hit {
        label: label(alloc, "1.1001.1001")?,
        attr,
    })
}

/// An element and its attribute `id`.
fn hits(alloc: Global) -> Result<List<Hit>, Fail> {
    let element = hit(alloc, None)?;
    let name = Text::of(alloc, "id")?;
    let attribute = hit(alloc, Some(name))?;
    Ok(List::from_vec(vec![in alloc; element, attribute]?))
}

#[test]
fn what_a_path_finds_is_written_by_labels(rt: HostRuntime) -> Result<(), Fail> {
    let alloc = rt.alloc();
    let found = said(1, LineAnswer::Reply(Reply::Found(hits(alloc)?)));
    let want = "{\"ok\":[\"1.1001.1001\",\"1.1001.1001/@id\"],\"s\":1}";
    assert!(rt; writes(alloc, found, want)?);
    let none = said(1, LineAnswer::Reply(Reply::Found(List::new(alloc))));
    assert!(rt; writes(alloc, none, "{\"ok\":[],\"s\":1}")?);
    Ok(())
}

/// Whether a copy of the command is made.
fn is_copied(alloc: Global, command: Command) -> bool {
    let copy = command.copy(alloc);
    drop(command);
    let made = copy.is_ok();
    drop(copy);
    made
}

#[test]
fn commands_are_copied(rt: HostRuntime) -> Result<(), Fail> {
    let alloc = rt.alloc();
    for line in [
        "{\"s\":1,\"call\":\"first\",\"at\":\"1.1001\"}",
        "{\"s\":1,\"call\":\"find\",\"at\":\"1.1001\",\"path\":\"/a\"}",
    ] {
        let Ok(Some(command)) = read_line(alloc, line.as_bytes()) else {
            return Err(Fail::from("no command"));
        };
        assert!(rt; is_copied(alloc, command));
    }
    Ok(())
}
