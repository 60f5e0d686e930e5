//! Where a text stops being a path, and why.
use std::alloc::Global;
use std::test::Fail;
use xpath_parser::{PathError, parse};

/// The refusal's name, place and reason, by a copy of it; nothing where the text is a path.
fn told(alloc: Global, text: &str) -> Result<String, Fail> {
    let Err(refusal) = parse(alloc, text) else {
        return Ok(String::new(alloc));
    };
    match refusal.copy(alloc)? {
        PathError::Syntax { place } => Ok(format!(in alloc; "Syntax {place}")?),
        PathError::Unsupported { place, what } => {
            Ok(format!(in alloc; "Unsupported {place} {}", what.as_str())?)
        }
        PathError::Deep { place } => Ok(format!(in alloc; "Deep {place}")?),
        PathError::NoMemory => Err(Fail::from("no memory")),
    }
}

/// Each text is refused as the row says: nothing where it is a path.
fn refused_so(alloc: Global, rows: &[(&str, &str)]) -> Result<(), Fail> {
    for (text, refusal) in rows {
        let answer = told(alloc, text)?;
        if answer.as_str() != *refusal {
            return Err(Fail::from(format!(in alloc; "{text}: {answer}")?));
        }
    }
    Ok(())
}

/// Paths, of which nothing is refused.
const PATHS: [(&str, &str); 15] = [
    ("/", ""),
    (".", ""),
    ("..", ""),
    ("//a", ""),
    ("/a//b/../@k", ""),
    (" / a / child :: b ", ""),
    ("and/or[div and mod]", ""),
    ("*[* * *]", ""),
    ("a:b[c:d = 'x']", ""),
    ("text()/node()", ""),
    ("a[1and 2]", ""),
    ("a[. = \"it's\"]", ""),
    ("a[substring(., 1, 2) = concat('x', 'y', 'z')]", ""),
    ("a[count(//b[c]) > sum(@k)]", ""),
    ("a[999999999999999999]", ""),
];

#[test]
fn paths_are_not_refused(rt: HostRuntime) -> Result<(), Fail> {
    refused_so(rt.alloc(), &PATHS)
}

/// Refused at the end of the text.
const ENDS: [(&str, &str); 14] = [
    ("", "Syntax 0"),
    (" ", "Syntax 1"),
    ("//", "Syntax 2"),
    ("a/", "Syntax 2"),
    ("//a[", "Syntax 4"),
    ("a['x'", "Syntax 5"),
    ("\u{E9}[", "Syntax 3"),
    ("/a/", "Syntax 3"),
    ("a//", "Syntax 3"),
    ("child::", "Syntax 7"),
    ("@", "Syntax 1"),
    ("a/text(", "Syntax 7"),
    ("a[1 and", "Syntax 7"),
    ("a[not(", "Syntax 6"),
];

#[test]
fn what_is_left_open_is_refused_at_the_end(rt: HostRuntime) -> Result<(), Fail> {
    refused_so(rt.alloc(), &ENDS)
}

/// Steps.
const STEPS: [(&str, &str); 34] = [
    (".[1]", "Syntax 1"),
    ("..[1]", "Syntax 2"),
    ("/[1]", "Syntax 1"),
    ("..5", "Syntax 2"),
    ("a b", "Syntax 2"),
    ("@child::a", "Syntax 6"),
    ("foo::a", "Syntax 3"),
    ("b:c::d", "Syntax 3"),
    ("a:b:c", "Syntax 3"),
    ("///a", "Syntax 2"),
    ("a/ /b", "Syntax 3"),
    ("a: :b", "Syntax 1"),
    ("child::child::a", "Syntax 12"),
    ("@@a", "Syntax 1"),
    ("@..", "Syntax 1"),
    (".a", "Syntax 1"),
    ("a,b", "Syntax 1"),
    ("a)", "Syntax 1"),
    ("]", "Syntax 0"),
    ("#", "Syntax 0"),
    ("a\u{A0}", "Syntax 1"),
    ("a\u{D7}", "Syntax 1"),
    ("\u{B7}a", "Syntax 0"),
    ("a\0", "Syntax 1"),
    ("namespace::a", "Unsupported 9 axis"),
    ("a/comment()", "Unsupported 9 node test"),
    ("processing-instruction('x')", "Unsupported 22 node test"),
    ("a:*", "Unsupported 0 prefix"),
    ("@b:*", "Unsupported 1 prefix"),
    ("child::b:*", "Unsupported 7 prefix"),
    ("comment()", "Unsupported 7 node test"),
    ("text(1)", "Syntax 5"),
    ("a/count(b)", "Syntax 7"),
    ("a/foo(1)", "Syntax 5"),
];

#[test]
fn the_first_token_that_no_step_goes_on_with_is_refused(rt: HostRuntime) -> Result<(), Fail> {
    refused_so(rt.alloc(), &STEPS)
}

/// Expressions of XPath 1.0 that are no path.
const EXPRESSIONS: [(&str, &str); 18] = [
    ("count(//a)", "Unsupported 5 expression"),
    ("$x", "Unsupported 0 expression"),
    ("$", "Syntax 0"),
    ("'x'", "Unsupported 0 expression"),
    ("(a)", "Unsupported 0 expression"),
    ("a = b", "Unsupported 2 expression"),
    ("a and b", "Unsupported 2 expression"),
    ("a | b", "Unsupported 2 expression"),
    ("a div b", "Unsupported 2 expression"),
    ("a mod b", "Unsupported 2 expression"),
    ("a -b", "Unsupported 2 expression"),
    ("a[b]/c = d", "Unsupported 7 expression"),
    ("id('x')", "Unsupported 2 expression"),
    ("-a", "Unsupported 0 expression"),
    ("5", "Unsupported 0 expression"),
    ("1a", "Unsupported 0 expression"),
    ("1.5", "Unsupported 0 expression"),
    ("$x/b", "Unsupported 0 expression"),
];

#[test]
fn expressions_that_are_no_path_are_unsupported(rt: HostRuntime) -> Result<(), Fail> {
    refused_so(rt.alloc(), &EXPRESSIONS)
}

/// Parts of predicates that XPath 1.0 has and this profile leaves out.
const UNSUPPORTED: [(&str, &str); 34] = [
    ("a[$x]", "Unsupported 2 variable"),
    ("a[-$x]", "Unsupported 3 variable"),
    ("\u{E9}\u{65E5}[$x]", "Unsupported 6 variable"),
    ("a[b:c(1)]", "Unsupported 5 function"),
    ("a[id('x')]", "Unsupported 4 function"),
    ("//a[last() div 2]", "Unsupported 11 operator"),
    ("a[b | c]", "Unsupported 4 operator"),
    ("a[1 | 2]", "Unsupported 4 operator"),
    ("a[-b | c]", "Unsupported 5 operator"),
    ("a[(b | c)]", "Unsupported 5 operator"),
    ("a[b + c | d]", "Unsupported 8 operator"),
    ("a[concat(b | c, d)]", "Unsupported 11 operator"),
    ("a[count(b)|c]", "Unsupported 10 operator"),
    ("a[b mod]", "Unsupported 4 operator"),
    ("a[1 mod 2]", "Unsupported 4 operator"),
    ("a[1.5]", "Unsupported 2 fraction"),
    ("a[.5]", "Unsupported 2 fraction"),
    ("a[1.]", "Unsupported 2 fraction"),
    ("a[1..2]", "Unsupported 2 fraction"),
    ("a[b = .5]", "Unsupported 6 fraction"),
    ("a[1000000000000000000]", "Unsupported 2 number"),
    ("a[0000000000000000001]", "Unsupported 2 number"),
    ("a[(b)[1]]", "Unsupported 5 filter"),
    ("a['x'/b]", "Unsupported 5 filter"),
    ("a[string(b)//c]", "Unsupported 11 filter"),
    ("a[1[2]]", "Unsupported 3 filter"),
    ("a[count(b)/c]", "Unsupported 10 filter"),
    ("a[count((b))]", "Unsupported 8 argument"),
    ("a[count(1)]", "Unsupported 8 argument"),
    ("a[sum(b + 1)]", "Unsupported 8 argument"),
    ("a[count(b | c)]", "Unsupported 10 operator"),
    ("a[comment()]", "Unsupported 9 node test"),
    ("a[namespace::b]", "Unsupported 11 axis"),
    ("a[b:*]", "Unsupported 2 prefix"),
];

#[test]
fn what_the_profile_leaves_out_of_predicates_is_unsupported(rt: HostRuntime) -> Result<(), Fail> {
    refused_so(rt.alloc(), &UNSUPPORTED)
}

/// Predicates that no expression of XPath 1.0 goes on with, and wrong counts of arguments.
const SYNTAX: [(&str, &str); 29] = [
    ("a[- -1 + +1]", "Syntax 9"),
    ("a[$ x]", "Syntax 2"),
    ("a[b$c]", "Syntax 3"),
    ("a[count(b, c)]", "Syntax 9"),
    ("a[true(1)]", "Syntax 7"),
    ("a[not()]", "Syntax 6"),
    ("a[concat(b)]", "Syntax 10"),
    ("a[starts-with(b, c, d)]", "Syntax 18"),
    ("a[count()]", "Syntax 8"),
    ("a[position(1)]", "Syntax 11"),
    ("a[substring(b)]", "Syntax 13"),
    ("a[substring(b, 1, 2, 3)]", "Syntax 19"),
    ("a['x]", "Syntax 2"),
    ("a[!b]", "Syntax 2"),
    ("a[1 or-self]", "Syntax 4"),
    ("a[1 div1]", "Syntax 4"),
    ("a[b)]", "Syntax 3"),
    ("a[]", "Syntax 2"),
    ("a[1]]", "Syntax 4"),
    ("a[1 2]", "Syntax 4"),
    ("a[b=]", "Syntax 4"),
    ("a[b == c]", "Syntax 5"),
    ("a[b < = c]", "Syntax 6"),
    ("a[b ! = c]", "Syntax 4"),
    ("a['it''s']", "Syntax 6"),
    ("a[.b]", "Syntax 3"),
    ("a[/ * 2]", "Syntax 6"),
    ("a[/ and b]", "Syntax 8"),
    ("a[b/count(c)]", "Syntax 9"),
];

#[test]
fn the_first_token_that_no_predicate_goes_on_with_is_refused(rt: HostRuntime) -> Result<(), Fail> {
    refused_so(rt.alloc(), &SYNTAX)
}

/// So many copies of a part between two texts.
fn nested(
    alloc: Global,
    front: &str,
    part: &str,
    count: usize,
    back: &str,
) -> Result<String, Fail> {
    let mut text = String::from_str(alloc, front)?;
    for _ in 0..count {
        text.push_str(part)?;
    }
    text.push_str(back)?;
    Ok(text)
}

/// A front, a part that is repeated so often, a back, and how the text is refused.
const DEEP: [(&str, &str, usize, &str, &str); 13] = [
    ("a", "[a", 51, "", "Deep 101"),
    ("a", "[a", 50, "", "Syntax 101"),
    ("a[", "-", 49, "1]", ""),
    ("a[", "-", 50, "1]", "Deep 51"),
    ("a[", "(", 50, "1", "Deep 51"),
    ("a[", "not(", 50, "1", "Deep 201"),
    ("a[", "-(", 25, "1", "Deep 51"),
    ("a[", "concat(1, ", 50, "1", "Deep 498"),
    ("a[", "-", 49, "not(1)]", "Deep 54"),
    ("a[", "-", 49, "id(1)]", "Unsupported 53 function"),
    ("a[", "-", 49, "text()]", ""),
    ("a", "[b]", 60, "", ""),
    ("a[1", " + (1)", 60, "]", ""),
];

#[test]
fn the_51st_nested_part_is_refused(rt: HostRuntime) -> Result<(), Fail> {
    for &(front, part, count, back, refusal) in &DEEP {
        let text = nested(rt.alloc(), front, part, count, back)?;
        assert_eq!(rt;
            told(rt.alloc(), text.as_str())?.as_str(),
            refusal,
            "{text}"
        );
    }
    Ok(())
}

/// A front, a part that is repeated fifty thousand times, and a back: a path, which is copied and let go of.
const LONG: [(&str, &str, &str); 4] = [
    ("a[1", "+1", "]"),
    ("a", "/b", ""),
    ("a[concat('', ''", ",''", ")]"),
    ("a", "[1]", ""),
];

#[test]
fn chains_and_lists_of_any_length_are_read_copied_and_let_go_of(
    rt: HostRuntime,
) -> Result<(), Fail> {
    for &(front, part, back) in &LONG {
        let text = nested(rt.alloc(), front, part, 50_000, back)?;
        let Ok(path) = parse(rt.alloc(), text.as_str()) else {
            return Err(Fail::from("no path"));
        };
        let _copy = path.copy(rt.alloc())?;
    }
    Ok(())
}
