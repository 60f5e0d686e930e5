//! What paths find, and how often the map is read for it.
use crate::documents::{Held, MIXED, PRICES, TWO, map_of};
use dewey_labels::{Label, List, NoMemory};
use node_seq::{Answer, Counted, NodeRead, SeqError, UnknownSeq};
use std::alloc::Global;
use std::test::Fail;
use tree_model::{Hit, Reply};
use xpath_eval::evaluate;
use xpath_parser::parse;

/// What a path finds from the node with a label.
fn reply_of<S: NodeRead>(alloc: Global, map: &mut S, at: &str, path: &str) -> Result<Reply, Fail> {
    let at = Label::read_text(alloc, at.as_bytes())?;
    let path = parse(alloc, path)?;
    Ok(evaluate(alloc, &path, &at, map)?)
}

/// Shows a reply: of each hit its label, of an attribute with its name, and a comma.
pub fn show_reply(alloc: Global, reply: &Reply, out: &mut List<u8>) -> Result<(), NoMemory> {
    let Reply::Found(hits) = reply else {
        return out.extend_from_slice(alloc, b"refused");
    };
    for hit in hits.as_slice() {
        show_hit(alloc, hit, out)?;
    }
    Ok(())
}

fn show_hit(alloc: Global, hit: &Hit, out: &mut List<u8>) -> Result<(), NoMemory> {
    hit.label.write_text(alloc, out)?;
    if let Some(name) = &hit.attr {
        out.push(b'@')?;
        out.extend_from_slice(alloc, name.as_str().as_bytes())?;
    }
    out.push(b',')
}

/// Whether a path finds this in a document.
fn finds(
    alloc: Global,
    entries: &[(&str, Held)],
    at: &str,
    path: &str,
    wanted: &str,
) -> Result<bool, Fail> {
    let mut map = map_of(alloc, entries)?;
    let reply = reply_of(alloc, &mut map, at, path)?;
    let mut shown = List::new(alloc);
    show_reply(alloc, &reply, &mut shown)?;
    Ok(shown.as_slice() == wanted.as_bytes())
}

/// A node, a path, and what is found from there.
const FOUND_IN_MIXED: [(&str, &str, &str); 19] = [
    (
        "1.1001.1001.1009",
        "preceding-sibling::*[1]",
        "1.1001.1001.1003,",
    ),
    (
        "1.1001.1001.1009",
        "preceding-sibling::node()[1]",
        "1.1001.1001.1007,",
    ),
    (
        "1.1001.1001",
        "text()",
        "1.1001.1001.1005,1.1001.1001.1007,",
    ),
    ("1.1001.1001.1005", "..//*[2]", "1.1001.1001.1003,"),
    (
        "1.1001.1001.1001",
        "//d/preceding::text()[1]",
        "1.1001.1001.1007,",
    ),
    ("1.1001.1001.1011", "//b", "refused"),
    ("1.1001.1001", "text()[2]", "1.1001.1001.1007,"),
    ("1.1001.1001", "*[3]", "1.1001.1001.1009,"),
    ("1.1001.1001", "c[1]", "1.1001.1001.1003,"),
    ("1.1001.1001", "c[2]", ""),
    (
        "1.1001.1001.1009",
        "preceding-sibling::*[2]",
        "1.1001.1001.1001,",
    ),
    (
        "1.1001.1001.1001",
        "following-sibling::text()[1]",
        "1.1001.1001.1005,",
    ),
    (
        "1.1001.1001.1003",
        "following-sibling::*",
        "1.1001.1001.1009,",
    ),
    ("1.1001.1001.1009", "following-sibling::node()", ""),
    (
        "1.1001.1001.1001",
        "following-sibling::node()[3]",
        "1.1001.1001.1007,",
    ),
    (
        "1.1001.1001.1001",
        "following-sibling::*[position()=2]",
        "1.1001.1001.1009,",
    ),
    (
        "1.1001.1001.1009",
        "preceding-sibling::*[1=position()]",
        "1.1001.1001.1003,",
    ),
    ("1.1001.1001", "text()[2=position()]", "1.1001.1001.1007,"),
    ("1.1001.1001", "*[position()=4]", ""),
];

#[test]
fn siblings_and_texts_are_counted_along_their_axes(rt: HostRuntime) -> Result<(), Fail> {
    for (at, path, wanted) in FOUND_IN_MIXED {
        let found = finds(rt.alloc(), &MIXED, at, path, wanted)?;
        assert_eq!(rt; found, true, "at {path:?}");
    }
    Ok(())
}

/// A path from the document, and what is found.
const FOUND_IN_TWO: [(&str, &str); 7] = [
    ("//b[@k='1'][2]", ""),
    ("//b[@k='2'][1]", "1.1001.1001.1003,"),
    ("//b[2][@k='1']", ""),
    ("//b[last()]", "1.1001.1001.1003,"),
    ("//b/@k", "1.1001.1001.1001@k,1.1001.1001.1003@k,"),
    ("//@k/..", "1.1001.1001.1001,1.1001.1001.1003,"),
    ("/a//b[1]", "1.1001.1001.1001,"),
];

#[test]
fn a_predicate_counts_the_children_of_each_node(rt: HostRuntime) -> Result<(), Fail> {
    for (path, wanted) in FOUND_IN_TWO {
        let found = finds(rt.alloc(), &TWO, "1.1001", path, wanted)?;
        assert_eq!(rt; found, true, "at {path:?}");
    }
    Ok(())
}

/// Where the predicate hangs on no position one walk finds them. Worked by hand, and the same by xmllint.
const FOUND_BELOW_TWO: [(&str, &str); 5] = [
    ("//b[@k='2']", "1.1001.1001.1003,"),
    ("//*[@k]", "1.1001.1001.1001,1.1001.1001.1003,"),
    ("//*[b]", "1.1001.1001,"),
    ("//*[b/@k=2]/b", "1.1001.1001.1001,1.1001.1001.1003,"),
    ("//b[3]", ""),
];

/// The same of the prices.
const FOUND_BELOW_PRICES: [(&str, &str); 4] = [
    ("//price[. = 9]", "1.1001.1001.1001.1001,"),
    ("//text()[. > 10]", "1.1001.1001.1003.1001.1001,"),
    ("//*[price > 10]", "1.1001.1001.1003,"),
    ("//node()[text()='9']/..", "1.1001.1001.1001,"),
];

#[test]
fn a_predicate_that_hangs_on_no_position_holds_at_each_node(rt: HostRuntime) -> Result<(), Fail> {
    for (path, wanted) in FOUND_BELOW_TWO {
        let found = finds(rt.alloc(), &TWO, "1.1001", path, wanted)?;
        assert_eq!(rt; found, true, "at {path:?}");
    }
    for (path, wanted) in FOUND_BELOW_PRICES {
        let found = finds(rt.alloc(), &PRICES, "1.1001", path, wanted)?;
        assert_eq!(rt; found, true, "at {path:?}");
    }
    Ok(())
}

/// The same; what is found from one node after the other stands in document order.
const FOUND_IN_PRICES: [(&str, &str); 9] = [
    ("/c/i[3]", "1.1001.1001.1005,"),
    ("/c/i[0]", ""),
    ("/c/i[5]", ""),
    ("/c/i[2][1]/price", "1.1001.1001.1003.1001,"),
    ("/c/i[2][2]", ""),
    ("/c/i[price > 10]", "1.1001.1001.1003,"),
    ("//price[. > 10]/..", "1.1001.1001.1003,"),
    ("//node()[2]", "1.1001.1001.1003,"),
    (
        "//i[. = 9]//node()",
        "1.1001.1001.1001.1001,1.1001.1001.1001.1001.1001,",
    ),
];

#[test]
fn a_string_value_is_a_number_where_it_has_digits_alone(rt: HostRuntime) -> Result<(), Fail> {
    for (path, wanted) in FOUND_IN_PRICES {
        let found = finds(rt.alloc(), &PRICES, "1.1001", path, wanted)?;
        assert_eq!(rt; found, true, "at {path:?}");
    }
    Ok(())
}

/// The node and the document cost a read each, a row one a child and one more, a tree one a node and one more, an attribute with a name one.
/// The children of all nodes of a tree that was just seen cost none, and those behind the place that is asked for aren't read.
/// The siblings that follow a node cost a read each and one more, wherever it stands; those before it cost what the row does.
const READS_IN_PRICES: [(&str, u64); 21] = [
    ("/c", 4),
    ("/c/i", 9),
    ("/c/i[1]", 5),
    ("/c/i[3]", 7),
    ("/c/i[4]", 8),
    ("/c/i[5]", 9),
    ("/c/i[0]", 4),
    ("/c/i[2][price]", 8),
    ("/c[1]/i[2]/price", 7),
    ("/c/i[position()=1]", 5),
    ("/c/i[3=position()]", 7),
    ("/c/i[last()]", 9),
    ("/c/i[1]/following-sibling::i", 9),
    ("/c/i[3]/following-sibling::i", 9),
    ("/c/i[4]/following-sibling::i", 9),
    ("/c/i[1]/following-sibling::*[2]", 7),
    ("/c/i[3]/following-sibling::i[1]", 8),
    ("/c/i[3]/preceding-sibling::i", 12),
    ("//i", 16),
    ("//i/price", 24),
    ("//i[@k]", 20),
];

#[test]
fn a_path_reads_what_its_looks_show_and_one_more_each(rt: HostRuntime) -> Result<(), Fail> {
    for (path, wanted) in READS_IN_PRICES {
        let mut map = Counted::new(map_of(rt.alloc(), &PRICES)?);
        let _reply = reply_of(rt.alloc(), &mut map, "1.1001", path)?;
        assert_eq!(rt; map.calls(), wanted, "at {path:?}");
    }
    Ok(())
}

/// Twelve steps to all elements, each in a predicate of the one before; only the last asks for a name.
const NESTED: [(&str, &str, u64); 4] = [
    (
        "//*[//*[//*[//*[//*[//*[//*[//*[//*[//*[//*[//price]]]]]]]]]]]",
        "1.1001.1001,1.1001.1001.1001,1.1001.1001.1001.1001,1.1001.1001.1003,1.1001.1001.1003.1001,1.1001.1001.1005,1.1001.1001.1005.1001,1.1001.1001.1007,1.1001.1001.1007.1001,",
        400,
    ),
    (
        "//*[//*[//*[//*[//*[//*[//*[//*[//*[//*[//*[//none]]]]]]]]]]]",
        "",
        400,
    ),
    (
        "//price[..//*[..//*[..//*[..//*[..//*[..//*[..//*[..//text()]]]]]]]]",
        "1.1001.1001.1001.1001,1.1001.1001.1003.1001,1.1001.1001.1005.1001,1.1001.1001.1007.1001,",
        1200,
    ),
    (
        "//i[not(//*[not(//*[not(//*[not(//*[not(//*[not(//none)])])])])])]",
        "",
        2500,
    ),
];

#[test]
fn predicates_in_predicates_are_evaluated_once_where_they_say_the_same(
    rt: HostRuntime,
) -> Result<(), Fail> {
    for (path, wanted, most) in NESTED {
        let found = finds(rt.alloc(), &PRICES, "1.1001", path, wanted)?;
        assert_eq!(rt; found, true, "at {path:?}");
        let mut map = Counted::new(map_of(rt.alloc(), &PRICES)?);
        let _reply = reply_of(rt.alloc(), &mut map, "1.1001", path)?;
        assert_eq!(rt; map.calls() <= most, true, "at {path:?}: {}", map.calls());
    }
    Ok(())
}

/// Whether a fault ends the evaluation of a path.
fn ends_with_a_fault(alloc: Global) -> Result<bool, Fail> {
    let mut answers = Vec::new(alloc);
    answers.push(Answer::Fault)?;
    let mut map = UnknownSeq { answers, faults: 0 };
    let at = Label::read_text(alloc, b"1.1001")?;
    let path = parse(alloc, "//b")?;
    let ended = evaluate(alloc, &path, &at, &mut map);
    Ok(matches!(ended, Err(SeqError::DiskFault)))
}

#[test]
fn a_fault_ends_the_evaluation(rt: HostRuntime) -> Result<(), Fail> {
    assert!(rt; ends_with_a_fault(rt.alloc())?);
    Ok(())
}
