//! Documents for tests, as the entries of their maps.
use dewey_labels::{Label, Text};
use node_seq::SortedSeq;
use std::alloc::Global;
use std::test::Fail;
use tree_model::{Key, Record};

/// What stands at a label.
#[derive(Debug, Drop, Clone, Copy)]
pub enum Held {
    Document,
    /// An element with its name.
    Element(&'static str),
    Text(&'static str),
    /// An attribute with its name and value.
    Attr(&'static str, &'static str),
}

/// `["a",["b",{"k":"1"}],["b",{"k":"2"}]]`
pub const TWO: [(&str, Held); 6] = [
    ("1.1001", Held::Document),
    ("1.1001.1001", Held::Element("a")),
    ("1.1001.1001.1001", Held::Element("b")),
    ("1.1001.1001.1001", Held::Attr("k", "1")),
    ("1.1001.1001.1003", Held::Element("b")),
    ("1.1001.1001.1003", Held::Attr("k", "2")),
];

/// `["a",["b"],["c"],"x","y",["d"]]`
pub const MIXED: [(&str, Held); 7] = [
    ("1.1001", Held::Document),
    ("1.1001.1001", Held::Element("a")),
    ("1.1001.1001.1001", Held::Element("b")),
    ("1.1001.1001.1003", Held::Element("c")),
    ("1.1001.1001.1005", Held::Text("x")),
    ("1.1001.1001.1007", Held::Text("y")),
    ("1.1001.1001.1009", Held::Element("d")),
];

/// `["c",["i",["price","9"]],["i",["price"," 11 "]],["i",["price","1.5"]],["i",["price","abc"]]]`
pub const PRICES: [(&str, Held); 14] = [
    ("1.1001", Held::Document),
    ("1.1001.1001", Held::Element("c")),
    ("1.1001.1001.1001", Held::Element("i")),
    ("1.1001.1001.1001.1001", Held::Element("price")),
    ("1.1001.1001.1001.1001.1001", Held::Text("9")),
    ("1.1001.1001.1003", Held::Element("i")),
    ("1.1001.1001.1003.1001", Held::Element("price")),
    ("1.1001.1001.1003.1001.1001", Held::Text(" 11 ")),
    ("1.1001.1001.1005", Held::Element("i")),
    ("1.1001.1001.1005.1001", Held::Element("price")),
    ("1.1001.1001.1005.1001.1001", Held::Text("1.5")),
    ("1.1001.1001.1007", Held::Element("i")),
    ("1.1001.1001.1007.1001", Held::Element("price")),
    ("1.1001.1001.1007.1001.1001", Held::Text("abc")),
];

/// The map of these entries.
pub fn map_of(alloc: Global, entries: &[(&str, Held)]) -> Result<SortedSeq, Fail> {
    let mut map = SortedSeq::new(alloc);
    for (label, held) in entries {
        let label = Label::read_text(alloc, label.as_bytes())?;
        let (name, record) = entry(alloc, held)?;
        let key = Key::of_attribute(alloc, &label, name)?;
        let _old = map.put(alloc, key, record)?;
    }
    Ok(map)
}

/// Its name in keys, and its record.
fn entry(alloc: Global, held: &Held) -> Result<(&'static str, Record), Fail> {
    Ok(match held {
        Held::Document => ("", Record::Document),
        Held::Element(name) => ("", Record::Element(Text::of(alloc, name)?)),
        Held::Text(data) => ("", Record::Text(Text::of(alloc, data)?)),
        Held::Attr(name, value) => (name, Record::Attr(Text::of(alloc, value)?)),
    })
}
