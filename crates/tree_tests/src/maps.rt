//! Maps and walks over them, as tables worked by hand.
use crate::rows::agree;
use dewey_labels::{Label, List, Text};
use node_seq::{Answer, NodeRead, SeqError, SortedSeq, UnknownSeq, entries_above, entries_below};
use std::alloc::Global;
use std::test::Fail;
use tree_model::{Key, Record};

fn label(alloc: Global, divisions: &[u32]) -> Result<Label, Fail> {
    let divisions = List::from_vec(Vec::from_slice(alloc, divisions)?);
    Ok(Label::of_divisions(divisions).ok_or("no label")?)
}

fn key(alloc: Global, divisions: &[u32], name: &str) -> Result<Key, Fail> {
    let label = label(alloc, divisions)?;
    Ok(Key::of_attribute(alloc, &label, name)?)
}

/// A record, for a table.
#[derive(Drop, Clone, Copy)]
enum RecordRow {
    Document,
    Element(&'static str),
    Text(&'static str),
    Attr(&'static str),
}

fn record(alloc: Global, row: &RecordRow) -> Result<Record, Fail> {
    let record = match row {
        RecordRow::Document => Record::Document,
        RecordRow::Element(name) => Record::Element(Text::of(alloc, name)?),
        RecordRow::Text(data) => Record::Text(Text::of(alloc, data)?),
        RecordRow::Attr(value) => Record::Attr(Text::of(alloc, value)?),
    };
    Ok(record)
}

/// Puts a record at the key of a label and a name, and answers the old one.
fn put(
    alloc: Global,
    seq: &mut SortedSeq,
    divisions: &[u32],
    name: &str,
    row: &RecordRow,
) -> Result<Option<Record>, Fail> {
    let key = key(alloc, divisions, name)?;
    let record = record(alloc, row)?;
    Ok(seq.put(alloc, key, record)?)
}

/// A document with the element `a`, its attribute `n` and its text `t`, from the end.
const SMALL_MAP: [(&[u32], &str, RecordRow); 4] = [
    (&[1, 1001, 1001, 1001], "", RecordRow::Text("t")),
    (&[1, 1001, 1001], "n", RecordRow::Attr("5")),
    (&[1, 1001, 1001], "", RecordRow::Element("a")),
    (&[1, 1001], "", RecordRow::Document),
];

/// The map of these entries, put in from the end.
fn small_map(alloc: Global) -> Result<SortedSeq, Fail> {
    let mut seq = SortedSeq::new(alloc);
    for (divisions, name, row) in &SMALL_MAP {
        let _old = put(alloc, &mut seq, divisions, name, row)?;
    }
    Ok(seq)
}

/// Whether the text of what was found has these words.
fn reads(alloc: Global, record: Option<Record>, words: &str) -> Result<bool, Fail> {
    let text = format!(in alloc; "{record:?}")?;
    Ok(text.contains(words))
}

/// At each key: the record there, the next key's and the last key's before it.
const AROUND: [(&[u32], &str, &str, &str, &str); 6] = [
    (&[1], "", "None", "Document", "none"),
    (&[1, 1001], "", "Document", "Element", "none"),
    (&[1, 1001, 1001], "", "Element", "Attr", "Document"),
    (&[1, 1001, 1001], "m", "None", "Attr", "Element"),
    (&[1, 1001, 1001], "n", "Attr", "Text", "Element"),
    (&[1, 1001, 1001, 1003], "", "None", "none", "Text"),
];

/// Whether the record at a key has these words.
fn stands_at(alloc: Global, seq: &mut SortedSeq, key: &Key, words: &str) -> Result<bool, Fail> {
    let got = seq.get(alloc, key)?;
    reads(alloc, got, words)
}

/// The kind of the entry next above a key.
fn kind_above(alloc: Global, seq: &mut SortedSeq, key: &Key) -> Result<&'static str, Fail> {
    let next = seq.next_from(alloc, key)?;
    Ok(kind(&next))
}

/// The kind of the last entry below a key.
fn kind_below(alloc: Global, seq: &mut SortedSeq, key: &Key) -> Result<&'static str, Fail> {
    let prev = seq.prev_from(alloc, key)?;
    Ok(kind(&prev))
}

/// Whether the record at a key has these words, and the kinds of the entries above and below.
fn around(
    alloc: Global,
    seq: &mut SortedSeq,
    key: &Key,
    words: &str,
) -> Result<(bool, &'static str, &'static str), Fail> {
    let here = stands_at(alloc, seq, key, words)?;
    let above = kind_above(alloc, seq, key)?;
    let below = kind_below(alloc, seq, key)?;
    Ok((here, above, below))
}

/// The same of the small map, at the key of a label and a name.
fn small_map_around(
    alloc: Global,
    divisions: &[u32],
    name: &str,
    words: &str,
) -> Result<(bool, &'static str, &'static str), Fail> {
    let key = key(alloc, divisions, name)?;
    let mut seq = small_map(alloc)?;
    around(alloc, &mut seq, &key, words)
}

#[test]
fn a_map_answers_as_its_list_by_hand(rt: HostRuntime) -> Result<(), Fail> {
    for &(divisions, name, here, above, below) in &AROUND {
        let found = small_map_around(rt.alloc(), divisions, name, here)?;
        agree(&rt, &(divisions, name), &found, &(true, above, below));
    }
    Ok(())
}

fn kind(found: &Option<(Key, Record)>) -> &'static str {
    match found {
        None => "none",
        Some((_, record)) => record_kind(record),
    }
}

fn record_kind(record: &Record) -> &'static str {
    match record {
        Record::Document => "Document",
        Record::Element(_) => "Element",
        Record::Text(_) => "Text",
        Record::Attr(_) => "Attr",
    }
}

/// The kinds of four entries.
type FourKinds = (&'static str, &'static str, &'static str, &'static str);

/// The kinds of the entries, or `none` four times where they aren't four.
fn four_kinds(entries: &[(Key, Record)]) -> FourKinds {
    match entries {
        [(_, a), (_, b), (_, c), (_, d)] => (
            record_kind(a),
            record_kind(b),
            record_kind(c),
            record_kind(d),
        ),
        _ => ("none", "none", "none", "none"),
    }
}

/// The kinds of the small map's entries above the root's key.
fn kinds_upward(alloc: Global) -> Result<FourKinds, Fail> {
    let start = key(alloc, &[1], "")?;
    let mut seq = small_map(alloc)?;
    let up = entries_above(alloc, &start, &mut seq)?;
    Ok(four_kinds(up.as_slice()))
}

/// The kinds of the small map's entries below the key behind its document.
fn kinds_downward(alloc: Global) -> Result<FourKinds, Fail> {
    let end = key(alloc, &[1, 1003], "")?;
    let mut seq = small_map(alloc)?;
    let down = entries_below(alloc, &end, &mut seq)?;
    Ok(four_kinds(down.as_slice()))
}

#[test]
fn walks_meet_all_entries_on_their_side_in_turn(rt: HostRuntime) -> Result<(), Fail> {
    let up = kinds_upward(rt.alloc())?;
    let down = kinds_downward(rt.alloc())?;
    assert_eq!(rt; up, ("Document", "Element", "Attr", "Text"));
    assert_eq!(rt; down, ("Text", "Attr", "Element", "Document"));
    Ok(())
}

/// The small map with an attribute of the document, whose name is `1`.
fn odd_map(alloc: Global) -> Result<SortedSeq, Fail> {
    let mut seq = small_map(alloc)?;
    let _old = put(alloc, &mut seq, &[1, 1001], "1", &RecordRow::Attr("5"))?;
    Ok(seq)
}

/// Whether a tree may have the key of that attribute.
fn odd_key_is_valid(alloc: Global) -> Result<bool, Fail> {
    let odd = key(alloc, &[1, 1001], "1")?;
    Ok(odd.is_valid())
}

/// The kind of the entry next above the document's.
fn kind_above_document(alloc: Global, seq: &mut SortedSeq) -> Result<&'static str, Fail> {
    let document = key(alloc, &[1, 1001], "")?;
    kind_above(alloc, seq, &document)
}

/// The kind of a map's second entry.
fn second_kind(seq: SortedSeq) -> &'static str {
    match seq.into_entries().get(1) {
        Some((_, record)) => record_kind(record),
        None => "none",
    }
}

/// Of that map the kind of the entry above the document, the count of entries and the kind of the second.
fn met_and_kept(alloc: Global) -> Result<(&'static str, usize, &'static str), Fail> {
    let mut seq = odd_map(alloc)?;
    let above = kind_above_document(alloc, &mut seq)?;
    let count = seq.entries().len();
    Ok((above, count, second_kind(seq)))
}

#[test]
fn a_key_that_no_tree_may_have_is_kept_and_met(rt: HostRuntime) -> Result<(), Fail> {
    assert!(rt; !odd_key_is_valid(rt.alloc())?);
    assert_eq!(rt; met_and_kept(rt.alloc())?, ("Attr", 5, "Attr"));
    Ok(())
}

/// Whether a put of `6` at the attribute answers the old record with `5`.
fn put_answers_the_old(alloc: Global, seq: &mut SortedSeq) -> Result<bool, Fail> {
    let old = put(alloc, seq, &[1, 1001, 1001], "n", &RecordRow::Attr("6"))?;
    reads(alloc, old, "5")
}

/// Whether the attribute is taken out with `6`, and whether it then is gone.
fn taken_out(alloc: Global, seq: &mut SortedSeq) -> Result<(bool, bool), Fail> {
    let at = key(alloc, &[1, 1001, 1001], "n")?;
    let taken = reads(alloc, seq.del(&at), "6")?;
    Ok((taken, seq.del(&at).is_none()))
}

/// How many entries are left above the root's key, and the faults.
fn left(alloc: Global, seq: &mut SortedSeq) -> Result<(usize, u64), Fail> {
    let start = key(alloc, &[1], "")?;
    let left = entries_above(alloc, &start, seq)?;
    Ok((left.len(), seq.faults()))
}

/// What the three answer of the small map, one after another.
fn put_and_taken_out(alloc: Global) -> Result<(bool, (bool, bool), (usize, u64)), Fail> {
    let mut seq = small_map(alloc)?;
    let put = put_answers_the_old(alloc, &mut seq)?;
    let taken = taken_out(alloc, &mut seq)?;
    let left = left(alloc, &mut seq)?;
    Ok((put, taken, left))
}

#[test]
fn a_put_answers_the_old_record_and_a_del_takes_it_out(rt: HostRuntime) -> Result<(), Fail> {
    assert_eq!(rt;
        put_and_taken_out(rt.alloc())?,
        (true, (true, true), (3, 0))
    );
    Ok(())
}

/// An answer of a map that isn't known, for a table: an element with a name at a key, nothing or a fault.
#[derive(Drop, Clone, Copy)]
enum AnswerRow {
    Element(&'static [u32], &'static str, &'static str),
    Nothing,
    Fault,
}

/// The answer of an element with a name at the key of a label and a name.
fn element(alloc: Global, divisions: &[u32], at: &str, name: &str) -> Result<Answer, Fail> {
    let key = key(alloc, divisions, at)?;
    let element = Record::Element(Text::of(alloc, name)?);
    Ok(Answer::Found(key, element))
}

fn answer(alloc: Global, row: &AnswerRow) -> Result<Answer, Fail> {
    match row {
        AnswerRow::Element(divisions, at, name) => element(alloc, divisions, at, name),
        AnswerRow::Nothing => Ok(Answer::Nothing),
        AnswerRow::Fault => Ok(Answer::Fault),
    }
}

/// A map that isn't known and gives these answers.
fn unknown(alloc: Global, rows: &[AnswerRow]) -> Result<UnknownSeq, Fail> {
    let mut answers = Vec::new(alloc);
    for row in rows {
        answers.push(answer(alloc, row)?)?;
    }
    Ok(UnknownSeq { answers, faults: 0 })
}

/// How many entries a walk met, or nothing where a read failed.
fn met(walked: Result<List<(Key, Record)>, SeqError>) -> Result<Option<usize>, Fail> {
    match walked {
        Ok(entries) => Ok(Some(entries.len())),
        Err(SeqError::DiskFault) => Ok(None),
        Err(SeqError::NoMemory) => Err(Fail::from("out of memory")),
    }
}

/// How a walk over all entries above the root's key ends, and the faults that were counted.
fn walked(alloc: Global, rows: &[AnswerRow]) -> Result<(Option<usize>, u64), Fail> {
    let start = key(alloc, &[1], "")?;
    let mut seq = unknown(alloc, rows)?;
    let found = met(entries_above(alloc, &start, &mut seq))?;
    Ok((found, seq.faults()))
}

/// The answers of the reads, the entries that a walk meets, if no read fails, and the faults.
const WALKS: [(&[AnswerRow], Option<usize>, u64); 8] = [
    (&[], Some(0), 0),
    (
        &[
            AnswerRow::Element(&[1, 1001], "", "a"),
            AnswerRow::Element(&[1, 1001, 1001], "", "b"),
        ],
        Some(2),
        0,
    ),
    // A key that doesn't lie above the last one ends the walk.
    (
        &[
            AnswerRow::Element(&[1, 1001], "", "a"),
            AnswerRow::Element(&[1, 1001], "", "a"),
            AnswerRow::Element(&[1, 1003], "", "a"),
        ],
        Some(1),
        0,
    ),
    // So do a key and a record that no tree may have.
    (&[AnswerRow::Element(&[1, 1001], "1", "a")], Some(0), 0),
    (&[AnswerRow::Element(&[1, 1001], "", "1a")], Some(0), 0),
    (
        &[AnswerRow::Nothing, AnswerRow::Element(&[1, 1001], "", "a")],
        Some(0),
        0,
    ),
    (&[AnswerRow::Fault], None, 1),
    (
        &[
            AnswerRow::Element(&[1, 1001], "", "a"),
            AnswerRow::Fault,
            AnswerRow::Element(&[1, 1003], "", "a"),
        ],
        None,
        1,
    ),
];

#[test]
fn a_walk_over_a_map_that_isnt_known_ends_or_answers_the_fault(
    rt: HostRuntime,
) -> Result<(), Fail> {
    for (row, (answers, found, faults)) in WALKS.iter().enumerate() {
        let met = walked(rt.alloc(), answers)?;
        agree(&rt, &row, &met, &(*found, *faults));
    }
    Ok(())
}

/// Answers that contradict one another.
const OTHERWISE: [AnswerRow; 4] = [
    AnswerRow::Element(&[1, 1001, 1001], "", "a"),
    AnswerRow::Nothing,
    AnswerRow::Element(&[1, 1001, 1001], "", "b"),
    AnswerRow::Element(&[1, 1001, 1001], "", "b"),
];

/// Whether something stands at a key.
fn stands<S: NodeRead>(alloc: Global, seq: &mut S, at: &Key) -> Result<bool, Fail> {
    let found = seq.get(alloc, at)?;
    Ok(found.is_some())
}

/// Whether something stands at the key of 1.1001.1001, as two reads in turn answer.
fn stands_twice<S: NodeRead>(alloc: Global, seq: &mut S) -> Result<(bool, bool), Fail> {
    let at = key(alloc, &[1, 1001, 1001], "")?;
    let first = stands(alloc, seq, &at)?;
    let second = stands(alloc, seq, &at)?;
    Ok((first, second))
}

/// How many entries a walk down from the key of 1.1003 meets.
fn count_below<S: NodeRead>(alloc: Global, seq: &mut S) -> Result<usize, Fail> {
    let end = key(alloc, &[1, 1003], "")?;
    let below = entries_below(alloc, &end, seq)?;
    Ok(below.len())
}

/// What two reads and then a walk find in a map with those answers.
fn found_otherwise(alloc: Global) -> Result<((bool, bool), usize), Fail> {
    let mut seq = unknown(alloc, &OTHERWISE)?;
    let stands = stands_twice(alloc, &mut seq)?;
    let count = count_below(alloc, &mut seq)?;
    Ok((stands, count))
}

#[test]
fn a_map_that_isnt_known_may_answer_otherwise_each_time(rt: HostRuntime) -> Result<(), Fail> {
    assert_eq!(rt; found_otherwise(rt.alloc())?, ((true, false), 1));
    Ok(())
}
