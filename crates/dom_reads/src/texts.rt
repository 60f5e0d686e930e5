//! The calls on a text's characters (DOM Level 3 Core, interface CharacterData).
ghost use Rattle.std.specs.Prelude.{◌≡◌, ◌-◌, ◌^◌, length as length_of, IfOk, ◌≤◌, ◌+◌};
ghost use Rattle.std.specs.Str.{chars};
ghost use Rattle.tree_model.specs.Texts as texts;
ghost use Rattle.node_seq.specs.Trees.{OnTree};
ghost use Rattle.outside_traits.specs.Faults.{HasCause};
ghost use Rattle.dom_reads.specs.inside.Counts.{at_most};
ghost use Rattle.dom_reads.specs.inside.Substrings.{substring_in};

use crate::record_at;
use crate::refusals::{index_size, not_found, not_supported};
use crate::text_cuts::cut;
use dewey_labels::{Label, NoMemory, Text};
use node_seq::{NodeRead, SeqError};
use std::alloc::Global;
use tree_model::{Record, Reply};

/// `length`, in characters. One read.
pub fn length<S: NodeRead>(alloc: Global, at: &Label, seq: &mut S) -> Result<Reply, SeqError>
    ensures reply { OnTree (S.contents seq.old) result (λ t reply. reply ≡ texts.text_length at.now t) }
    ensures unchanged { S.unchanged seq.old seq.new }
    ensures reads { S.reads seq.new ≤ S.reads seq.old + 1 }
    ensures cause { HasCause SeqError.DiskFault (S.count seq.old) (S.count seq.new) result }
{
    match record_at(alloc, at, seq)? {
        Some(Record::Text(data)) => Ok(Reply::Number(characters(data.as_str()))),
        Some(_) => Ok(not_supported()),
        None => Ok(not_found()),
    }
}

/// The count of a text's characters. What a tree may have is far below the greatest number.
fn characters(text: &str) -> u32
    ensures { result ≡ at_most (2 ^ 32 - 1) (length_of (chars text.now)) }
{
    let count = count_of(text);
    if count > u32::MAX as usize {
        u32::MAX
    } else {
        count as u32
    }
}

fn count_of(text: &str) -> usize
    ensures { result ≡ length_of (chars text.now) }
{
    text.chars().count()
}

/// `substringData`, in characters. One read.
pub fn substring<S: NodeRead>(
    alloc: Global,
    at: &Label,
    offset: u32,
    count: u32,
    seq: &mut S,
) -> Result<Reply, SeqError>
    ensures reply { OnTree (S.contents seq.old) result (λ t reply. reply ≡ texts.substring at.now offset count t) }
    ensures unchanged { S.unchanged seq.old seq.new }
    ensures reads { S.reads seq.new ≤ S.reads seq.old + 1 }
    ensures cause { HasCause SeqError.DiskFault (S.count seq.old) (S.count seq.new) result }
{
    match record_at(alloc, at, seq)? {
        Some(Record::Text(data)) => Ok(part(alloc, data.as_str(), offset, count)?),
        Some(_) => Ok(not_supported()),
        None => Ok(not_found()),
    }
}

/// The characters of a text from an offset on, at most a count of them.
fn part(alloc: Global, text: &str, offset: u32, count: u32) -> Result<Reply, NoMemory>
    ensures { IfOk result (λ reply. reply ≡ substring_in offset count text.now) }
{
    match cut(text, offset) {
        Some((_, rest)) => {
            let part = first_characters(rest, count);
            Ok(Reply::Chars(Text::of(alloc, part)?))
        }
        None => Ok(index_size()),
    }
}

/// The first characters of a text, at most a count of them.
fn first_characters(text: &str, count: u32) -> &str
    ensures { result.now ≡ texts.data_before count text.now }
{
    match cut(text, count) {
        Some((before, _)) => before,
        None => text,
    }
}
