//! All reading calls in one.
ghost use Rattle.std.specs.Prelude.{◌≡◌, IfSome, IsTrue, ◌≤◌, ◌+◌};
ghost use Rattle.tree_model.specs.DomCalls.{dom};
ghost use Rattle.node_seq.specs.Trees.{OnTree};
ghost use Rattle.outside_traits.specs.Faults.{HasCause};
ghost use Rattle.dom_reads.specs.ReadCounts.{ReadsOfTree, few_reads, most_reads};
ghost use Rattle.dom_reads.specs.Reading.{is_reading};

use crate::attributes::{attr, attrs, has_attr};
use crate::documents::{doc, docs};
use crate::navigation::{children, first, last, next, node, parent, prev};
use crate::subtrees::{dump, tags, text_content};
use crate::texts::{length, substring};
use node_seq::{NodeRead, SeqError};
use std::alloc::Global;
use tree_model::{DomCall, Reply};

/// Whether a call reads alone.
pub fn is_reading(call: &DomCall) -> bool
    ensures { result ≡ is_reading call.now }
{
    matches!(
        call,
        DomCall::Docs
            | DomCall::Doc(_)
            | DomCall::Node(_)
            | DomCall::Parent(_)
            | DomCall::First(_)
            | DomCall::Last(_)
            | DomCall::Next(_)
            | DomCall::Prev(_)
            | DomCall::Children(_)
            | DomCall::Attr(..)
            | DomCall::HasAttr(..)
            | DomCall::Attrs(_)
            | DomCall::TextContent(_)
            | DomCall::Tags(..)
            | DomCall::Dump(_)
            | DomCall::Length(_)
            | DomCall::Substring(..)
    )
}

/// Answers a call that reads alone; `is_reading` says which do. A refusal is a reply.
pub fn dom_read<S: NodeRead>(alloc: Global, call: &DomCall, seq: &mut S) -> Result<Reply, SeqError>
    requires reading { IsTrue (is_reading call.now) }
    ensures reply { OnTree (S.contents seq.old) result (λ t reply. reply ≡ (dom call.now t).0) }
    ensures unchanged { S.unchanged seq.old seq.new }
    ensures reads { ReadsOfTree (S.contents seq.old) (most_reads call.now) (S.reads seq.old) (S.reads seq.new) }
    ensures few { IfSome (few_reads call.now) (λ most. S.reads seq.new ≤ S.reads seq.old + most) }
    ensures cause { HasCause SeqError.DiskFault (S.count seq.old) (S.count seq.new) result }
{
    match call {
        DomCall::Docs => docs(alloc, seq),
        DomCall::Doc(name) => doc(alloc, name, seq),
        DomCall::Node(at) => node(alloc, at, seq),
        DomCall::Parent(at) => parent(alloc, at, seq),
        DomCall::First(at) => first(alloc, at, seq),
        DomCall::Last(at) => last(alloc, at, seq),
        DomCall::Next(at) => next(alloc, at, seq),
        DomCall::Prev(at) => prev(alloc, at, seq),
        DomCall::Children(at) => children(alloc, at, seq),
        DomCall::Attr(at, name) => attr(alloc, at, name, seq),
        DomCall::HasAttr(at, name) => has_attr(alloc, at, name, seq),
        DomCall::Attrs(at) => attrs(alloc, at, seq),
        DomCall::TextContent(at) => text_content(alloc, at, seq),
        DomCall::Tags(at, name) => tags(alloc, at, name, seq),
        DomCall::Dump(at) => dump(alloc, at, seq),
        DomCall::Length(at) => length(alloc, at, seq),
        DomCall::Substring(at, offset, count) => substring(alloc, at, *offset, *count, seq),
        _ => unreachable!(),
    }
}
