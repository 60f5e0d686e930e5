//! All changing calls in one.
ghost use Rattle.std.specs.Prelude.{◌≡◌, OnErr, ◌≤◌, ◌+◌, IfSome};
ghost use Rattle.node_seq.specs.ChangeLists.{IsChangeList};
ghost use Rattle.outside_traits.specs.Faults.{HasCause};
ghost use Rattle.dom_reads.specs.ReadCounts.{ReadsOfTree};
ghost use Rattle.dom_writes.specs.Changing.{AnswersAsDom, MayChange};
ghost use Rattle.dom_writes.specs.ReadCounts.{few_reads, most_reads_of_change};

use crate::attributes::{remove_attr, rename, set_attr};
use crate::content::set_text;
use crate::data::{append_data, delete_data, insert_data, replace_data, set_data};
use crate::documents::create;
use crate::drops::drop_document;
use crate::normalization::normalize;
use crate::placing::{append, insert};
use crate::removals::{remove, replace};
use crate::splits::split_text;
use node_seq::{NodeRead, SeqError};
use std::alloc::Global;
use tree_model::{Changes, DomCall, Reply};

/// Makes a call that may change the tree: its reply, with its changes in `out`, one for each key whose record differs after it, by rising keys.
/// A refusal is a reply, and a refused call has no changes. What is in `out` after an error is nothing.
pub fn dom_write<S: NodeRead>(
    alloc: Global,
    call: &DomCall,
    seq: &mut S,
    out: &mut Changes,
) -> Result<Reply, SeqError>
    requires may_change { MayChange out.old call.now }
    ensures answers { AnswersAsDom (S.contents seq.old) call.now result out.new }
    ensures rise { IsChangeList out.new }
    ensures err { OnErr result (out.new ≡ out.old) }
    ensures unchanged { S.unchanged seq.old seq.new }
    ensures reads { ReadsOfTree (S.contents seq.old) (most_reads_of_change call.now) (S.reads seq.old) (S.reads seq.new) }
    ensures few { IfSome (few_reads call.now) (λ most. S.reads seq.new ≤ S.reads seq.old + most) }
    ensures cause { HasCause SeqError.DiskFault (S.count seq.old) (S.count seq.new) result }
{
    match call {
        DomCall::Create(name, fragment) => create(alloc, name, fragment.as_ref(), seq, out),
        DomCall::Drop(name) => drop_document(alloc, name, seq, out),
        DomCall::Append(at, fragment) => append(alloc, at, fragment, seq, out),
        DomCall::Insert(at, before, fragment) => {
            insert(alloc, at, before.as_ref(), fragment, seq, out)
        }
        DomCall::Replace(at, old, fragment) => replace(alloc, at, old, fragment, seq, out),
        DomCall::Remove(at, old) => remove(alloc, at, old, seq, out),
        DomCall::SetAttr(at, name, value) => set_attr(alloc, at, name, value, seq, out),
        DomCall::RemoveAttr(at, name) => remove_attr(alloc, at, name, seq, out),
        DomCall::Rename(at, name) => rename(alloc, at, name, seq, out),
        DomCall::SetData(at, data) => set_data(alloc, at, data, seq, out),
        DomCall::AppendData(at, data) => append_data(alloc, at, data, seq, out),
        DomCall::InsertData(at, offset, data) => insert_data(alloc, at, *offset, data, seq, out),
        DomCall::DeleteData(at, offset, count) => {
            delete_data(alloc, at, *offset, *count, seq, out)
        }
        DomCall::ReplaceData(at, offset, count, data) => {
            replace_data(alloc, at, *offset, *count, data, seq, out)
        }
        DomCall::SplitText(at, offset) => split_text(alloc, at, *offset, seq, out),
        DomCall::Normalize(at) => normalize(alloc, at, seq, out),
        DomCall::SetText(at, data) => set_text(alloc, at, data, seq, out),
        _ => unreachable!(),
    }
}
