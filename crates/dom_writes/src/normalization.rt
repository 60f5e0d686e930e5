//! Adjacent texts below a node joined (DOM Level 3 Core, interface Node: `normalize`).
ghost use Rattle.std.specs.Prelude.{◌≡◌, [], OnErr};
ghost use Rattle.tree_model.specs.Texts as texts;
ghost use Rattle.node_seq.specs.ChangeLists.{IsChangeList};
ghost use Rattle.outside_traits.specs.Faults.{HasCause};
ghost use Rattle.dom_reads.specs.ReadCounts.{ReadsOfTree};
ghost use Rattle.dom_writes.specs.Changing.{ChangesAs, RepliesAs};
ghost use Rattle.dom_writes.specs.ReadCounts.{normalize_reads};

use crate::normal_texts::join_texts;
use crate::refusals::text_limit;
use crate::subtree_entries::entries_below;
use dewey_labels::Label;
use dom_reads::{is_text, not_found, record_at};
use node_seq::{NodeRead, SeqError};
use std::alloc::Global;
use tree_model::{Changes, Reply};

/// `normalize`: below the node each run of adjacent texts becomes one text, and a run without data goes; no other node changes. Refused where a joined text would be too long.
/// One read for each entry of the node's subtree and two more at most, and one of a text.
pub fn normalize<S: NodeRead>(
    alloc: Global,
    at: &Label,
    seq: &mut S,
    out: &mut Changes,
) -> Result<Reply, SeqError>
    requires empty { out.old ≡ [] }
    ensures reply { RepliesAs (S.contents seq.old) result (texts.normalize at.now) }
    ensures changes { ChangesAs (S.contents seq.old) result out.new (texts.normalize at.now) }
    ensures rise { IsChangeList out.new }
    ensures err { OnErr result (out.new ≡ out.old) }
    ensures unchanged { S.unchanged seq.old seq.new }
    ensures reads { ReadsOfTree (S.contents seq.old) (normalize_reads at.now) (S.reads seq.old) (S.reads seq.new) }
    ensures cause { HasCause SeqError.DiskFault (S.count seq.old) (S.count seq.new) result }
{
    let Some(found) = record_at(alloc, at, seq)? else {
        return Ok(not_found());
    };
    // It has nothing to join.
    if is_text(&found) {
        return Ok(Reply::Nothing);
    }
    let entries = entries_below(alloc, at, seq)?;
    if join_texts(alloc, entries.as_slice(), out)? {
        Ok(Reply::Nothing)
    } else {
        Ok(text_limit())
    }
}
