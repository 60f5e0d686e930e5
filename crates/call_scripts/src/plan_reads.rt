//! How many reads of the map a call's requests may take.
use tree_model::DomCall;

/// The most reads of a call's plan: of no call does it read a subtree, a level or all attributes of a node.
pub fn most_plan_reads(call: &DomCall) -> u64 {
    match call {
        DomCall::Docs | DomCall::Doc(_) | DomCall::Node(_) => 0,
        DomCall::First(_)
        | DomCall::Last(_)
        | DomCall::Next(_)
        | DomCall::Prev(_)
        | DomCall::Create(..)
        | DomCall::RemoveAttr(..)
        | DomCall::SplitText(..) => 2,
        DomCall::Append(..) | DomCall::Insert(..) | DomCall::Drop(_) => 3,
        DomCall::Remove(..) | DomCall::Replace(..) => 4,
        _ => 1,
    }
}
