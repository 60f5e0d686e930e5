//! Which threads a group commit and its members may go to.
use crate::group::GroupCommit;
use crate::member::Member;
use call_contract::TreeCall;
use node_seq::NodeRead;
use outside_traits::Disk;

fn sent<T: Send>(_thing: &T) {}

fn shared<T: Sync>(_thing: &T) {}

/// Where calls, the base and the journal's disk may go to another thread, a member may too, and threads may share the group commit. Its proof is what it is for.
pub fn crosses<C: TreeCall + Drop + Send, B: NodeRead + Drop + Send, J: Disk + Send>(
    member: &Member<C, B, J>,
    group: &GroupCommit<C, B, J>,
) {
    sent(member);
    shared(group);
}
