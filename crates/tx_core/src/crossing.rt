//! Which threads a core may go to.
use crate::engine::Core;
use call_contract::TreeCall;
use node_seq::NodeRead;

fn sent<T: Send>(_thing: &T) {}

/// Where calls and the base may go to another thread, a core may too. Its proof is what it is for.
pub fn crosses<C: TreeCall + Drop + Send, B: NodeRead + Drop + Send>(core: &Core<C, B>) {
    sent(core);
}
