//! Which threads a store and its sessions may go to.
use crate::session::{Session, Store};
use call_contract::TreeCall;
use node_seq::NodeRead;

fn sent<T: Send>(_thing: &T) {}

fn shared<T: Sync>(_thing: &T) {}

/// Where calls and the base may go to another thread, a session may too, and threads may share the store. Its proof is what it is for.
pub fn crosses<C: TreeCall + Drop + Send, B: NodeRead + Drop + Send>(
    session: &Session<C, B>,
    store: &Store<C, B>,
) {
    sent(session);
    shared(store);
}
