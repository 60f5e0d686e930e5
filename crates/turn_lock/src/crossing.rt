//! Which threads a lock and its passes may go to.
use crate::grows::Grows;
use crate::lock::TurnLock;
use crate::pass::Pass;

fn sent<T: Send>(_thing: &T) {}

fn shared<T: Sync>(_thing: &T) {}

/// Where a value may go to another thread, its lock and a pass may too, and threads may share the lock. Its proof is what it is for.
pub fn crosses<V: Grows + Drop + Send>(lock: &TurnLock<V>, pass: &Pass<V>) {
    sent(lock);
    shared(lock);
    sent(pass);
}
