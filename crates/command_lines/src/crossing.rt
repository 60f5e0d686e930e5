//! Which threads commands and calls may go to.
use crate::command::{Command, StoreCall};

fn sent<T: Send>(_thing: &T) {}

fn shared<T: Sync>(_thing: &T) {}

/// Commands and calls go to other threads, and threads share them. Its proof is what it is for.
pub fn crosses(command: &Command, call: &StoreCall) {
    sent(command);
    shared(command);
    sent(call);
    shared(call);
}
