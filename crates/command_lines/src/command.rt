//! What a line asks for.
ghost use Rattle.std.specs.Prelude.{◌≡◌, IfOk};

use dewey_labels::{Copied, Label, NoMemory};
use path_model::XPath;
use std::alloc::Global;
use tree_model::DomCall;

/// What a session is asked to do.
#[derive(Debug, Drop)]
pub struct Command {
    /// From 1 to 64.
    pub session: u32,
    pub what: What,
}

#[derive(Debug, Drop)]
pub enum What {
    Begin,
    Commit,
    Abort,
    Call(StoreCall),
}

/// A call on the store's tree.
#[derive(Debug, Drop)]
pub enum StoreCall {
    Dom(DomCall),
    /// The nodes and attributes that a path finds from a node.
    Find { at: Label, path: XPath },
}

impl Command {
    pub fn copy(&self, alloc: Global) -> Result<Command, NoMemory>
        ensures { IfOk result (λ copy. copy ≡ self.now) }
    {
        Ok(Command {
            session: self.session,
            what: self.what.copy(alloc)?,
        })
    }
}

impl Copied for Command {
    fn copy(&self, alloc: Global) -> Result<Command, NoMemory> {
        Command::copy(self, alloc)
    }
}

impl What {
    pub fn copy(&self, alloc: Global) -> Result<What, NoMemory>
        ensures { IfOk result (λ copy. copy ≡ self.now) }
    {
        match self {
            What::Begin => Ok(What::Begin),
            What::Commit => Ok(What::Commit),
            What::Abort => Ok(What::Abort),
            What::Call(call) => Ok(What::Call(call.copy(alloc)?)),
        }
    }
}

impl Copied for What {
    fn copy(&self, alloc: Global) -> Result<What, NoMemory> {
        What::copy(self, alloc)
    }
}

impl StoreCall {
    pub fn copy(&self, alloc: Global) -> Result<StoreCall, NoMemory>
        ensures { IfOk result (λ copy. copy ≡ self.now) }
    {
        match self {
            StoreCall::Dom(call) => Ok(StoreCall::Dom(call.copy(alloc)?)),
            StoreCall::Find { at, path } => Ok(StoreCall::Find {
                at: at.copy(alloc)?,
                path: path.copy(alloc)?,
            }),
        }
    }
}

impl Copied for StoreCall {
    fn copy(&self, alloc: Global) -> Result<StoreCall, NoMemory> {
        StoreCall::copy(self, alloc)
    }
}
