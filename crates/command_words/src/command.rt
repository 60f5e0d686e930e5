//! What the words ask for.

/// A command of the program.
#[derive(Clone, Copy, Debug)]
pub enum Command<'a> {
    /// The script of the input is run.
    Run,
    /// The script of the input is run by a worker for each of its sessions.
    Workers,
    /// A document with this name is made from the input.
    Put(&'a str),
    /// The document with this name is written.
    Get(&'a str),
    /// What a path finds from the document with this name is written.
    Query(&'a str, &'a str),
    /// The script of the generator with this seed and count of books is run.
    Gen { seed: u32, count: u32 },
}
