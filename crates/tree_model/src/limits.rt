//! The limits of a tree beside those on divisions. The clauses of `Key::is_valid`, `is_name` and `Record::fits` tie them to the definitions.

/// The greatest level of a node; the root has level 0 and a document level 1.
pub const DEEPEST_LEVEL: u32 = 101;

/// The most bytes of a name.
pub const MOST_NAME_BYTES: usize = 1_024;

/// The most bytes of a text's data, and of an attribute's value.
pub const MOST_TEXT_BYTES: usize = 1_048_576;
