//! The bytes of keys, records, changes and entries, as the files of a store hold them.
//! What is read is exactly what the grammar has at the start of the bytes; what was written is read again, whatever follows; keys sort as their bytes do.
//! Which keys and records may stand in a tree is left to the crates above.
#![tactic(auto)]

mod changes;
mod divisions;
mod entries;
mod keys;
mod labels;
mod laws;
mod open_error;
mod pending;
mod records;
mod texts;

pub use changes::{read_change, write_change};
pub use entries::{CHUNK_BYTES, Entry, read_entry, write_entry};
pub use keys::{read_key, write_key};
pub use laws::{bodies_are_read_again, keys_sort_as_their_bytes, what_is_written_is_read_again};
pub use open_error::{File, OpenError, Place};
pub use pending::Pending;
pub use records::{read_record, write_record};
