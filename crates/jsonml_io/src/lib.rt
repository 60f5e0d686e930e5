//! JsonML: fragments as JSON arrays and strings.
//! A value is read as exactly the fragment that it is, or refused by the first rule that it breaks, with the place as a JSON pointer; what is written of a valid
//! fragment is read again as it.
//! The text of a fragment is written token by token, too: no value is built of it, and nothing is copied but into the text (`text_of`).
//! JSON itself is left to `serde_json` and `json`.
#![tactic(auto)]

mod attributes;
mod fragment_error;
mod pointer;
mod reading;
mod text;
mod writing;

pub use fragment_error::FragmentError;
pub use reading::{from_value, of_value, read_fragment, read_value};
pub use text::text_of;
pub use writing::{to_value, write_fragment};
