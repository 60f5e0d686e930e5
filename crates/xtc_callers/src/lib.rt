//! Callers of the library's call `xtc` that are proved by its clauses alone: over a new store in memory a whole script, one by workers, the generator's, a document that is put, and the same got or asked.
#![tactic(auto)]

mod new_document;
mod new_generated;
mod new_store;
mod new_workers;
mod queries;

pub use new_document::{PutAndGot, put_and_get, put_into_new_store};
pub use new_generated::generate_in_new_store;
pub use new_store::{MemRun, run_new_store};
pub use new_workers::work_in_new_store;
pub use queries::{PutAndQueried, put_and_query, query_store};
