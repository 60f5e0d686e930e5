//! What the call `find` asks for: a request for each look that the evaluation of its path makes, whatever the look shows, and nothing more for one that was made before.
//! Its requests and its answer are two folds of one program, and so it keeps the laws of calls, for every path (`finds_meet_the_contract`).
#![tactic(auto)]

mod laws;
mod look_plan;
mod noted_look;
mod requests;

pub use laws::{
    finds_meet_the_contract, looks_are_covered, paths_keep_the_laws, steps_ask_whatever_they_find,
};
pub use requests::path_requests;
