//! Runs of the whole program over memory, for tables of tests: a command, its input and files, what fails of them, and what comes of it;
//! scripts with their replies; and page files.
#![tactic(auto)]

mod cases;
mod in_pieces;
mod page_files;
mod path_scripts;
mod scripts;
mod session_scripts;

pub use cases::{
    CUT, Case, Ended, NEW, NO_DOCUMENT, Outcome, PLAIN, SIXTY, behind_opening, disk, end_of,
    listed, run, run_case, run_case_on, run_cases, run_on, run_words, told, words_of, written_out,
};
pub use in_pieces::InPieces;
pub use page_files::{in_pages, texts_in_pages, x_in_pages};
pub use path_scripts::PATH_SCRIPTS;
pub use scripts::{Row, Script, lines_of_row, run_both, run_rows, with_document};
pub use session_scripts::SESSION_SCRIPTS;
