//! What the two files of a store stand for: the map that the page file's pages hold, with the commits of the journal made on it, where that is the map of a tree;
//! where images of pages are open in the journal, the map that the pages hold with these put in.
//! `contents_of_files` computes it from their bytes, or the place of the first rule that they break; `StandFor` says it of a tree.
//! Here are its definitions and laws alone: who opens a store finds what they say, and who moves commits into pages keeps it.
#![tactic(auto)]

mod laws;

pub use laws::{
    a_commit_more_is_stood_for, commits_more_are_stood_for, empty_files_stand_for_the_empty_tree,
    files_stand_for_one_tree, files_that_break_no_rule_hold_pages_and_commits,
    files_with_images_hold_their_pages, images_hide_what_stands_in_their_places,
    pages_made_of_images_stand_for_the_same,
};
