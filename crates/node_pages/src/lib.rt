//! Items on the pages of a file: entries, and where each page of entries begins; maps that are cut into such pages, and pages read again.
//! Items fill pages one after another, each with as many as fit (`put` of `Filler`), and the items of a page are read again (`read_items`), whatever the items are.
//! `cut_pages` answers the pages of a map exactly as the file format has them.
//! What the pages of a file stand for, or the first that breaks a rule, is `pages_in`; `read_header`, `Scan` and `DirectoryScan` find it page by page, and keep where each data page begins and at most one record.
//! Which maps are those of trees is left to the crates above.
#![tactic(auto)]

mod cut;
mod cut_laws;
mod cutter;
mod directory_scan;
mod entry_form;
mod filler;
mod header;
mod page_form;
mod page_pass;
mod page_start;
mod page_zero;
mod reader;
mod reading_laws;
mod scan;
mod scan_fault;

pub use cut::{Cut, Page};
pub use cut_laws::the_pages_of_a_map_keep_the_rule;
pub use cutter::{MOST_PAGES, cut_pages};
pub use directory_scan::DirectoryScan;
pub use entry_form::WholeEntries;
pub use filler::Filler;
pub use header::{Header, read_header};
pub use page_form::{PAGE_BYTES, PageRead, PageWrite};
pub use page_pass::PagePass;
pub use page_start::{PageStart, Starts};
pub use page_zero::MAGIC;
pub use reader::read_items;
pub use reading_laws::{
    pages_behind_the_count_are_not_read, pages_of_a_cut_are_read_again,
    pages_that_keep_the_rules_are_maps_in_order, the_first_page_that_breaks_a_rule_is_answered,
    where_data_pages_begin_is_told_by_the_file,
};
pub use scan::Scan;
pub use scan_fault::ScanFault;
