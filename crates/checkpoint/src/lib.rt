//! Checkpoints: a store's tree is moved into its pages, and the journal begins anew.
//! A checkpoint has three phases: the pages that are to change go into the journal as images, then in place, then the journal is reset.
//! A crash in any of them leaves two files that stand for the same tree with the same number (clause `phases` of `checkpoint`), and at its end
//! the pages alone hold it (`moved`). `renew` makes one under a core whose sessions go on: these read its `Base`, the pages or a copy of the map.
#![tactic(auto)]

mod base;
mod checkpoint_call;
mod images_body;
mod made;
mod new_pages;
mod phases;
mod renew_call;
mod renew_fault;

pub use base::Base;
pub use checkpoint_call::checkpoint;
pub use made::Made;
pub use renew_call::renew;
pub use renew_fault::RenewFault;
