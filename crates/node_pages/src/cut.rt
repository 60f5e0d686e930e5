//! What cutting a map gives.
use dewey_labels::List;

/// A page's bytes, always 8,192 of them.
pub type Page = List<u8>;

/// The pages of a map, or how many they would be where these are more than a file may get.
#[derive(Drop)]
pub enum Cut {
    /// Page 0 first.
    Pages(List<Page>),
    TooMany { pages: u32 },
}
