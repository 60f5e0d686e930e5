//! Fragments: trees that stand nowhere yet.
ghost use Rattle.std.specs.Prelude.{◌≡◌, IfOk};

use dewey_labels::{Copied, List, NoMemory, Text};
use std::alloc::Global;

/// A tree without labels, as it is given to a call or answered by one: an element with all that it holds, or a text.
#[derive(Debug, Drop)]
pub enum Fragment {
    Element {
        name: Text,
        /// Each attribute's name and value.
        attrs: List<(Text, Text)>,
        children: List<Fragment>,
    },
    Text(Text),
}

impl Fragment {
    pub fn copy(&self, alloc: Global) -> Result<Fragment, NoMemory>
        ensures { IfOk result (λ copy. copy ≡ self.now) }
    {
        match self {
            Fragment::Element {
                name,
                attrs,
                children,
            } => {
                let name = name.copy(alloc)?;
                let attrs = attrs.copy(alloc)?;
                let mut copies = List::new(alloc);
                for child in children.as_slice() {
                    copies.push(child.copy(alloc)?)?;
                }
                Ok(Fragment::Element {
                    name,
                    attrs,
                    children: copies,
                })
            }
            Fragment::Text(data) => Ok(Fragment::Text(data.copy(alloc)?)),
        }
    }
}

impl Copied for Fragment {
    fn copy(&self, alloc: Global) -> Result<Fragment, NoMemory> {
        Fragment::copy(self, alloc)
    }
}
