//! Fragments made of a subtree's entries, one entry after another.
ghost use Rattle.std.specs.Prelude.{◌≡◌, ◌-◌, [], ◌∷◌, length, option_map, IfOk, OnOk};
ghost use Rattle.dewey_labels.specs.Labels.{Label};
ghost use Rattle.tree_model.specs.Subtrees.{dumped};
ghost use Rattle.tree_model.specs.Tree.{Tree, at};
ghost use Rattle.tree_model.specs.ValidTrees.{IsValidTree};
ghost use Rattle.dom_reads.specs.SubtreeWalks.{subtree_of};
ghost use Rattle.dom_reads.specs.inside.FragmentBuilders.{add, add_all, close_innermost, close_to, finished, making_of, must_close, nothing_made, put, with_attribute};

use dewey_labels::{Label, List, NoMemory, Text};
use std::alloc::Global;
use tree_model::{Fragment, Key, Record};

/// An element of which more may come.
#[derive(Drop)]
struct OpenElement {
    label: Label,
    name: Text,
    attrs: List<(Text, Text)>,
    children: List<Fragment>,
}

/// Fragments in the making, from entries in the order of their keys.
/// An element stays open until an entry comes that doesn't lie under it, so no more are open at a time than a tree has levels.
/// A node under no open element is a fragment of its own, and an attribute of none is left out.
#[derive(Drop)]
pub struct FragmentBuilder {
    /// From the outermost one inward.
    open_elements: List<OpenElement>,
    whole: List<Fragment>,
}

impl FragmentBuilder {
    pub fn new(alloc: Global) -> FragmentBuilder
        ensures { making_of result ≡ nothing_made }
    {
        FragmentBuilder {
            open_elements: List::new(alloc),
            whole: List::new(alloc),
        }
    }

    /// Adds the entry of a node behind all that lies before it, or that of an attribute of the node that came last.
    pub fn add(&mut self, alloc: Global, entry: (Key, Record)) -> Result<(), NoMemory>
        ensures { OnOk result (making_of self.new ≡ add entry.0 entry.1 (making_of self.old)) }
    {
        let (Key { label, name }, record) = entry;
        match record {
            Record::Document => Ok(()),
            Record::Attr(value) => self.add_attribute(name, value),
            Record::Text(data) => {
                self.close_to(Some(&label))?;
                self.put(Fragment::Text(data))
            }
            Record::Element(name) => {
                self.close_to(Some(&label))?;
                self.open_elements.push(OpenElement {
                    label,
                    name,
                    attrs: List::new(alloc),
                    children: List::new(alloc),
                })
            }
        }
    }

    /// The first fragment, if there is one; all elements are closed.
    pub fn finish(mut self) -> Result<Option<Fragment>, NoMemory>
        ensures { IfOk result (λ found. found ≡ finished (making_of self)) }
    {
        self.close_to(None)?;
        let FragmentBuilder { mut whole, .. } = self;
        whole.truncate(1);
        Ok(whole.pop())
    }

    /// Closes the open elements that don't hold the node that comes next, or all of them.
    fn close_to(&mut self, next: Option<&Label>) -> Result<(), NoMemory>
        ensures { OnOk result (making_of self.new ≡ close_to (option_map (λ l. l.now) next.entry) (making_of self.old)) }
    {
        while self.must_close(next) {
            self.close_innermost()?;
        }
        Ok(())
    }

    /// Whether an element is open, and doesn't hold the node that comes next.
    fn must_close(&self, next: Option<&Label>) -> bool
        ensures { result ≡ must_close (option_map (λ l. l.now) next.entry) self.now.open_elements }
    {
        let Some(innermost) = self.open_elements.as_slice().last() else {
            return false;
        };
        match next {
            Some(label) => !innermost.label.is_ancestor_of(label),
            None => true,
        }
    }

    fn close_innermost(&mut self) -> Result<(), NoMemory>
        ensures closed { OnOk result (making_of self.new ≡ close_innermost (making_of self.old)) }
        ensures depth { OnOk result (length self.new.open_elements ≡ length self.old.open_elements - 1) }
    {
        let Some(element) = self.open_elements.pop() else {
            return Ok(());
        };
        let OpenElement {
            name,
            attrs,
            children,
            ..
        } = element;
        self.put(Fragment::Element {
            name,
            attrs,
            children,
        })
    }

    /// Puts a fragment into the innermost open element, or where none is open with the whole ones.
    fn put(&mut self, fragment: Fragment) -> Result<(), NoMemory>
        ensures put { OnOk result (making_of self.new ≡ put (fragment ∷ []) (making_of self.old)) }
        ensures depth { OnOk result (length self.new.open_elements ≡ length self.old.open_elements) }
    {
        match self.open_elements.pop() {
            Some(mut element) => {
                element.children.push(fragment)?;
                self.open_elements.push(element)
            }
            None => self.whole.push(fragment),
        }
    }

    /// Adds an attribute to the innermost open element.
    fn add_attribute(&mut self, name: Text, value: Text) -> Result<(), NoMemory>
        ensures { OnOk result (making_of self.new ≡ with_attribute (name, value) (making_of self.old)) }
    {
        let Some(mut element) = self.open_elements.pop() else {
            return Ok(());
        };
        element.attrs.push((name, value))?;
        self.open_elements.push(element)
    }
}

/// The fragment of a subtree, of its entries, whose records it takes over; of a document that of its element, or none.
pub fn fragment(alloc: Global, entries: List<(Key, Record)>) -> Result<Option<Fragment>, NoMemory>
    ensures fragment { IfOk result (λ found. (l : Label) (t : Tree) → IsValidTree t → entries ≡ subtree_of l t → found ≡ dumped (at l t.documents)) }
{
    let mut builder = FragmentBuilder::new(alloc);
    for entry in entries.into_vec() {
        builder.add(alloc, entry)?;
    }
    builder.finish()
}
