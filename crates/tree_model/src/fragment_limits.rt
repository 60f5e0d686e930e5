//! What a fragment's place depends on: whether it is a text, how deep it is, and whether its labels keep the limits.
ghost use Rattle.std.specs.Prelude.{◌≡◌, nat_lt};
ghost use Rattle.tree_model.specs.Fragments.{depth, is_text_fragment, plain};
ghost use Rattle.tree_model.specs.Graft.{all_within, graft};
ghost use Rattle.tree_model.specs.GraftLimits.{fit_at};
ghost use Rattle.tree_model.specs.Placing.{is_too_deep};
ghost use Rattle.tree_model.specs.Tree.{none};

use crate::fragment::Fragment;
use crate::limits::DEEPEST_LEVEL;
use dewey_labels::{FIRST_DIVISION, GREATEST, Label, MOST_DIVISIONS};

impl Fragment {
    /// Whether it is a text.
    pub fn is_text(&self) -> bool
        ensures { result ≡ is_text_fragment (plain self.now) }
    {
        matches!(self, Fragment::Text(_))
    }

    /// Whether it takes more levels than these; a text takes one. It looks at no node below them.
    pub fn is_deeper(&self, levels: u32) -> bool
        ensures { result ≡ nat_lt levels (depth (plain self.now)) }
    {
        if levels == 0 {
            return true;
        }
        match self {
            Fragment::Text(_) => false,
            Fragment::Element { children, .. } => {
                for child in children.as_slice() {
                    if child.is_deeper(levels - 1) {
                        return true;
                    }
                }
                false
            }
        }
    }

    /// Whether below a label its deepest node would lie too deep. It looks at no node that would.
    pub fn is_too_deep(&self, at: &Label) -> bool
        ensures { result ≡ is_too_deep at.now (plain self.now) }
    {
        let level = at.level();
        level > DEEPEST_LEVEL || self.is_deeper(DEEPEST_LEVEL - level)
    }

    /// Whether none of its labels passes a limit where it stands at a label of so many divisions that passes none. It looks at each node once at most, and makes no label.
    pub fn fits_behind(&self, divisions: usize) -> bool
        ensures { result ≡ fit_at divisions (plain self.now) }
    {
        match self {
            Fragment::Text(_) => true,
            Fragment::Element { children, .. } => {
                let mut division = FIRST_DIVISION;
                for child in children.as_slice() {
                    if divisions >= MOST_DIVISIONS
                        || division > GREATEST
                        || !child.fits_behind(divisions + 1)
                    {
                        return false;
                    }
                    division += 2;
                }
                true
            }
        }
    }

    /// Whether none of its labels passes a limit where it stands at this one. It looks at each node once at most, and makes no label.
    pub fn fits_at(&self, at: &Label) -> bool
        ensures { result ≡ all_within (graft at.now (plain self.now) none) }
    {
        self.fits_behind(at.divisions().len())
    }
}
