//! Laws that the crates above lean on.
ghost use Rattle.std.specs.Prelude.{◌≡◌, ℕ, List, Some};
ghost use Rattle.dewey_labels.specs.Labels.{Label, IsLabel};
ghost use Rattle.dewey_labels.specs.LabelText.{label_of, label_text};

/// A label's text is read as that label, and as no other; what is read as a label is its text.
pub fn a_labels_text_is_read_again()
    ensures again { (l : Label) → IsLabel l → label_of (label_text l) ≡ Some l }
    ensures alone { (t : List ℕ) (l : Label) → label_of t ≡ Some l → IsLabel l × (t ≡ label_text l) }
{}
