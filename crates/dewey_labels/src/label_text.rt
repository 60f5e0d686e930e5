//! The text of a label, written and read.
ghost use Rattle.std.specs.Prelude.{◌≡◌, ◌≢◌, ◌++◌, Some, None, IfOk, IfErr, OnOk, OnErr, string_bytes};
ghost use Rattle.dewey_labels.specs.Labels.{Label as LabelValue, IsLabel};
ghost use Rattle.dewey_labels.specs.LabelText.{label_text, label_of, HasCause};

use crate::label_reader::LabelReader;
use crate::{Label, List, NoMemory, Text};
use std::alloc::Global;

/// Why a text was not read as a label's.
#[derive(Debug, Drop, Clone, Copy, PartialEq, Eq)]
pub enum LabelTextError {
    /// The text is no label's. `place` is the length of its longest prefix that is one of some label's text.
    NotALabel { place: u32 },
    NoMemory,
}

impl From<NoMemory> for LabelTextError {
    ghost use Rattle.dewey_labels.specs.declared.label_text.LabelTextError.TheVariants.{NoMemory};

    ghost from_gives = { λ _ error. error ≡ NoMemory };

    fn from(_error: NoMemory) -> LabelTextError {
        LabelTextError::NoMemory
    }
}

impl Label {
    /// The label's text: its divisions in decimal, joined by points.
    pub fn text(&self, alloc: Global) -> Result<Text, NoMemory>
        ensures { IfOk result (λ t. t ≡ label_text self.now) }
    {
        Ok(Text::from_string(self.string(alloc)?))
    }

    /// The same as a string.
    pub fn string(&self, alloc: Global) -> Result<String, NoMemory>
        ensures { IfOk result (λ s. string_bytes s ≡ label_text self.now) }
    {
        let mut text = String::new(alloc);
        for (index, division) in self.divisions().iter().enumerate() {
            if index > 0 {
                text.push('.')?;
            }
            write!(text, "{division}")?;
        }
        Ok(text)
    }

    /// Puts the label's text at the end of `out`.
    pub fn write_text(&self, alloc: Global, out: &mut List<u8>) -> Result<(), NoMemory>
        ensures ok { OnOk result (out.new ≡ out.old ++ label_text self.now) }
        ensures err { OnErr result (out.new ≡ out.old) }
    {
        let text = self.string(alloc)?;
        out.extend_from_slice(alloc, text.as_bytes())
    }

    /// The label whose text this is.
    pub fn read_text(alloc: Global, text: &[u8]) -> Result<Label, LabelTextError>
        ensures found { IfOk result (λ l. label_of text.now ≡ Some l) }
        ensures none { IfErr result (λ e. e ≢ LabelTextError.NoMemory → label_of text.now ≡ None) }
        ensures label { IfOk result (λ l. IsLabel l × (text.now ≡ label_text l)) }
        ensures cause { IfErr result (HasCause text.now) }
    {
        Label::read_bytes(alloc, text)
    }

    /// Reads byte by byte, up to the first that no label's text goes on with.
    fn read_bytes(alloc: Global, text: &[u8]) -> Result<Label, LabelTextError>
        ensures label { IfOk result (λ l. IsLabel l × (text.now ≡ label_text l)) }
        ensures cause { IfErr result (HasCause text.now) }
    {
        let mut reader = LabelReader::new();
        for byte in text {
            if !reader.read(alloc, *byte)? {
                return Err(LabelTextError::NotALabel {
                    place: reader.place(),
                });
            }
        }
        let place = reader.place();
        reader
            .finish(alloc)?
            .ok_or(LabelTextError::NotALabel { place })
    }
}
