// Texts of characters.
ghost use Rattle.std.specs.Prelude.{◌≡◌, encode_utf8_all, IfOk};

use dewey_labels::{NoMemory, Text};
use std::alloc::Global;

/// The text of some characters.
pub fn text_of(alloc: Global, characters: &[char]) -> Result<Text, NoMemory>
    ensures { IfOk result (λ text. text ≡ encode_utf8_all characters.now) }
{
    let mut text = String::new(alloc);
    for c in characters {
        text.push(*c)?;
    }
    Ok(Text::from_string(text))
}
