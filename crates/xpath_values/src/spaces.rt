//! White space in strings (XPath 1.0, section 4.2, `normalize-space`).
ghost use Rattle.std.specs.Prelude.{◌≡◌, ◌∷◌, [], ◌++◌, false, encode_utf8, if◌then◌else◌, string_bytes, IfOk, OnOk};
ghost use Rattle.path_model.specs.Numbers.{is_space};
ghost use Rattle.path_model.specs.Texts as spec;

use dewey_labels::{NoMemory, Text};
use std::alloc::Global;

/// `normalize-space`: runs of white space become one space, none at the ends.
pub fn normalize_space(alloc: Global, text: &str) -> Result<Text, NoMemory>
    ensures { IfOk result (λ normal. normal ≡ spec.normal_from false text.now) }
{
    let mut normal = String::new(alloc);
    // Whether white space was read behind what is written.
    let mut has_gap = false;
    for c in text.chars() {
        if is_space_char(c) {
            has_gap = !normal.is_empty();
        } else {
            push_behind(&mut normal, has_gap, c)?;
            has_gap = false;
        }
    }
    Ok(Text::from_string(normal))
}

/// Space, tab, CR or LF.
fn is_space_char(c: char) -> bool
    ensures { result ≡ is_space c }
{
    matches!(c, ' ' | '\t' | '\r' | '\n')
}

/// Puts a character at the end, behind one space if there was a gap.
fn push_behind(text: &mut String, has_gap: bool, c: char) -> Result<(), NoMemory>
    ensures { OnOk result (string_bytes text.new ≡ string_bytes text.old ++ (if has_gap then 32 ∷ encode_utf8 c else encode_utf8 c)) }
{
    if has_gap {
        text.push(' ')?;
    }
    text.push(c)?;
    Ok(())
}
