//! The functions that put strings together, look in them and cut them at a part (XPath 1.0, section 4.2).
ghost use Rattle.std.specs.Prelude.{◌≡◌, IfOk};
ghost use Rattle.path_model.specs.Texts as spec;

use dewey_labels::{NoMemory, Text};
use std::alloc::Global;

/// `concat`
pub fn concat(alloc: Global, parts: &[Text]) -> Result<Text, NoMemory>
    ensures { IfOk result (λ text. text ≡ spec.joined parts.now) }
{
    let mut joined = String::new(alloc);
    for part in parts {
        joined.push_str(part.as_str())?;
    }
    Ok(Text::from_string(joined))
}

/// `starts-with`
pub fn starts_with(text: &str, start: &str) -> bool
    ensures { result ≡ spec.begins_with start.now text.now }
{
    text.starts_with(start)
}

/// `contains`
pub fn contains(text: &str, part: &str) -> bool
    ensures { result ≡ spec.contains_text text.now part.now }
{
    text.contains(part)
}

/// `substring-before`
pub fn substring_before<'a>(text: &'a str, part: &str) -> &'a str
    ensures { result.now ≡ spec.before_part (spec.cut_at part.now text.now) }
{
    match text.split_once(part) {
        Some((before, _)) => before,
        None => "",
    }
}

/// `substring-after`
pub fn substring_after<'a>(text: &'a str, part: &str) -> &'a str
    ensures { result.now ≡ spec.behind_part (spec.cut_at part.now text.now) }
{
    match text.split_once(part) {
        Some((_, behind)) => behind,
        None => "",
    }
}
