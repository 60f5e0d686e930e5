//! Texts cut between characters.
ghost use Rattle.std.specs.Prelude.{◌≡◌, ◌≤◌, length, take, IsTrue, MatchOption};
ghost use Rattle.std.specs.Str.{IsUtf8};
ghost use Rattle.tree_model.specs.Texts.{is_past};
ghost use Rattle.dom_reads.specs.TextCuts.{IsCutAt};

use std::str;

/// A text cut behind its first characters: what stands before the cut, and behind it. None where it has fewer. It looks at no character behind the cut.
pub fn cut(text: &str, characters: u32) -> Option<(&str, &str)>
    ensures { MatchOption result (IsTrue (is_past characters text.now)) (λ parts.
        IsCutAt characters text.now parts.0.now parts.1.now) }
{
    let mut rest = text.chars();
    let mut taken = 0;
    while taken < characters {
        rest.next()?;
        taken += 1;
    }
    let behind = rest.as_str();
    let before = prefix(text, text.len() - behind.len());
    Some((before, behind))
}

/// The first bytes of a text, which end behind a character.
fn prefix(text: &str, bytes: usize) -> &str
    requires within { bytes ≤ length text.now }
    requires characters { IsUtf8 (take bytes text.now) }
    ensures { result.now ≡ take bytes text.now }
{
    match str::from_utf8(&text.as_bytes()[..bytes]) {
        Ok(prefix) => prefix,
        Err(_) => unreachable!(),
    }
}
