//! Texts with numbers in them.
ghost use Rattle.std.specs.Prelude.{◌≡◌, ◌++◌, OnOk, decimal, string_bytes};

use std::alloc::{AllocError, Global};

/// Adds a text and, behind it, a number in decimal.
pub(crate) fn add(
    alloc: Global,
    text: &str,
    number: u64,
    out: &mut String,
) -> Result<(), AllocError>
    ensures { OnOk result (string_bytes out.new ≡ string_bytes out.old ++ text.now ++ decimal number) }
{
    let digits = format!(in alloc; "{number}")?;
    out.push_str(text)?;
    out.push_str(digits.as_str())
}
