// The steps of a JSON pointer (RFC 6901): an item's index and a member's escaped name.
ghost use Rattle.std.specs.Prelude.{◌≡◌, IfOk, string_bytes};
ghost use Rattle.jsonml_io.specs.Pointers.{step_to_member, step_to_item};

use dewey_labels::NoMemory;
use std::alloc::Global;

/// The step to an array's item.
pub fn step_to_item(alloc: Global, index: usize) -> Result<String, NoMemory>
    ensures { IfOk result (λ step. string_bytes step ≡ step_to_item index) }
{
    Ok(format!(in alloc; "/{index}")?)
}

/// The step to an object's member.
pub fn step_to_member(alloc: Global, name: &str) -> Result<String, NoMemory>
    ensures { IfOk result (λ step. string_bytes step ≡ step_to_member name.now) }
{
    let mut step = String::from_str(alloc, "/")?;
    for c in name.chars() {
        if c == '~' {
            step.push_str("~0")?;
        } else if c == '/' {
            step.push_str("~1")?;
        } else {
            step.push(c)?;
        }
    }
    Ok(step)
}
