//! Laws of the definitions.
ghost use Rattle.std.specs.Prelude.{◌≡◌, ◌++◌, ℕ, List, Some, None, Ok};
ghost use Rattle.command_lines.specs.Lines.{line_of};
ghost use Rattle.command_lines.specs.declared.command.Command.{Command};
ghost use Rattle.workers_text.specs.Entries.{HasSession};
ghost use Rattle.workers_text.specs.Limits.{too_long_in, KeepsLimits};

/// What a line is read as, if it is a command, has a session from 1 to 64.
#[tactic(auto, using(crate::proofs::Sessions::session_of_line))]
pub fn commands_have_sessions()
    ensures { (line : List ℕ) (c : Command) → line_of line ≡ Ok (Some c) → HasSession c }
{}

/// An input that is too long stays so, whatever comes behind, and for the same line.
#[tactic(auto, using(crate::proofs::TooLong::stays))]
pub fn what_is_too_long_stays_so()
    ensures { (most short : ℕ) (bytes more : List ℕ) (n : ℕ) → too_long_in most short bytes ≡ Some n → too_long_in most short (bytes ++ more) ≡ Some n }
{}

/// An input that isn't too long keeps both limits.
#[tactic(auto, using(crate::proofs::TooLong::keeps))]
pub fn what_is_not_too_long_keeps_the_limits()
    ensures { (most short : ℕ) (bytes : List ℕ) → too_long_in most short bytes ≡ None → KeepsLimits most short bytes }
{}
