//! What a line asks of its session, as a call of the lock machine.
ghost use Rattle.std.specs.Prelude.{◌≡◌};
ghost use Rattle.command_lines.specs.ValidCommands.{IsValidWhat};
ghost use Rattle.session_driver.specs.Asking.{doing_of as meant};

use crate::doing::Doing;
use crate::line_call::LineCall;
use call_contract::TreeCall;
use command_lines::What;

/// What a command asks a session to do.
pub fn doing_of<C: TreeCall + LineCall>(what: What) -> Doing<C>
    requires { IsValidWhat what }
    ensures { result ≡ meant C.made what }
{
    match what {
        What::Begin => Doing::Begin,
        What::Commit => Doing::Commit,
        What::Abort => Doing::Abort,
        What::Call(call) => Doing::Call(C::of_line(call)),
    }
}
