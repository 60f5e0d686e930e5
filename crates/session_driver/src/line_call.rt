//! Calls that are made of those that lines name.
ghost use Rattle.std.specs.Prelude.{◌≡◌};
ghost use Rattle.command_lines.specs.ValidCommands.{IsValidWhat};
ghost use Rattle.command_lines.specs.declared.command.What.TheVariants.{Call};

use command_lines::StoreCall;

/// Calls that are made of those that lines name. `made` says which call is made of one.
pub trait LineCall: Sized {
    ghost use Rattle.command_lines.specs.declared.command.StoreCall.{StoreCall};

    ghost made: { StoreCall → Self };

    fn of_line(call: StoreCall) -> Self
        requires valid { IsValidWhat (Call call) }
        ensures { result ≡ made call };
}
