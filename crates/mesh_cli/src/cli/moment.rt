// The moment of a command.
ghost use Rattle.std.specs.Prelude.{◌≡◌, IfSome};
ghost use Rattle.mesh_time_days.specs.Moments.{IsMoment};
ghost use Rattle.mesh_cli.specs.cli.Sides.{Timed, of_io};

use mesh_cli_print::printed::Refusal;
use mesh_io::{Clock, IoFail};

/// What a command tells where the outside failed.
pub(crate) fn of_io(fail: IoFail) -> Refusal
    ensures { result ≡ of_io fail }
{
    match fail {
        IoFail::Failed => Refusal::Input,
        IoFail::Memory => Refusal::Memory,
    }
}

/// The moment that the words give, or else the clock's.
pub(crate) fn moment_of<C: Clock>(given: Option<i64>, clock: &mut C) -> Result<i64, Refusal>
    requires { IfSome given IsMoment }
    ensures { Timed given (C.told clock.old) (C.told clock.new) result }
{
    match given {
        Some(t) => Ok(t),
        None => match clock.now() {
            Ok(t) => Ok(t),
            Err(fail) => Err(of_io(fail)),
        },
    }
}
