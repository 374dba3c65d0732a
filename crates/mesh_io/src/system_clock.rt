// The clock of the host.
ghost use Rattle.std.specs.Prelude.{None, ◌≡◌, Some, IsSome, IfOk, IfSome};
ghost use Rattle.mesh_io.specs.Told.{ClockTold, IsMoment};

use crate::fails::IoFail;
use crate::outside::Clock;
use crate::refused::refused;
use std::io;
use std::io::ErrorKind;
use std::marker::Model;
use std::time::SystemTime;

/// The last second of 9999-12-31.
const LAST: u64 = 253_402_300_799;

/// The host's clock. It tells no moment. Contracts see it as the count of its faults, to which a moment
/// before 1970 or after 9999 belongs.
pub struct SystemClock<'a> {
    rt: &'a HostRuntime,
    faults: u64,
}

impl Drop for SystemClock<'_> {
    fn drop(self) {
        let SystemClock { rt: _, faults: _ } = self;
    }
}

impl<'a> Model for SystemClock<'a> {
    ghost use Rattle.std.specs.Prelude.{ℕ};

    ghost Value = { ℕ };

    ghost view = { λ a. a.faults };
}

impl<'a> SystemClock<'a> {
    /// The host's clock, with no fault yet.
    pub fn new(rt: &'a HostRuntime) -> SystemClock<'a>
        ensures { result ≡ 0 }
    {
        SystemClock { rt, faults: 0 }
    }
}

fn moment_of(seconds: u64) -> Option<i64>
    ensures { IfSome result IsMoment }
{
    if seconds <= LAST {
        Some(seconds as i64)
    } else {
        None
    }
}

fn moment(rt: &HostRuntime) -> io::Result<i64>
    ensures { IfOk result IsMoment }
{
    let now = SystemTime::now(rt)?;
    let Ok(since) = now.duration_since(SystemTime::UNIX_EPOCH) else {
        return Err(io::Error::from(ErrorKind::InvalidData));
    };
    match moment_of(since.as_secs()) {
        Some(moment) => Ok(moment),
        None => Err(io::Error::from(ErrorKind::InvalidData)),
    }
}

impl Clock for SystemClock<'_> {
    ghost told = { λ faults. record { moment = None; faults = faults } };

    fn faults(&self) -> u64 {
        self.faults
    }

    fn now(&mut self) -> Result<i64, IoFail> {
        match moment(self.rt) {
            Ok(moment) => Ok(moment),
            Err(error) => Err(refused(&mut self.faults, error.kind())),
        }
    }
}
