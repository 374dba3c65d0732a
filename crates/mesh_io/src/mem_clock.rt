// A clock in memory, whose calls fail by a list.
ghost use Rattle.std.specs.Prelude.{◌≡◌, Err, IsTrue};
ghost use Rattle.mesh_io.specs.Told.{ClockTold, ClockAnswers, IsMoment};
ghost use Rattle.mesh_io.specs.Calls.{fails_next, after_call, no_calls};
ghost use Rattle.mesh_io.specs.Held.{clock_told};

use crate::calls::{Calls, Numbers};
use crate::fails::IoFail;
use crate::outside::Clock;
use std::marker::Model;

/// A clock that stands still. It tells its moment, and the calls with listed numbers fail, and no others.
pub struct MemClock {
    moment: i64,
    calls: Calls,
}

impl Drop for MemClock {
    fn drop(self) {
        let MemClock {
            moment: _,
            calls: _,
        } = self;
    }
}

impl Model for MemClock {
    ghost use Rattle.mesh_io.specs.Held.{ClockHeld};
    ghost use Rattle.mesh_io.specs.Told.{IsMoment};

    ghost Value = { ClockHeld };

    ghost view = { λ c. record { moment = c.moment; calls = c.calls } };

    ghost invariant = { λ c. IsMoment c.moment };
}

impl MemClock {
    /// A clock at this moment, whose calls of these numbers, counted from 0, are to fail.
    pub fn new(now: i64, fails: Numbers) -> MemClock
        requires { IsMoment now }
        ensures { result ≡ record { moment = now; calls = no_calls fails } }
    {
        MemClock {
            moment: now,
            calls: Calls::new(fails),
        }
    }
}

impl Clock for MemClock {
    ghost told = { clock_told };

    fn faults(&self) -> u64 {
        self.calls.faults
    }

    fn now(&mut self) -> Result<i64, IoFail>
        ensures told { ClockAnswers (clock_told self.old) (clock_told self.new) result }
        ensures listed { result ≡ Err IoFail.Failed → IsTrue (fails_next self.old.calls) }
        ensures only { IsTrue (fails_next self.old.calls) → result ≡ Err IoFail.Failed }
        ensures memory { ¬ (result ≡ Err IoFail.Memory) }
        ensures held { self.new ≡ record self.old { calls = after_call self.old.calls } }
    {
        if self.calls.come() {
            return Err(IoFail::Failed);
        }
        Ok(self.moment)
    }
}
