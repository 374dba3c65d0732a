// The texts of moments.
ghost use Rattle.std.specs.Prelude.{◌≡◌, ◌++◌, IsTrue, OnOk, pos, negsuc};
ghost use Rattle.jiff_core.specs.Calendar.{IsBetween};
ghost use Rattle.mesh_time_days.specs.casts.Dates.{day_text};
ghost use Rattle.mesh_time_days.specs.Moments.{day_at, second_at, second_text};
ghost use Rattle.mesh_cli_print.specs.plans.Moments.{is_printable, moment_text};

use crate::faults::put;
use mesh_list::Memory;

fn is_printable(t: i64) -> bool
    ensures value { result ≡ is_printable t }
    ensures bounds { IsTrue result → IsBetween (negsuc 62_135_596_799) (pos 253_402_300_799) t }
{
    -62_135_596_800 <= t && t <= 253_402_300_799
}

fn moment_written(t: i64) -> [u8; 19]
    requires { IsBetween (negsuc 62_135_596_799) (pos 253_402_300_799) t }
    ensures { result ≡ day_text (day_at t) ++ second_text (second_at t) }
{
    mesh_time_days::moment_text(t)
}

/// A moment as `YYYY-MM-DDTHH:MM:SS`.
#[tactic(auto, unfolding(crate::specs::plans::Moments::moment_text))]
pub fn put_moment(out: &mut Vec<u8>, t: i64) -> Result<(), Memory>
    ensures { OnOk result (out.new.items ≡ out.old.items ++ moment_text t) }
{
    if is_printable(t) {
        put(out, moment_written(t).as_slice())
    } else {
        Ok(())
    }
}
