// The calls that a keeper in memory is to fail, by their numbers.
ghost use Rattle.std.specs.Prelude.{◌≡◌};
ghost use Rattle.mesh_house.specs.Fails.{change_fails, read_fails};

use mesh_house::Fail;

pub(crate) fn write_fails(fails: &[Fail], number: u64) -> Option<bool>
    ensures { result ≡ change_fails fails.now number }
{
    for fail in fails {
        if fail.change && fail.call == number {
            return Some(fail.after);
        }
    }
    None
}

pub(crate) fn look_fails(fails: &[Fail], number: u64) -> bool
    ensures { result ≡ read_fails fails.now number }
{
    for fail in fails {
        if !fail.change && fail.call == number {
            return true;
        }
    }
    false
}
