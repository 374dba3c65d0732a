// The calls that a house in memory is to fail, by their numbers.
ghost use Rattle.std.specs.Prelude.{◌≡◌};
ghost use Rattle.mesh_house.specs.Fails.{change_fails, read_fails};

use mesh_list::{Duplicate, Memory, Seq};

/// A call that is to fail. Calls of `change` are counted from 0, and so are, apart from them, the calls that only read.
/// A change fails before or after it has taken effect.
#[derive(Clone, Copy)]
pub struct Fail {
    pub change: bool,
    pub call: u64,
    pub after: bool,
}

/// Calls that are to fail. Where one is listed twice, the first says how.
pub type Fails = Seq<Fail>;

impl Duplicate for Fail {
    fn copy(&self) -> Result<Fail, Memory> {
        Ok(*self)
    }
}

pub(crate) fn change_fails(fails: &[Fail], number: u64) -> Option<bool>
    ensures { result ≡ change_fails fails.now number }
{
    for fail in fails {
        if fail.change && fail.call == number {
            return Some(fail.after);
        }
    }
    None
}

pub(crate) fn read_fails(fails: &[Fail], number: u64) -> bool
    ensures { result ≡ read_fails fails.now number }
{
    for fail in fails {
        if !fail.change && fail.call == number {
            return true;
        }
    }
    false
}
