// Tests that two values are the same.
ghost use Rattle.std.specs.Prelude.{◌≡◌, ◌↔◌, IsTrue};

use crate::keyed::{Keyed, Sorted};
use crate::registers::Register;
use crate::seqs::Seq;

/// What can be compared for being the same.
pub trait Same {
    fn same(&self, other: &Self) -> bool
        ensures { IsTrue result ↔ (self.now ≡ other.now) };
}

impl Same for u8 {
    fn same(&self, other: &u8) -> bool {
        *self == *other
    }
}

impl Same for u32 {
    fn same(&self, other: &u32) -> bool {
        *self == *other
    }
}

impl Same for u64 {
    fn same(&self, other: &u64) -> bool {
        *self == *other
    }
}

impl Same for i64 {
    fn same(&self, other: &i64) -> bool {
        *self == *other
    }
}

/// Whether two slices have the same elements in the same order.
pub fn are_same<T: Same>(left: &[T], right: &[T]) -> bool
    ensures { IsTrue result ↔ (left.now ≡ right.now) }
{
    if left.len() != right.len() {
        return false;
    }
    for (i, x) in left.iter().enumerate() {
        if !x.same(&right[i]) {
            return false;
        }
    }
    true
}

impl<T: Same> Same for Seq<T> {
    fn same(&self, other: &Seq<T>) -> bool {
        are_same(self.as_slice(), other.as_slice())
    }
}

impl<T: Keyed + Same> Same for Sorted<T> {
    fn same(&self, other: &Sorted<T>) -> bool {
        are_same(self.as_slice(), other.as_slice())
    }
}

impl<T: Keyed + Same> Same for Register<T> {
    fn same(&self, other: &Register<T>) -> bool {
        are_same(self.as_slice(), other.as_slice())
    }
}

impl<T: Same> Same for Option<T> {
    fn same(&self, other: &Option<T>) -> bool {
        match self {
            Some(x) => match other {
                Some(y) => x.same(y),
                None => false,
            },
            None => match other {
                Some(_) => false,
                None => true,
            },
        }
    }
}
