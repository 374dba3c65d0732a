// What is read, and lists of it.
ghost use Rattle.std.specs.Prelude.{◌≡◌, ◌-◌, ℕ, List, Option, Some, length};
ghost use Rattle.mesh_canon_words.specs.Words.{◌>>=◌ as and_then, Gives, after, then_at};
ghost use Rattle.mesh_canon_reading.specs.Reading.{list_at, members_at, more_at, with_front};

use mesh_canon_words::{CanonFault, after, expect};
use mesh_list::Seq;
use std::alloc::Global;

/// A value that stands at the front of some bytes.
pub trait Readable: Drop {
    ghost reading: { List ℕ → Option (Self × List ℕ) };

    /// The value, and what is left behind it.
    fn read(alloc: Global, bytes: &[u8]) -> Result<(Self, &[u8]), CanonFault>
        ensures { Gives (λ x. (x.0, x.1.now)) result (reading bytes.now) };
}

/// A value that was read, and what is left behind the sign that has to come. It takes the value, which is let go here
/// where the sign doesn't come.
pub(crate) fn shut<'a, T: Drop>(
    value: T,
    bytes: &'a [u8],
    sign: &[u8],
) -> Result<(T, &'a [u8]), CanonFault>
    ensures { Gives {Y = T × List ℕ} (λ x. (x.0, x.1.now)) result (and_then (after sign.now bytes.now) (λ rest. Some (value, rest))) }
{
    let rest = expect(bytes, sign)?;
    Ok((value, rest))
}

/// A value and the sign behind it.
#[tactic(auto, unfolding(mesh_canon_words::specs::Words::then_at))]
pub(crate) fn part<'a, T: Readable>(
    alloc: Global,
    bytes: &'a [u8],
    sign: &[u8],
) -> Result<(T, &'a [u8]), CanonFault>
    ensures { Gives (λ x. (x.0, x.1.now)) result (then_at sign.now T.reading bytes.now) }
{
    let (value, rest) = T::read(alloc, bytes)?;
    shut(value, rest, sign)
}

/// A list in brackets and the sign behind it.
#[tactic(auto, unfolding(mesh_canon_words::specs::Words::then_at))]
pub(crate) fn list_then<'a, T: Readable>(
    alloc: Global,
    bytes: &'a [u8],
    sign: &[u8],
) -> Result<(Seq<T>, &'a [u8]), CanonFault>
    ensures { Gives (λ x. (x.0, x.1.now)) result (then_at sign.now (list_at T.reading) bytes.now) }
{
    let (made, rest) = list(alloc, bytes)?;
    shut(made, rest, sign)
}

/// A list in brackets.
#[tactic(auto, unfolding(crate::specs::Reading::list_at))]
pub fn list<T: Readable>(alloc: Global, bytes: &[u8]) -> Result<(Seq<T>, &[u8]), CanonFault>
    ensures { Gives (λ x. (x.0, x.1.now)) result (list_at T.reading bytes.now) }
{
    let inner = expect(bytes, b"[")?;
    if let Some(rest) = after(inner, b"]") {
        return Ok((Seq::new(alloc), rest));
    }
    members(alloc, inner)
}

#[tactic(auto, unfolding(crate::specs::Reading::members_at))]
fn members<T: Readable>(alloc: Global, bytes: &[u8]) -> Result<(Seq<T>, &[u8]), CanonFault>
    ensures { Gives (λ x. (x.0, x.1.now)) result (members_at T.reading bytes.now) }
{
    let (first, rest) = T::read(alloc, bytes)?;
    let mut made = Seq::new(alloc);
    made.push(first)?;
    more(alloc, made, rest)
}

// The members that follow, up to the bracket that ends the list.
fn more<T: Readable>(
    alloc: Global,
    front: Seq<T>,
    bytes: &[u8],
) -> Result<(Seq<T>, &[u8]), CanonFault>
    ensures { Gives (λ x. (x.0, x.1.now)) result (with_front front (more_at T.reading (length bytes.now) bytes.now)) }
{
    let mut made = front;
    let mut rest = bytes;
    for _ in 0..bytes.len() {
        match after(rest, b"]") {
            Some(behind) => return Ok((made, behind)),
            None => {}
        }
        let behind = expect(rest, b" ")?;
        let (item, left) = T::read(alloc, behind)?;
        made.push(item)?;
        rest = left;
    }
    Err(CanonFault::NotCanonical)
}
