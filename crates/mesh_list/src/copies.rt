// Copies of values, which are equal to them.
ghost use Rattle.std.specs.Prelude.{◌≡◌, IfOk, Ok};

use crate::memory::Memory;
use crate::seqs::Seq;
use std::alloc::Global;

/// What can be copied where there is memory.
pub trait Duplicate: Drop {
    fn copy(&self) -> Result<Self, Memory>
        ensures { IfOk result (λ made. made ≡ self.now) };

    /// Copies of several values.
    fn copy_items(alloc: Global, items: &[Self]) -> Result<Seq<Self>, Memory>
        ensures { IfOk result (λ made. made ≡ items.now) }
    {
        let mut made = Seq::new(alloc);
        for item in items {
            made.push(item.copy()?)?;
        }
        Ok(made)
    }
}

/// Copies of two values, with one answer for want of memory.
pub fn both<A: Duplicate, B: Duplicate>(a: &A, b: &B) -> Result<(A, B), Memory>
    ensures { IfOk result (λ made. made ≡ (a.now, b.now)) }
{
    let first = a.copy()?;
    let second = b.copy()?;
    Ok((first, second))
}

/// Two answers as one, which is want of memory where one of them is.
pub fn together<A: Drop, B: Drop>(
    a: Result<A, Memory>,
    b: Result<B, Memory>,
) -> Result<(A, B), Memory>
    ensures { IfOk result (λ made. (a ≡ Ok made.0) × (b ≡ Ok made.1)) }
{
    match (a, b) {
        (Ok(first), Ok(second)) => Ok((first, second)),
        _ => Err(Memory),
    }
}

impl Duplicate for u8 {
    fn copy(&self) -> Result<u8, Memory> {
        Ok(*self)
    }

    fn copy_items(alloc: Global, items: &[u8]) -> Result<Seq<u8>, Memory> {
        match Vec::from_slice(alloc, items) {
            Ok(made) => Ok(Seq::from_vec(made)),
            Err(_) => Err(Memory),
        }
    }
}

impl Duplicate for u32 {
    fn copy(&self) -> Result<u32, Memory> {
        Ok(*self)
    }
}

impl Duplicate for u64 {
    fn copy(&self) -> Result<u64, Memory> {
        Ok(*self)
    }
}

impl Duplicate for i64 {
    fn copy(&self) -> Result<i64, Memory> {
        Ok(*self)
    }
}

impl<T: Duplicate> Duplicate for Seq<T> {
    fn copy(&self) -> Result<Seq<T>, Memory> {
        T::copy_items(self.alloc(), self.as_slice())
    }
}

impl<T: Duplicate> Duplicate for Option<T> {
    fn copy(&self) -> Result<Option<T>, Memory> {
        match self {
            Some(value) => Ok(Some(value.copy()?)),
            None => Ok(None),
        }
    }
}
