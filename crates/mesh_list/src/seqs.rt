// A list that owns its elements.
ghost use Rattle.std.specs.Prelude.{◌≡◌, [], ◌∷◌, ◌++◌, ◌<◌, length, slice_get, ◌↔◌, IsTrue, IfOk, MatchOption, OnOk, OnErr, OnSome, slice_index_or};
ghost use Rattle.std.specs.Option.{option_copied};

use crate::memory::Memory;
use std::alloc::Global;
use std::marker::Model;

/// A `Vec` that contracts see as the list of its elements, so that two with the same elements are equal.
pub struct Seq<T> {
    items: Vec<T>,
}

impl<T: Drop> Drop for Seq<T> {
    fn drop(self) {
        let Seq { items: _ } = self;
    }
}

impl<T> Model for Seq<T> {
    ghost use Rattle.std.specs.Prelude.{List};
    ghost use Rattle.std.specs.Coded.{coded_list};

    ghost Value = { List T };

    ghost coded = { coded_list T.code };

    ghost view = { λ s. s.items.items };
}

impl<T> Seq<T> {
    /// The empty list, which takes no memory.
    pub fn new(alloc: Global) -> Seq<T>
        ensures { result ≡ [] }
    {
        Seq {
            items: Vec::new(alloc),
        }
    }

    /// The list of the elements, which stay where they lie.
    pub fn from_vec(items: Vec<T>) -> Seq<T>
        ensures { result ≡ items.items }
    {
        Seq { items }
    }

    /// The elements, which stay where they lie.
    pub fn into_vec(self) -> Vec<T>
        ensures { result.items ≡ self }
    {
        let Seq { items } = self;
        items
    }

    /// The allocator that the elements lie in.
    pub fn alloc(&self) -> Global {
        *self.items.allocator()
    }

    pub fn as_slice(&self) -> &[T]
        ensures { result.now ≡ self.now }
    {
        self.items.as_slice()
    }

    pub fn len(&self) -> usize
        ensures { result ≡ length self.now }
    {
        self.items.len()
    }

    pub fn is_empty(&self) -> bool
        ensures { IsTrue result ↔ (self.now ≡ []) }
    {
        self.items.is_empty()
    }

    pub fn get(&self, at: usize) -> Option<&T>
        ensures value { option_copied result ≡ slice_get self.now at }
        ensures within { OnSome result (at < length self.now) }
    {
        self.items.get(at)
    }

    pub fn at(&self, at: usize) -> &T
        requires { at < length self.now }
        ensures { result.now ≡ slice_index_or self.now at result.now }
    {
        &self.items[at]
    }

    pub fn pop(&mut self) -> Option<T>
        ensures { MatchOption result ((self.old ≡ []) × (self.new ≡ [])) (λ last. self.old ≡ self.new ++ last ∷ []) }
    {
        self.items.pop()
    }
}

impl<T: Drop> Seq<T> {
    /// Puts an element at the end. At `Err` nothing has changed.
    pub fn push(&mut self, item: T) -> Result<(), Memory>
        ensures ok { OnOk result (self.new ≡ self.old ++ item ∷ []) }
        ensures err { OnErr result (self.new ≡ self.old) }
    {
        match self.items.push(item) {
            Ok(()) => Ok(()),
            Err(_) => Err(Memory),
        }
    }

    /// Puts all elements of another list behind these, in their order. At `Err` some of them may stand there.
    pub fn append(&mut self, more: Seq<T>) -> Result<(), Memory>
        ensures { OnOk result (self.new ≡ self.old ++ more) }
    {
        let mut rest = more.into_vec();
        match self.items.append(&mut rest) {
            Ok(()) => Ok(()),
            Err(_) => Err(Memory),
        }
    }
}
