// What can stand as one part of a list of texts, and what is such a list itself.
ghost use Rattle.std.specs.Prelude.{◌≡◌, ℕ, Bool, true, ◌<◌, ◌^◌, List, [], ◌∷◌, ◌++◌, length, IfOk, OnOk, Some};
ghost use Rattle.mesh_canon_text.specs.Text.{list_text};
ghost use Rattle.mesh_canon_words.specs.Words.{Gives};

use mesh_base_values::{Str, Strs};
use mesh_canon::canon::{list_text, read_list};
use mesh_canon_words::CanonFault;
use mesh_list::{Memory, Seq};
use std::alloc::Global;

/// A value that has a text as one part of a list. What fits is a value that a program can hold.
pub trait Part: Drop {
    ghost text: { Self → List ℕ };

    ghost fits: { Self → Bool };

    /// It fits, since a program holds it.
    fn rule(&self)
        ensures { fits self.now ≡ true };

    /// Its text.
    fn write(&self, alloc: Global) -> Result<Str, Memory>
        ensures { IfOk result (λ made. made ≡ text self.now) };

    /// The value that has this text.
    fn read(alloc: Global, bytes: &[u8]) -> Result<Self, CanonFault>
        ensures found { IfOk result (λ x. bytes.now ≡ text x) }
        ensures only { (x : Self) → fits x ≡ true → bytes.now ≡ text x → Gives (λ y. y) result (Some x) };
}

/// A value that has parts.
pub trait Listed: Drop {
    ghost parts: { Self → List (List ℕ) };

    ghost fit: { Self → Bool };

    /// Puts the texts of its parts behind others.
    fn put(&self, out: &mut Strs) -> Result<(), Memory>
        ensures { OnOk result (out.new ≡ out.old ++ parts self.now) };

    /// The value whose parts have these texts.
    fn take(alloc: Global, texts: &[Str]) -> Result<Self, CanonFault>
        ensures found { IfOk result (λ x. texts.now ≡ parts x) }
        ensures only { (x : Self) → fit x ≡ true → texts.now ≡ parts x → Gives (λ y. y) result (Some x) };
}

// A slice lies in memory.
fn lies_in_memory(bytes: &[u8])
    ensures { length bytes.now < 2 ^ 64 }
{
    let _length = bytes.len();
}

/// The texts that have this text as a list.
pub(crate) fn parts_of(alloc: Global, bytes: &[u8]) -> Result<Strs, CanonFault>
    ensures found { IfOk result (λ parts. bytes.now ≡ list_text parts) }
    ensures only { (parts : List (List ℕ)) → bytes.now ≡ list_text parts → Gives (λ x. x) result (Some parts) }
{
    lies_in_memory(bytes);
    read_list(alloc, bytes)
}

/// The value that has this text as the list of its parts.
pub(crate) fn read_as_list<L: Listed>(alloc: Global, bytes: &[u8]) -> Result<L, CanonFault>
    ensures found { IfOk result (λ x. bytes.now ≡ list_text (L.parts x)) }
    ensures only { (x : L) → L.fit x ≡ true → bytes.now ≡ list_text (L.parts x) → Gives (λ y. y) result (Some x) }
{
    let parts = parts_of(alloc, bytes)?;
    L::take(alloc, parts.as_slice())
}

/// The list of a value's parts.
pub fn write_as_list<L: Listed>(alloc: Global, value: &L) -> Result<Str, Memory>
    ensures { IfOk result (λ made. made ≡ list_text (L.parts value.now)) }
{
    let mut parts = Seq::new(alloc);
    value.put(&mut parts)?;
    list_text(alloc, &parts)
}

/// Puts the text of a value behind other parts.
pub fn add<A: Part>(out: &mut Strs, value: &A) -> Result<(), Memory>
    ensures { OnOk result (out.new ≡ out.old ++ A.text value.now ∷ []) }
{
    let made = value.write(out.alloc())?;
    out.push(made)
}

/// Puts the texts of two values behind other parts.
pub fn add_both<A: Part, B: Part>(out: &mut Strs, a: &A, b: &B) -> Result<(), Memory>
    ensures { OnOk result (out.new ≡ out.old ++ A.text a.now ∷ B.text b.now ∷ []) }
{
    add(out, a)?;
    add(out, b)
}
