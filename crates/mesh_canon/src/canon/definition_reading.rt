// Definitions, read, and lists of texts.
ghost use Rattle.std.specs.Prelude.{◌≡◌, ℕ, List, true, IfOk};
ghost use Rattle.mesh_base.specs.declared.definitions.Own.{Own};
ghost use Rattle.mesh_base_values.specs.Kinds.{lookback_of};
ghost use Rattle.mesh_canon_text.specs.Text.{list_text, own_by, own_text, own_text_old};
ghost use Rattle.mesh_canon_words.specs.Words.{Gives};
ghost use Rattle.mesh_canon_reading.specs.Fits.{Said, are_texts, is_own};
ghost use Rattle.mesh_canon_reading.specs.Reading.{list_in, own_in};

use crate::canon::depth::is_too_deep;
use crate::canon::same::is_same;
use mesh_base::Own;
use mesh_base_values::Strs;
use mesh_canon_reading::{list, own};
use mesh_canon_text::{Form, list_text, own_by};
use mesh_canon_words::CanonFault;
use std::alloc::Global;

#[tactic(auto, unfolding(mesh_canon_reading::specs::Reading::own_in))]
fn whole_own(alloc: Global, form: Form, bytes: &[u8]) -> Result<Own, CanonFault>
    ensures { Gives (λ m. m) result (own_in form bytes.now) }
{
    let (made, rest) = own(alloc, form, bytes)?;
    match rest {
        [] => Ok(made),
        [_, ..] => {
            drop(made);
            Err(CanonFault::NotCanonical)
        }
    }
}

#[tactic(auto, unfolding(mesh_canon_reading::specs::Reading::list_in))]
fn whole_list(alloc: Global, bytes: &[u8]) -> Result<Strs, CanonFault>
    ensures { Gives (λ parts. parts) result (list_in bytes.now) }
{
    let (made, rest) = list(alloc, bytes)?;
    match rest {
        [] => Ok(made),
        [_, ..] => Err(CanonFault::NotCanonical),
    }
}

// The definition that has this text in a form. What is read is written again and compared.
fn read_by(alloc: Global, form: Form, text: &[u8]) -> Result<Own, CanonFault>
    ensures found { IfOk result (λ m. text.now ≡ own_by form m) }
    ensures said { IfOk result (λ m. Said form (lookback_of m.kind)) }
    ensures only { (m : Own) → is_own m ≡ true → Said form (lookback_of m.kind) → text.now ≡ own_by form m → Gives (λ x. x) result (Some m) }
{
    if is_too_deep(text) {
        return Err(CanonFault::Memory);
    }
    let made = whole_own(alloc, form, text)?;
    match own_by(alloc, form, &made) {
        Ok(again) => {
            if is_same(again.as_slice(), text) {
                Ok(made)
            } else {
                drop(made);
                Err(CanonFault::NotCanonical)
            }
        }
        Err(_) => {
            drop(made);
            Err(CanonFault::Memory)
        }
    }
}

/// The definition that has this canonical text. What is read is written again and compared. Expressions are read by
/// recursion, so a text in which more than 4,200 nodes are open round a place is refused for want of memory: the stack
/// might not hold them. No definition of a project has as many, as an expression has at most 4,096 nodes.
pub fn read_own(alloc: Global, text: &[u8]) -> Result<Own, CanonFault>
    // What is read has this text.
    ensures found { IfOk result (λ m. text.now ≡ own_text m) }
    // A definition that has this text is read, unless memory runs out.
    ensures only { (m : Own) → is_own m ≡ true → text.now ≡ own_text m → Gives (λ x. x) result (Some m) }
{
    read_by(alloc, Form::Current, text)
}

/// The definition that has this text as its former one, as stored warehouses have it that were written before kinds
/// said a lookback. A text that nests too deep is refused as `read_own` refuses it.
pub fn read_own_old(alloc: Global, text: &[u8]) -> Result<Own, CanonFault>
    // What is read has this former text.
    ensures found { IfOk result (λ m. text.now ≡ own_text_old m) }
    // It has no lookback.
    ensures none { IfOk result (λ m. lookback_of m.kind ≡ 0) }
    // A definition without a lookback that has this former text is read, unless memory runs out.
    ensures only { (m : Own) → is_own m ≡ true → lookback_of m.kind ≡ 0 → text.now ≡ own_text_old m → Gives (λ x. x) result (Some m) }
{
    read_by(alloc, Form::Former, text)
}

/// The texts that have this text as a list.
pub fn read_list(alloc: Global, text: &[u8]) -> Result<Strs, CanonFault>
    // What is read has this text.
    ensures found { IfOk result (λ parts. text.now ≡ list_text parts) }
    // A list that has this text is read, unless memory runs out.
    ensures only { (parts : List (List ℕ)) → are_texts parts ≡ true → text.now ≡ list_text parts → Gives (λ x. x) result (Some parts) }
{
    let made = whole_list(alloc, text)?;
    let written = list_text(alloc, &made)?;
    if is_same(written.as_slice(), text) {
        Ok(made)
    } else {
        Err(CanonFault::NotCanonical)
    }
}
