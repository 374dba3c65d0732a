// The records of views, objects and sources.
ghost use Rattle.std.specs.Prelude.{◌≡◌, ◌∷◌, true, IfOk, Some};
ghost use Rattle.mesh_base.specs.declared.jobs.Input.{Input};
ghost use Rattle.mesh_house.specs.declared.objects.Body.{Body};
ghost use Rattle.mesh_house.specs.declared.objects.Object.{Object};
ghost use Rattle.mesh_house.specs.declared.world.ViewOf.{ViewOf};
ghost use Rattle.mesh_canon_words.specs.Words.{Gives};
ghost use Rattle.mesh_keep_records.specs.Records.{AreBodyParts, AreRowParts, AreStoredParts, IsBodyText, IsObjectText, body_fits, object_fits, source_fits, source_text, view_text};

use crate::held::{object_rule, source_rule};
use crate::numbers::is_same;
use crate::part::{Listed, parts_of, read_as_list};
use mesh_base::Input;
use mesh_base_values::{Columns, Name, Pairs, Rows, Str};
use mesh_canon::canon::read_definition;
use mesh_canon_words::CanonFault;
use mesh_house::{Body, Object, ViewOf};
use std::alloc::Global;

type ViewFields = (Name, (Name, ()));

/// The fields of an object, with what it keeps as a text.
type ObjectFields = (Name, (Columns, (Str, ())));

type SourceFields = (Name, (Columns, (Rows, ())));

/// The view that has this body.
pub fn read_view(alloc: Global, text: &[u8]) -> Result<ViewOf, CanonFault>
    ensures found { IfOk result (λ v. text.now ≡ view_text v) }
    ensures only { (v : ViewOf) → text.now ≡ view_text v → Gives (λ x. x) result (Some v) }
{
    let (view, (target, ())) = read_as_list::<ViewFields>(alloc, text)?;
    Ok(ViewOf { view, target })
}

// Rows, by the parts behind their word.
fn take_rows(alloc: Global, texts: &[Str]) -> Result<Body, CanonFault>
    ensures found { IfOk result (λ b. AreRowParts texts.now b) }
    ensures only { (b : Body) → body_fits b ≡ true → AreRowParts texts.now b → Gives (λ x. x) result (Some b) }
{
    let (rows, ()) = <(Rows, ())>::take(alloc, texts)?;
    Ok(Body::Rows(rows))
}

// A stored query, by the parts behind its word.
fn take_stored(alloc: Global, texts: &[Str]) -> Result<Body, CanonFault>
    ensures found { IfOk result (λ b. AreStoredParts texts.now b) }
    ensures only { (b : Body) → body_fits b ≡ true → AreStoredParts texts.now b → Gives (λ x. x) result (Some b) }
{
    let (definition, (targets, ())) = <(Str, (Pairs, ()))>::take(alloc, texts)?;
    let own = read_definition(alloc, definition.as_slice())?;
    Ok(Body::Stored { own, targets })
}

// What an object keeps, by the word and the parts behind it.
fn take_kept(alloc: Global, word: &[u8], rest: &[Str]) -> Result<Body, CanonFault>
    ensures found { IfOk result (λ b. AreBodyParts (word.now ∷ rest.now) b) }
    ensures only { (b : Body) → body_fits b ≡ true → AreBodyParts (word.now ∷ rest.now) b → Gives (λ x. x) result (Some b) }
{
    if is_same(word, b"rows") {
        return take_rows(alloc, rest);
    }
    if is_same(word, b"stored") {
        return take_stored(alloc, rest);
    }
    Err(CanonFault::NotCanonical)
}

// What an object keeps, by its parts.
fn take_body(alloc: Global, texts: &[Str]) -> Result<Body, CanonFault>
    ensures found { IfOk result (λ b. AreBodyParts texts.now b) }
    ensures only { (b : Body) → body_fits b ≡ true → AreBodyParts texts.now b → Gives (λ x. x) result (Some b) }
{
    match texts {
        [] => Err(CanonFault::NotCanonical),
        [word, rest @ ..] => take_kept(alloc, word.as_slice(), rest),
    }
}

// What an object keeps, by its text.
fn read_kept(alloc: Global, text: &[u8]) -> Result<Body, CanonFault>
    ensures found { IfOk result (λ b. IsBodyText text.now b) }
    ensures only { (b : Body) → body_fits b ≡ true → IsBodyText text.now b → Gives (λ x. x) result (Some b) }
{
    let parts = parts_of(alloc, text)?;
    take_body(alloc, parts.as_slice())
}

/// The object that has this body.
pub fn read_object(alloc: Global, text: &[u8]) -> Result<Object, CanonFault>
    ensures found { IfOk result (λ o. IsObjectText text.now o) }
    ensures fits { IfOk result (λ o. object_fits o ≡ true) }
    ensures only { (o : Object) → object_fits o ≡ true → IsObjectText text.now o → Gives (λ x. x) result (Some o) }
{
    let (name, (columns, (kept, ()))) = read_as_list::<ObjectFields>(alloc, text)?;
    let body = read_kept(alloc, kept.as_slice())?;
    let object = Object {
        name,
        columns,
        body,
    };
    object_rule(&object);
    Ok(object)
}

/// The source that has this body.
pub fn read_source(alloc: Global, text: &[u8]) -> Result<Input, CanonFault>
    ensures found { IfOk result (λ s. text.now ≡ source_text s) }
    ensures fits { IfOk result (λ s. source_fits s ≡ true) }
    ensures only { (s : Input) → source_fits s ≡ true → text.now ≡ source_text s → Gives (λ x. x) result (Some s) }
{
    let (name, (columns, (rows, ()))) = read_as_list::<SourceFields>(alloc, text)?;
    let source = Input {
        name,
        columns,
        rows,
    };
    source_rule(&source);
    Ok(source)
}
