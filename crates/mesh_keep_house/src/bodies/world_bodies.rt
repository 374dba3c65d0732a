// The bodies of the records of views, objects and sources.
ghost use Rattle.std.specs.Prelude.{◌≡◌, true, IfOk};
ghost use Rattle.mesh_canon_text.specs.Text.{list_text};
ghost use Rattle.mesh_keep_records.specs.Records.{body_parts, object_fits, object_text, source_fits, source_text, stored_text, view_text};

use mesh_base::Input;
use mesh_base_values::Str;
use mesh_canon_text::{list_text, own_text};
use mesh_house::{Body, Object, ViewOf};
use mesh_keep_records::{add, add_both, bytes_text, object_rule, source_rule};
use mesh_list::{Memory, Seq};
use std::alloc::Global;

/// The body of a view's record.
pub fn view_body(alloc: Global, view: &ViewOf) -> Result<Str, Memory>
    ensures { IfOk result (λ text. text ≡ view_text view.now) }
{
    let mut parts = Seq::new(alloc);
    add_both(&mut parts, &view.view, &view.target)?;
    list_text(alloc, &parts)
}

// What an object keeps.
fn kept_text(alloc: Global, body: &Body) -> Result<Str, Memory>
    ensures { IfOk result (λ text. text ≡ list_text (body_parts (stored_text body.now) body.now)) }
{
    let mut parts = Seq::new(alloc);
    match body {
        Body::Rows(rows) => {
            let word = bytes_text(alloc, b"rows")?;
            add_both(&mut parts, &word, rows)?;
        }
        Body::Stored { own, targets } => {
            let word = bytes_text(alloc, b"stored")?;
            let own = own_text(alloc, own)?;
            add_both(&mut parts, &word, &own)?;
            add(&mut parts, targets)?;
        }
    }
    list_text(alloc, &parts)
}

/// The body of an object's record, with the canonical text of its definition where it stores one.
pub fn object_body(alloc: Global, object: &Object) -> Result<Str, Memory>
    ensures written { IfOk result (λ text. text ≡ object_text (stored_text object.now.body) object.now) }
    ensures fits { object_fits object.now ≡ true }
{
    object_rule(object);
    let kept = kept_text(alloc, &object.body)?;
    let mut parts = Seq::new(alloc);
    add_both(&mut parts, &object.name, &object.columns)?;
    add(&mut parts, &kept)?;
    list_text(alloc, &parts)
}

/// The body of a source's record.
pub fn source_body(alloc: Global, source: &Input) -> Result<Str, Memory>
    ensures written { IfOk result (λ text. text ≡ source_text source.now) }
    ensures fits { source_fits source.now ≡ true }
{
    source_rule(source);
    let mut parts = Seq::new(alloc);
    add_both(&mut parts, &source.name, &source.columns)?;
    add(&mut parts, &source.rows)?;
    list_text(alloc, &parts)
}
