// Units and marks that are forgotten. Ranges of one object that follow one another in the list are held until another
// item comes, and then forgotten in one pass.
ghost use Rattle.std.specs.Prelude.{◌≡◌, OnOk, OnErr, IfOk};
ghost use Rattle.mesh_list.specs.Keyed.{found};
ghost use Rattle.mesh_base_values.specs.Names.{name_cmp};
ghost use Rattle.mesh_base.specs.declared.forgets.Forget.{Forget};
ghost use Rattle.mesh_house_book.specs.Changes.{version_object};
ghost use Rattle.mesh_house_book.specs.moves.Forgets.{forget_units, without_marks};
ghost use Rattle.mesh_house_book.specs.moves.Held.{all_forgotten, changed, forgotten, settled, without_spans};

use crate::{Book, Version, Versions};
use mesh_base::Forget;
use mesh_base_values::{Bounds, Name, Spans};
use mesh_list::{Duplicate, Memory, Same, Seq};
use std::mem::drop;

// Seconds of one object that are still to be forgotten.
struct Held {
    object: Name,
    spans: Spans,
}

impl Drop for Held {
    fn drop(self) {
        let Held {
            object: _,
            spans: _,
        } = self;
    }
}

/// Each range of the list is taken out of its version's ranges, and the marks of each other item's version go. What
/// names no version changes nothing.
pub fn forget_units(book: &mut Book, list: &[Forget]) -> Result<(), Memory>
    ensures ok { OnOk result (book.new ≡ forget_units book.old list.now) }
    ensures err { OnErr result (book.new ≡ book.old) }
{
    let mut versions = book.versions.copy()?;
    forget_all(&mut versions, list)?;
    book.versions = versions;
    Ok(())
}

fn forget_all(versions: &mut Versions, list: &[Forget]) -> Result<(), Memory>
    ensures { OnOk result (versions.new ≡ all_forgotten versions.old list.now) }
{
    let mut held = None;
    for item in list {
        held = forget_next(versions, held, item)?;
    }
    settle(versions, held)
}

// Goes past one item, and answers what is still to be forgotten then.
fn forget_next(
    versions: &mut Versions,
    held: Option<Held>,
    item: &Forget,
) -> Result<Option<Held>, Memory>
    ensures { IfOk result (λ left. settled left versions.new ≡ forgotten (settled held versions.old) item.now) }
{
    match item {
        Forget::Range { object, start, end } => hold(versions, held, object, *start, *end),
        Forget::Marks { object } => {
            settle(versions, held)?;
            forget_marks(versions, object)?;
            Ok(None)
        }
    }
}

// Holds one range more.
fn hold(
    versions: &mut Versions,
    held: Option<Held>,
    object: &Name,
    start: i64,
    end: i64,
) -> Result<Option<Held>, Memory>
    ensures { IfOk result (λ left. settled left versions.new ≡ forgotten (settled held versions.old) (Forget.Range object.now start end)) }
{
    if start >= end {
        return Ok(held);
    }
    match held {
        Some(mut more) if more.object.same(object) => {
            more.spans.push(Bounds { start, end })?;
            Ok(Some(more))
        }
        other => {
            settle(versions, other)?;
            let mut spans = Seq::new(object.schema.alloc());
            spans.push(Bounds { start, end })?;
            Ok(Some(Held {
                object: object.copy()?,
                spans,
            }))
        }
    }
}

// Forgets what is held.
fn settle(versions: &mut Versions, held: Option<Held>) -> Result<(), Memory>
    ensures { OnOk result (versions.new ≡ settled held versions.old) }
{
    match held {
        None => Ok(()),
        Some(held) => forget_spans(versions, &held.object, held.spans.as_slice()),
    }
}

fn forget_spans(versions: &mut Versions, object: &Name, spans: &[Bounds]) -> Result<(), Memory>
    ensures { OnOk result (versions.new ≡ changed object.now (without_spans spans.now) versions.old) }
{
    match version_of(versions, object)? {
        None => Ok(()),
        Some(mut version) => {
            let forgotten = version.ranges.forget_each(spans);
            drop(versions.exchange(version));
            forgotten
        }
    }
}

fn forget_marks(versions: &mut Versions, object: &Name) -> Result<(), Memory>
    ensures { OnOk result (versions.new ≡ changed object.now without_marks versions.old) }
{
    match version_of(versions, object)? {
        None => Ok(()),
        Some(mut version) => {
            version.marks = None;
            drop(versions.exchange(version));
            Ok(())
        }
    }
}

// The version of an object, where there is one.
fn version_of(versions: &Versions, object: &Name) -> Result<Option<Version>, Memory>
    ensures { IfOk result (λ version. version ≡ found name_cmp version_object object.now versions.now) }
{
    match versions.find(object) {
        Some(version) => Ok(Some(version.copy()?)),
        None => Ok(None),
    }
}
