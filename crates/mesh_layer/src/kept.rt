// What a warehouse keeps under a name, read so that little of it lies on the stack.
ghost use Rattle.std.specs.Prelude.{◌≡◌, IfOk, List, Some, None};
ghost use Rattle.std.specs.Option.{option_copied, option_map};
ghost use Rattle.mesh_base_values.specs.declared.values.Cell.{Cell};
ghost use Rattle.mesh_base_values.specs.declared.values.Column.{Column};
ghost use Rattle.mesh_house.specs.declared.objects.Body.TheVariants as body;
ghost use Rattle.mesh_house.specs.House.{Reads};
ghost use Rattle.mesh_house.specs.World.{body, body_of, head, object_at, rows_of};
ghost use Rattle.mesh_layer.specs.declared.kept.Kept.TheVariants as kept;
ghost use Rattle.mesh_layer.specs.Read.{kept_of, read_rows};

use crate::sources::read_rows;
use mesh_base_values::{Column, Name, Rows, has_two_underscores};
use mesh_house::{Body, Warehouse, WhFail};
use mesh_list::{Boxed, Memory, Seq};
use std::alloc::Global;

/// The rows of a table, or the body of a stored query in a box.
#[derive(Drop)]
pub(crate) enum Kept {
    Rows(Rows),
    Query(Boxed<Body>),
}

/// The rows of a table.
fn body_rows(alloc: Global, kept: Body) -> Rows
    ensures { (rows : List (List Cell)) → kept ≡ body.Rows rows → result ≡ rows }
{
    match kept.into_rows() {
        Some(rows) => rows,
        None => Seq::new(alloc),
    }
}

fn kept_of(alloc: Global, body: Body) -> Result<Kept, Memory>
    ensures { IfOk result (λ kept. kept ≡ kept_of body) }
{
    match &body {
        Body::Rows(_) => Ok(Kept::Rows(body_rows(alloc, body))),
        Body::Stored { .. } => {
            let stored = Boxed::new(alloc, body)?;
            Ok(Kept::Query(stored))
        }
    }
}

fn body_kept<W: Warehouse>(
    alloc: Global,
    house: &mut W,
    name: &Name,
) -> Result<Option<Kept>, WhFail>
    ensures { Reads (λ w. option_map kept_of (body w name.now)) (W.told house.old) (W.told house.new) result }
{
    match house.body(alloc, name)? {
        None => Ok(None),
        Some(body) => {
            let kept = kept_of(alloc, body)?;
            Ok(Some(kept))
        }
    }
}

/// What the object of that name keeps.
fn object_kept<W: Warehouse>(
    alloc: Global,
    house: &mut W,
    name: &Name,
) -> Result<Option<Kept>, WhFail>
    ensures { Reads (λ w. option_map kept_of (body_of (object_at w name.now))) (W.told house.old) (W.told house.new) result }
{
    if has_two_underscores(name.schema.as_slice()) {
        body_kept(alloc, house, name)
    } else {
        Ok(None)
    }
}

/// The rows of a table, where that is kept.
fn rows_of(body: Option<Body>) -> Option<Rows>
    ensures { result ≡ rows_of body }
{
    match body {
        Some(body) => body.into_rows(),
        None => None,
    }
}

/// The rows of the source of that name with the declared columns alone, and none where it has another shape.
fn source_kept<W: Warehouse>(
    alloc: Global,
    house: &mut W,
    name: &Name,
    declared: &[Column],
) -> Result<Option<Kept>, WhFail>
    ensures { Reads (λ w. Some (kept.Rows (read_rows declared.now (head w name.now) (rows_of (body w name.now))))) (W.told house.old) (W.told house.new) result }
{
    let columns = house.head(alloc, name)?;
    let body = house.body(alloc, name)?;
    let rows = read_rows(alloc, declared, &columns, rows_of(body))?;
    Ok(Some(Kept::Rows(rows)))
}

/// What the object of that name keeps or, by the columns that it is declared with, the source. One function reads
/// both: as it is long and is called from two places, Rattle's own compiler doesn't inline it either.
#[inline(never)]
pub(crate) fn kept_at<W: Warehouse>(
    alloc: Global,
    house: &mut W,
    name: &Name,
    declared: Option<&[Column]>,
) -> Result<Option<Kept>, WhFail>
    ensures object { declared.entry ≡ None → Reads (λ w. option_map kept_of (body_of (object_at w name.now))) (W.told house.old) (W.told house.new) result }
    ensures source { (columns : List Column) → option_copied declared.entry ≡ Some columns → Reads (λ w. Some (kept.Rows (read_rows columns (head w name.now) (rows_of (body w name.now))))) (W.told house.old) (W.told house.new) result }
{
    match declared {
        None => object_kept(alloc, house, name),
        Some(declared) => source_kept(alloc, house, name, declared),
    }
}

/// The rows that are kept.
pub(crate) fn table_rows(alloc: Global, read: Option<Kept>) -> Rows
    ensures { (rows : List (List Cell)) → read ≡ Some (kept.Rows rows) → result ≡ rows }
{
    match read {
        Some(Kept::Rows(rows)) => rows,
        _ => Seq::new(alloc),
    }
}
