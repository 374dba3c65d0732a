// One of each row.
ghost use Rattle.std.specs.Prelude.{◌≡◌, ℕ, ◌<◌, false, if◌then◌else◌, [], ◌∷◌, ◌++◌, length, not, take, slice_index_or, IfOk, OnOk};
ghost use Rattle.std.specs.List.{list_any};
ghost use Rattle.mesh_spec_query.specs.Aggregates.{distinct};
ghost use Rattle.mesh_spec_query.specs.Sel.{same_row};

use crate::joins::index::index::Index;
use crate::joins::index::listed::Listed;
use mesh_base_values::{Row, Rows};
use mesh_list::Memory;
use std::alloc::Global;

/// For each row, whether none before equals it.
fn firsts(alloc: Global, rows: &[Row]) -> Result<Vec<bool>, Memory>
    ensures { IfOk result (λ made. (length made.items ≡ length rows.now) × ((i : ℕ) → i < length rows.now → slice_index_or made.items i false ≡ not (list_any (same_row (slice_index_or rows.now i [])) (take i rows.now)))) }
{
    let index = Index::new(alloc, Listed::Each(rows))?;
    let mut made = Vec::new(alloc);
    for at in 0..rows.len() {
        made.push(index.is_first(at))?;
    }
    Ok(made)
}

/// One of each row, in the order in which they first stand.
pub fn distinct_rows(rows: Rows) -> Result<Rows, Memory>
    ensures { IfOk result (λ made. made ≡ distinct same_row rows) }
{
    let alloc = rows.alloc();
    let firsts = firsts(alloc, rows.as_slice())?;
    kept(rows, firsts.as_slice())
}

/// The rows that are the first of their kind.
fn kept(rows: Rows, firsts: &[bool]) -> Result<Rows, Memory>
    requires { (i : ℕ) → i < length rows → slice_index_or firsts.now i false ≡ not (list_any (same_row (slice_index_or rows i [])) (take i rows)) }
    ensures { IfOk result (λ made. made ≡ distinct same_row rows) }
{
    let mut made = Rows::new(rows.alloc());
    let mut at = 0usize;
    for row in rows.into_vec() {
        keep_if(is_set(firsts, at), row, &mut made)?;
        at = at.saturating_add(1);
    }
    Ok(made)
}

fn is_set(bits: &[bool], at: usize) -> bool
    ensures { result ≡ slice_index_or bits.now at false }
{
    match bits.get(at) {
        Some(bit) => *bit,
        None => false,
    }
}

fn keep_if(keep: bool, row: Row, made: &mut Rows) -> Result<(), Memory>
    ensures { OnOk result (made.new ≡ (if keep then made.old ++ row ∷ [] else made.old)) }
{
    if keep {
        made.push(row)?;
    }
    Ok(())
}
