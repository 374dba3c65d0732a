// FROM items that are bound to the unit.
ghost use Rattle.std.specs.Prelude.{◌≡◌, IfOk, OnOk};
ghost use Rattle.mesh_base.specs.declared.expressions.Expr.{out-Expr};
ghost use Rattle.mesh_spec_changes.specs.steady.Steady.{bounds, bounds_in, is_bound, is_column};
ghost use Rattle.mesh_lineage.specs.Bound.{AreBound, Gains, has_place};
ghost use Rattle.mesh_lineage.specs.Named.{places_of};
ghost use Rattle.mesh_lineage.specs.Reaches.{bounds_parts};

use crate::ends::{are_ends, is_and, is_column};
use crate::named::{Named, both_done};
use mesh_base::{Expr, FromItem, Join, Select};
use mesh_base_values::{Str, same_text};
use mesh_list::Memory;
use std::alloc::Global;

// A condition has, among the conjuncts at its top, one that binds this column to the unit. The right side is looked at
// first, which is mostly one conjunct, and the left one all those before it.
#[tactic(auto, using(crate::proofs::Tops::bounds_out))]
#[cycle(bounds)]
fn bounds(e: &Expr, place: usize, time: &Str) -> bool
    ensures { result ≡ bounds place time.now e.now }
{
    bounds_parts(e, place, time)
}

#[cycle(bounds)]
fn bounds_parts(e: &Expr, place: usize, time: &Str) -> bool
    ensures { result ≡ bounds_parts place time.now (out-Expr e.now) }
{
    match e {
        Expr::Binary { op, left, right } => {
            is_and(*op) && (bounds(right.get(), place, time) || bounds(left.get(), place, time))
        }
        Expr::Between { value, low, high } => {
            is_column(value.get(), place, time) && are_ends(low.get(), high.get())
        }
        _ => false,
    }
}

fn bounds_in(condition: &Option<Expr>, place: usize, time: &Str) -> bool
    ensures { result ≡ bounds_in place time.now condition.now }
{
    match condition {
        None => false,
        Some(e) => bounds(e, place, time),
    }
}

fn add_column<'a>(e: &'a Expr, places: &mut Named<'a>) -> Result<(), Memory>
    ensures { OnOk result (Gains places.old places.new (λ item name. is_column item name e.now)) }
{
    match e {
        Expr::Col { item, name } => places.push(*item, name),
        _ => Ok(()),
    }
}

// Each column that a condition binds to the unit, put behind others.
#[tactic(auto, using(crate::proofs::Tops::bounds_out))]
#[cycle(bound)]
fn add_bound<'a>(e: &'a Expr, places: &mut Named<'a>) -> Result<(), Memory>
    ensures { OnOk result (Gains places.old places.new (λ item name. bounds item name e.now)) }
{
    add_bound_parts(e, places)
}

#[cycle(bound)]
fn add_bound_parts<'a>(e: &'a Expr, places: &mut Named<'a>) -> Result<(), Memory>
    ensures { OnOk result (Gains places.old places.new (λ item name. bounds_parts item name (out-Expr e.now))) }
{
    match e {
        Expr::Binary { op, left, right } => {
            if is_and(*op) {
                both_done(
                    add_bound(left.get(), places),
                    add_bound(right.get(), places),
                )
            } else {
                Ok(())
            }
        }
        Expr::Between { value, low, high } => {
            if are_ends(low.get(), high.get()) {
                add_column(value.get(), places)
            } else {
                Ok(())
            }
        }
        _ => Ok(()),
    }
}

/// The columns that a WHERE binds to the unit.
pub(crate) fn bound_by<'a>(alloc: Global, filter: &'a Option<Expr>) -> Result<Named<'a>, Memory>
    ensures { IfOk result (λ places. AreBound places filter.now) }
{
    let mut places = Named::new(alloc);
    if let Some(e) = filter {
        add_bound(e, &mut places)?;
    }
    Ok(places)
}

fn has_place(places: &[(u32, &Str)], item: usize, name: &Str) -> bool
    ensures { result ≡ has_place (places_of places.now) item name.now }
{
    for p in places {
        if p.0 as usize == item && same_text(p.1.as_slice(), name.as_slice()) {
            return true;
        }
    }
    false
}

/// A SELECT, and the columns that its WHERE binds to the unit.
pub(crate) struct Filtered<'a> {
    pub select: &'a Select,
    pub bound: Named<'a>,
}

impl<'a> Drop for Filtered<'a> {
    fn drop(self) {
        let Filtered {
            select: _,
            bound: _,
        } = self;
    }
}

/// The FROM item at a place of a SELECT is bound to the unit by this column.
pub(crate) fn is_bound(s: &Filtered, place: usize, f: &FromItem, time: &Str) -> bool
    requires { AreBound s.now.bound s.now.select.now.filter }
    ensures { result ≡ is_bound s.now.select.now place f.now time.now }
{
    match f.join {
        Join::First | Join::Cross => has_place(s.bound.as_slice(), place, time),
        Join::Inner => {
            has_place(s.bound.as_slice(), place, time) || bounds_in(&f.on, place, time)
        }
        Join::Left => bounds_in(&f.on, place, time),
    }
}
