// Where columns and aggregates may stand in an item and in HAVING.
ghost use Rattle.std.specs.Prelude.{◌≡◌, [], ◌∷◌, ◌++◌, IfOk, OnOk, map, take};
ghost use Rattle.std.specs.List.{sum};
ghost use Rattle.mesh_resolve_selects.specs.groups.Grouping.{placed, placed_all, placed_parts, placed_when, placed_whens};
ghost use Rattle.mesh_resolve_selects.specs.groups.Sizes.{counted, size, sizes_of, when_size};

use crate::groups::barred::bar;
use crate::groups::keys::is_key;
use mesh_base::{Expr, When};
use mesh_list::{Memory, Seq};
use std::alloc::Global;
use std::mem::replace;

/// Whether each column and aggregate breaks the rule.
pub(crate) fn place(
    e: &Expr,
    keys: &[Expr],
    free: bool,
    breaches: &mut Seq<bool>,
) -> Result<(), Memory>
    ensures { OnOk result (breaches.new ≡ breaches.old ++ placed keys.now e.now free) }
{
    let sizes = sizes_of(breaches.alloc(), keys)?;
    place_part(e, keys, sizes.as_slice(), free, 0, breaches)?;
    Ok(())
}

/// A key is walked as an item is, since the walk counts nodes.
fn sizes_of(alloc: Global, keys: &[Expr]) -> Result<Seq<u64>, Memory>
    ensures { IfOk result (λ made. made ≡ sizes_of keys.now) }
{
    let mut sizes = Seq::new(alloc);
    for key in keys {
        let mut breaches = Seq::new(alloc);
        let size = place_part(key, &[], &[], true, 0, &mut breaches)?;
        sizes.push(size)?;
    }
    Ok(sizes)
}

fn put(breach: bool, count: u64, breaches: &mut Seq<bool>) -> Result<u64, Memory>
    ensures put { OnOk result (breaches.new ≡ breaches.old ++ breach ∷ []) }
    ensures counted { IfOk result (λ after. after ≡ count) }
{
    breaches.push(breach)?;
    Ok(count)
}

fn cut(breaches: &mut Seq<bool>, length: usize)
    ensures { breaches.new ≡ take length breaches.old }
{
    let nothing = Seq::new(breaches.alloc());
    let mut items = replace(breaches, nothing).into_vec();
    items.truncate(length);
    *breaches = Seq::from_vec(items);
}

/// `before` nodes were walked before it, and the answer is how many were when it had been. Its parts are walked
/// first, since they tell how many nodes it has; those of a key are walked again, as often as there are keys that
/// they stand in.
#[tactic(auto, using(crate::proofs::groups::Placed::placed_out))]
#[cycle(places)]
fn place_part(
    e: &Expr,
    keys: &[Expr],
    sizes: &[u64],
    free: bool,
    before: u64,
    breaches: &mut Seq<bool>,
) -> Result<u64, Memory>
    requires { sizes.now ≡ sizes_of keys.now }
    ensures placed { OnOk result (breaches.new ≡ breaches.old ++ placed keys.now e.now free) }
    ensures counted { IfOk result (λ after. after ≡ counted before (size e.now)) }
{
    let start = breaches.len();
    let after = place_parts(e, keys, sizes, free, before, breaches)?;
    if free {
        return Ok(after);
    }
    if !is_key(e, keys, sizes, before, after) {
        return Ok(after);
    }
    cut(breaches, start);
    place_parts(e, keys, sizes, true, before, breaches)
}

#[cycle(places)]
fn place_parts(
    e: &Expr,
    keys: &[Expr],
    sizes: &[u64],
    free: bool,
    before: u64,
    breaches: &mut Seq<bool>,
) -> Result<u64, Memory>
    requires { sizes.now ≡ sizes_of keys.now }
    ensures placed { OnOk result (breaches.new ≡ breaches.old ++ placed_parts keys.now e.now free) }
    ensures counted { IfOk result (λ after. after ≡ counted before (size e.now)) }
{
    let count = before.saturating_add(1);
    match e {
        Expr::Literal(_) | Expr::Macro(_) => Ok(count),
        Expr::Col { .. } => put(!free, count, breaches),
        Expr::CountAll => put(false, count, breaches),
        Expr::Neg(value) | Expr::Not(value) | Expr::IsNull(value) | Expr::Cast { value, .. } =>
            place_part(value.get(), keys, sizes, free, count, breaches),
        Expr::Binary { left, right, .. } => {
            let count = place_part(left.get(), keys, sizes, free, count, breaches)?;
            place_part(right.get(), keys, sizes, free, count, breaches)
        }
        Expr::Between { value, low, high } => {
            let count = place_part(value.get(), keys, sizes, free, count, breaches)?;
            let count = place_part(low.get(), keys, sizes, free, count, breaches)?;
            place_part(high.get(), keys, sizes, free, count, breaches)
        }
        Expr::OneOf { value, of } => {
            let count = place_part(value.get(), keys, sizes, free, count, breaches)?;
            place_all(of.as_slice(), keys, sizes, free, count, breaches)
        }
        Expr::Call { args, .. } => place_all(args.as_slice(), keys, sizes, free, count, breaches),
        Expr::Case { whens, otherwise } => {
            let count = place_whens(whens.as_slice(), keys, sizes, free, count, breaches)?;
            place_part(otherwise.get(), keys, sizes, free, count, breaches)
        }
        Expr::Agg { value, .. } => {
            bar(value.get(), breaches)?;
            put(false, count, breaches)
        }
    }
}

#[cycle(places)]
fn place_all(
    es: &[Expr],
    keys: &[Expr],
    sizes: &[u64],
    free: bool,
    before: u64,
    breaches: &mut Seq<bool>,
) -> Result<u64, Memory>
    requires { sizes.now ≡ sizes_of keys.now }
    ensures placed { OnOk result (breaches.new ≡ breaches.old ++ placed_all keys.now es.now free) }
    ensures counted { IfOk result (λ after. after ≡ counted before (sum (map size es.now))) }
{
    let mut count = before;
    for e in es {
        count = place_part(e, keys, sizes, free, count, breaches)?;
    }
    Ok(count)
}

#[cycle(places)]
fn place_whens(
    whens: &[When],
    keys: &[Expr],
    sizes: &[u64],
    free: bool,
    before: u64,
    breaches: &mut Seq<bool>,
) -> Result<u64, Memory>
    requires { sizes.now ≡ sizes_of keys.now }
    ensures placed { OnOk result (breaches.new ≡ breaches.old ++ placed_whens keys.now whens.now free) }
    ensures counted { IfOk result (λ after. after ≡ counted before (sum (map when_size whens.now))) }
{
    let mut count = before;
    for w in whens {
        count = place_when(w, keys, sizes, free, count, breaches)?;
    }
    Ok(count)
}

#[cycle(places)]
fn place_when(
    w: &When,
    keys: &[Expr],
    sizes: &[u64],
    free: bool,
    before: u64,
    breaches: &mut Seq<bool>,
) -> Result<u64, Memory>
    requires { sizes.now ≡ sizes_of keys.now }
    ensures placed { OnOk result (breaches.new ≡ breaches.old ++ placed_when keys.now w.now free) }
    ensures counted { IfOk result (λ after. after ≡ counted before (when_size w.now)) }
{
    let count = place_part(&w.test, keys, sizes, free, before, breaches)?;
    place_part(&w.value, keys, sizes, free, count, breaches)
}
