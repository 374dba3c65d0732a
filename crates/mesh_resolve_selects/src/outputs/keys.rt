// The keys of GROUP BY.
ghost use Rattle.std.specs.Prelude.{◌≡◌, ◌++◌, ◌∷◌, IfOk, OnOk};
ghost use Rattle.std.specs.List.{list_any};
ghost use Rattle.std.specs.Option.{option_copied};
ghost use Rattle.mesh_base.specs.declared.expressions.Expr.{out-Expr};
ghost use Rattle.mesh_query_tokens.specs.Gives.{Gives};
ghost use Rattle.mesh_query_tokens.specs.Walk.{along};
ghost use Rattle.mesh_resolve_selects.specs.outputs.Leads.{Leads};
ghost use Rattle.mesh_resolve_selects.specs.outputs.Keys.{by_number, is_input, item_at, item_meant, key, key_expr, key_exprs, keys, number_of, one_key, output_named};

use crate::outputs::outputs::Output;
use mesh_base::Expr;
use mesh_base_values::{Cell, Str, same_text};
use mesh_list::{Duplicate, Memory, Seq};
use mesh_query_grammar::surface::OrExpr;
use mesh_query_tokens::ReadFault;
use mesh_resolve_scope::sight::Sight;
use mesh_resolve_scope::{lone_name, typed_expression};
use mesh_resolve_types::Typed;
use std::alloc::Global;

/// A key: an expression, an item by its place or its name, or a number that no item has.
pub enum Key {
    Part(Typed),
    Item { at: u64, expr: Expr },
    Missing { at: u64 },
}

impl Drop for Key {
    fn drop(self) {
        match self {
            Key::Part(_) | Key::Item { at: _, expr: _ } | Key::Missing { at: _ } => {}
        }
    }
}

// The first item of that name.
fn output_named<'a>(outputs: &'a [Output], name: &Str) -> Option<&'a Expr>
    ensures { option_copied result ≡ output_named outputs.now name.now }
{
    for o in outputs {
        if same_text(o.name.as_slice(), name.as_slice()) {
            return Some(o.typed.expr.get());
        }
    }
    None
}

// A column of some FROM item has that name.
fn is_input(name: &Str, sight: &Sight) -> bool
    ensures { result ≡ is_input name.now sight.now.from }
{
    sight.has_column(name)
}

// The item that a single name means.
fn item_meant<'a>(sight: &Sight, outputs: &'a [Output], name: &Option<Str>) -> Option<&'a Expr>
    ensures { option_copied result ≡ item_meant sight.now outputs.now name.now }
{
    match name {
        None => None,
        Some(name) => {
            if is_input(name, sight) {
                None
            } else {
                output_named(outputs, name)
            }
        }
    }
}

// The number that an expression is.
fn number_of(e: &Expr) -> Option<i64>
    ensures { result ≡ number_of (out-Expr e.now) }
{
    match e {
        Expr::Literal(Cell::Int(n)) => Some(*n),
        _ => None,
    }
}

fn item_at(at: u64, outputs: &[Output], n: i64) -> Result<Key, Memory>
    ensures { IfOk result (λ made. made ≡ item_at at outputs.now n) }
{
    if n < 1 {
        return Ok(Key::Missing { at });
    }
    match outputs.get((n - 1) as usize) {
        Some(o) => {
            let expr = o.typed.expr.get().copy()?;
            Ok(Key::Item { at, expr })
        }
        None => Ok(Key::Missing { at }),
    }
}

fn by_number(at: u64, outputs: &[Output], t: Typed) -> Result<Key, Memory>
    ensures { IfOk result (λ made. made ≡ by_number at outputs.now t (number_of (out-Expr t.expr))) }
{
    match number_of(t.expr.get()) {
        Some(n) => item_at(at, outputs, n),
        None => Ok(Key::Part(t)),
    }
}

#[tactic(auto, unfolding(crate::specs::outputs::Keys::key))]
fn key_meant(alloc: Global, sight: &Sight, outputs: &[Output], e: &OrExpr) -> Result<Key, ReadFault>
    ensures { Gives result (key sight.now outputs.now e.now) }
{
    let name = lone_name(e)?;
    let meant = item_meant(sight, outputs, &name);
    drop(name);
    match meant {
        Some(item) => {
            let expr = item.copy()?;
            Ok(Key::Item { at: e.at, expr })
        }
        None => {
            let t = typed_expression(alloc, sight, e)?;
            let made = by_number(e.at, outputs, t)?;
            Ok(made)
        }
    }
}

fn one_key(
    alloc: Global,
    sight: &Sight,
    outputs: &[Output],
    e: &OrExpr,
    done: &mut Seq<Key>,
) -> Result<(), ReadFault>
    ensures { Leads result done.new (one_key sight.now outputs.now done.old e.now) }
{
    let made = key_meant(alloc, sight, outputs, e)?;
    done.push(made)?;
    Ok(())
}

#[tactic(auto, using(crate::proofs::outputs::Steps::none_along, crate::proofs::outputs::Steps::one_more, crate::proofs::outputs::Steps::stops, crate::proofs::outputs::Steps::all_along))]
fn add_keys(
    alloc: Global,
    sight: &Sight,
    outputs: &[Output],
    es: &[OrExpr],
    done: &mut Seq<Key>,
) -> Result<(), ReadFault>
    ensures { Leads result done.new (along (one_key sight.now outputs.now) done.old es.now) }
{
    for e in es {
        one_key(alloc, sight, outputs, e, done)?;
    }
    Ok(())
}

/// The keys, from left to right.
#[tactic(auto, unfolding(crate::specs::outputs::Keys::keys))]
pub fn keys(
    alloc: Global,
    sight: &Sight,
    outputs: &[Output],
    es: &[OrExpr],
) -> Result<Seq<Key>, ReadFault>
    ensures { Gives result (keys sight.now outputs.now es.now) }
{
    let mut done = Seq::new(alloc);
    add_keys(alloc, sight, outputs, es, &mut done)?;
    Ok(done)
}

fn add_key_expr(k: &Key, made: &mut Seq<Expr>) -> Result<(), Memory>
    ensures { OnOk result (made.new ≡ made.old ++ key_expr k.now) }
{
    match k {
        Key::Part(t) => {
            let expr = t.expr.get().copy()?;
            made.push(expr)
        }
        Key::Item { expr, .. } => {
            let expr = expr.copy()?;
            made.push(expr)
        }
        Key::Missing { .. } => Ok(()),
    }
}

/// The keys of the resolved SELECT.
pub fn key_exprs(alloc: Global, keys: &[Key]) -> Result<Seq<Expr>, Memory>
    ensures { IfOk result (λ made. made ≡ key_exprs keys.now) }
{
    let mut made = Seq::new(alloc);
    for k in keys {
        add_key_expr(k, &mut made)?;
    }
    Ok(made)
}
