// Where macros stand.
ghost use Rattle.std.specs.Prelude.{◌≡◌, map};
ghost use Rattle.std.specs.List.{list_any};
ghost use Rattle.mesh_base.specs.declared.queries.FromItem.{FromItem};
ghost use Rattle.mesh_base.specs.declared.queries.Item.{Item};
ghost use Rattle.mesh_lineage.specs.Joinable.{has_macro, has_macro_elsewhere, has_macro_in, macro_when};

use mesh_base::{Expr, FromItem, Item, Select, When};

/// A macro stands in an expression.
#[cycle(macros)]
pub(crate) fn has_macro(e: &Expr) -> bool
    ensures { result ≡ has_macro e.now }
{
    match e {
        Expr::Literal(_) | Expr::Col { .. } | Expr::CountAll => false,
        Expr::Macro(_) => true,
        Expr::Neg(value)
        | Expr::Not(value)
        | Expr::IsNull(value)
        | Expr::Cast { value, .. }
        | Expr::Agg { value, .. } => has_macro(value.get()),
        Expr::Binary { left, right, .. } => has_macro(left.get()) || has_macro(right.get()),
        Expr::Between { value, low, high } => {
            has_macro(value.get()) || has_macro(low.get()) || has_macro(high.get())
        }
        Expr::OneOf { value, of } => has_macro(value.get()) || some_has(of.as_slice()),
        Expr::Call { args, .. } => some_has(args.as_slice()),
        Expr::Case { whens, otherwise } => {
            some_when_has(whens.as_slice()) || has_macro(otherwise.get())
        }
    }
}

#[cycle(macros)]
fn some_has(es: &[Expr]) -> bool
    ensures { result ≡ list_any (λ b. b) (map has_macro es.now) }
{
    let mut found = false;
    for e in es {
        found = found || has_macro(e);
    }
    found
}

#[cycle(macros)]
fn some_when_has(whens: &[When]) -> bool
    ensures { result ≡ list_any (λ b. b) (map macro_when whens.now) }
{
    let mut found = false;
    for w in whens {
        found = found || (has_macro(&w.test) || has_macro(&w.value));
    }
    found
}

fn has_macro_in(condition: &Option<Expr>) -> bool
    ensures { result ≡ has_macro_in condition.now }
{
    match condition {
        None => false,
        Some(e) => has_macro(e),
    }
}

fn some_item_has(items: &[Item]) -> bool
    ensures { result ≡ list_any (λ (i : Item). has_macro i.expr) items.now }
{
    let mut found = false;
    for i in items {
        found = found || has_macro(&i.expr);
    }
    found
}

fn some_on_has(from: &[FromItem]) -> bool
    ensures { result ≡ list_any (λ (f : FromItem). has_macro_in f.on) from.now }
{
    let mut found = false;
    for f in from {
        found = found || has_macro_in(&f.on);
    }
    found
}

fn some_key_has(keys: &[Expr]) -> bool
    ensures { result ≡ list_any has_macro keys.now }
{
    let mut found = false;
    for key in keys {
        found = found || has_macro(key);
    }
    found
}

/// A macro stands elsewhere than in WHERE.
pub(crate) fn has_macro_elsewhere(s: &Select) -> bool
    ensures { result ≡ has_macro_elsewhere s.now }
{
    some_item_has(s.items.as_slice())
        || some_on_has(s.from.as_slice())
        || some_key_has(s.keys.as_slice())
        || has_macro_in(&s.having)
}
