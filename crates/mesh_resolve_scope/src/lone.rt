// A single name, in parentheses or not.
ghost use Rattle.std.specs.Prelude.{◌≡◌, IfOk};
ghost use Rattle.std.specs.Option.{option_copied};
ghost use Rattle.mesh_resolve_scope.specs.Lone.{lone_name, and_name, not_name, is_untested, cat_name, sum_name, product_name, unary_name, value_name};

use mesh_base_values::Str;
use mesh_list::{Duplicate, Memory};
use mesh_query_grammar::surface::{
    AddExpr, AndExpr, CatExpr, MulExpr, NotExpr, OrExpr, Primary, Test, Unary,
};

/// The name, where an expression is one without a FROM item's name before it.
pub fn lone_name(e: &OrExpr) -> Result<Option<Str>, Memory>
    ensures { IfOk result (λ name. name ≡ lone_name e.now) }
{
    match or_name(e) {
        None => Ok(None),
        Some(name) => Ok(Some(name.copy()?)),
    }
}

#[cycle(lone)]
fn or_name(e: &OrExpr) -> Option<&Str>
    ensures { option_copied result ≡ lone_name e.now }
{
    let parts = e.parts.as_slice();
    if parts.len() == 1 {
        and_name(&parts[0])
    } else {
        None
    }
}

#[cycle(lone)]
fn and_name(e: &AndExpr) -> Option<&Str>
    ensures { option_copied result ≡ and_name e.now }
{
    let parts = e.parts.as_slice();
    if parts.len() == 1 {
        not_name(&parts[0])
    } else {
        None
    }
}

#[cycle(lone)]
fn not_name(e: &NotExpr) -> Option<&Str>
    ensures { option_copied result ≡ not_name e.now }
{
    match e {
        NotExpr::Not { .. } => None,
        NotExpr::Plain { pred, .. } => {
            if is_untested(&pred.test) {
                cat_name(&pred.left)
            } else {
                None
            }
        }
    }
}

// Nothing is asked about a value.
fn is_untested(test: &Test) -> bool
    ensures { result ≡ is_untested test.now }
{
    match test {
        Test::Nothing => true,
        Test::Compare { .. } => false,
        Test::IsNull { .. } => false,
        Test::Between { .. } => false,
        Test::OneOf { .. } => false,
    }
}

#[cycle(lone)]
fn cat_name(e: &CatExpr) -> Option<&Str>
    ensures { option_copied result ≡ cat_name e.now }
{
    let parts = e.parts.as_slice();
    if parts.len() == 1 {
        sum_name(&parts[0])
    } else {
        None
    }
}

#[cycle(lone)]
fn sum_name(e: &AddExpr) -> Option<&Str>
    ensures { option_copied result ≡ sum_name e.now }
{
    match e.rest.as_slice() {
        [] => product_name(&e.first),
        _ => None,
    }
}

#[cycle(lone)]
fn product_name(e: &MulExpr) -> Option<&Str>
    ensures { option_copied result ≡ product_name e.now }
{
    match e.rest.as_slice() {
        [] => unary_name(&e.first),
        _ => None,
    }
}

#[cycle(lone)]
fn unary_name(e: &Unary) -> Option<&Str>
    ensures { option_copied result ≡ unary_name e.now }
{
    match e {
        Unary::Minus { .. } => None,
        Unary::Plain { post, .. } => match post.casts.as_slice() {
            [] => value_name(&post.value),
            _ => None,
        },
    }
}

#[cycle(lone)]
fn value_name(value: &Primary) -> Option<&Str>
    ensures { option_copied result ≡ value_name value.now }
{
    match value {
        Primary::Column { item, name, .. } => match item {
            None => Some(name),
            Some(_) => None,
        },
        Primary::Group { inner, .. } => or_name(inner.get()),
        _ => None,
    }
}
