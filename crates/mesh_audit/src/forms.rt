// The queries of the audits that need no file.
ghost use Rattle.std.specs.Prelude.{◌≡◌, IfOk, map, ◌∷◌, []};
ghost use Rattle.mesh_base.specs.declared.expressions.Expr as expr;
ghost use Rattle.mesh_audit.specs.Forms.{is_some_null, not_null, one, read_alone, repeated, stands_twice, unique_values, when_null};

use mesh_base::{Expr, Exprs, FromItem, Froms, Item, Items, Join, Op, Query, Rel, Select, When};
use mesh_base_values::{Cell, ColType, Name, Str};
use mesh_list::{Boxed, Duplicate, Memory, Seq, push_made};
use std::alloc::Global;

fn one(alloc: Global) -> Result<Items, Memory>
    ensures { IfOk result (λ items. items ≡ one ∷ []) }
{
    let name = u8::copy_items(alloc, b"found")?;
    let mut items = Seq::new(alloc);
    items.push(Item {
        name,
        kind: ColType::Int,
        expr: Expr::Literal(Cell::Int(1)),
    })?;
    Ok(items)
}

fn read_alone(alloc: Global, model: &Name) -> Result<Froms, Memory>
    ensures { IfOk result (λ from. from ≡ read_alone model.now) }
{
    let name = model.copy()?;
    let mut from = Seq::new(alloc);
    from.push(FromItem {
        join: Join::First,
        rel: Rel::Named(name),
        on: None,
    })?;
    Ok(from)
}

fn column(name: &Str) -> Result<Expr, Memory>
    ensures { IfOk result (λ e. e ≡ expr.Col 0 name.now) }
{
    let name = name.copy()?;
    Ok(Expr::Col { item: 0, name })
}

fn when_null(alloc: Global, name: &Str) -> Result<When, Memory>
    ensures { IfOk result (λ w. w ≡ when_null name.now) }
{
    let column = column(name)?;
    let column = Boxed::new(alloc, column)?;
    Ok(When {
        test: Expr::IsNull(column),
        value: Expr::Literal(Cell::Bool(true)),
    })
}

fn is_some_null(alloc: Global, columns: &[Str]) -> Result<Expr, Memory>
    ensures { IfOk result (λ e. e ≡ is_some_null columns.now) }
{
    let mut whens = Seq::new(alloc);
    for name in columns {
        push_made(&mut whens, when_null(alloc, name))?;
    }
    let otherwise = Boxed::new(alloc, Expr::Literal(Cell::Bool(false)))?;
    Ok(Expr::Case { whens, otherwise })
}

/// The rows of a model in which one of these columns is NULL.
pub fn not_null(alloc: Global, model: &Name, columns: &[Str]) -> Result<Query, Memory>
    ensures { IfOk result (λ q. q ≡ not_null model.now columns.now) }
{
    let items = one(alloc)?;
    let from = read_alone(alloc, model)?;
    let filter = is_some_null(alloc, columns)?;
    let mut selects = Seq::new(alloc);
    selects.push(Select {
        distinct: false,
        grouped: false,
        items,
        from,
        filter: Some(filter),
        keys: Seq::new(alloc),
        having: None,
    })?;
    Ok(Query {
        ctes: Seq::new(alloc),
        selects,
    })
}

fn stands_twice(alloc: Global) -> Result<Expr, Memory>
    ensures { IfOk result (λ e. e ≡ stands_twice) }
{
    let left = Boxed::new(alloc, Expr::CountAll)?;
    let right = Boxed::new(alloc, Expr::Literal(Cell::Int(1)))?;
    Ok(Expr::Binary {
        op: Op::Gt,
        left,
        right,
    })
}

fn key(alloc: Global, name: &Str) -> Result<Exprs, Memory>
    ensures { IfOk result (λ keys. keys ≡ expr.Col 0 name.now ∷ []) }
{
    let mut keys = Seq::new(alloc);
    push_made(&mut keys, column(name))?;
    Ok(keys)
}

fn repeated(alloc: Global, model: &Name, name: &Str) -> Result<Select, Memory>
    ensures { IfOk result (λ s. s ≡ repeated model.now name.now) }
{
    let items = one(alloc)?;
    let from = read_alone(alloc, model)?;
    let keys = key(alloc, name)?;
    let having = stands_twice(alloc)?;
    Ok(Select {
        distinct: false,
        grouped: true,
        items,
        from,
        filter: None,
        keys,
        having: Some(having),
    })
}

/// For each of these columns by itself, one row for each value that stands in it more than once, NULL being one value.
pub fn unique_values(alloc: Global, model: &Name, columns: &[Str]) -> Result<Query, Memory>
    ensures { IfOk result (λ q. q ≡ unique_values model.now columns.now) }
{
    let mut selects = Seq::new(alloc);
    for name in columns {
        push_made(&mut selects, repeated(alloc, model, name))?;
    }
    Ok(Query {
        ctes: Seq::new(alloc),
        selects,
    })
}
