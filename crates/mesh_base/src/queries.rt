// Resolved queries: each column has its name and type, and `*` is expanded.
use crate::expressions::{Expr, Exprs};
use mesh_base_values::{ColType, Name, Str};
use mesh_list::{Duplicate, Memory, Same, Seq, both, together};

pub type Items = Seq<Item>;

pub type Froms = Seq<FromItem>;

/// The sides of a UNION ALL.
pub type Selects = Seq<Select>;

/// Each CTE by its place.
pub type Ctes = Seq<Selects>;

/// One output column.
#[derive(PartialEq, Eq)]
pub struct Item {
    pub name: Str,
    pub kind: ColType,
    pub expr: Expr,
}

impl Drop for Item {
    fn drop(self) {
        let Item {
            name: _,
            kind: _,
            expr: _,
        } = self;
    }
}

/// What a FROM item reads: a model or a source, or the CTE at a place, from 0.
#[derive(PartialEq, Eq)]
pub enum Rel {
    Named(Name),
    Cte(u32),
}

impl Drop for Rel {
    fn drop(self) {
        match self {
            Rel::Named(_) | Rel::Cte(_) => {}
        }
    }
}

/// How a FROM item is joined to those before it.
#[derive(Clone, Copy, PartialEq, Eq)]
pub enum Join {
    First,
    Inner,
    Left,
    Cross,
}

#[derive(PartialEq, Eq)]
pub struct FromItem {
    pub join: Join,
    pub rel: Rel,
    pub on: Option<Expr>,
}

impl Drop for FromItem {
    fn drop(self) {
        let FromItem {
            join: _,
            rel: _,
            on: _,
        } = self;
    }
}

/// `filter` is WHERE and `keys` is GROUP BY. A SELECT may be grouped without keys.
#[derive(PartialEq, Eq)]
pub struct Select {
    pub distinct: bool,
    pub grouped: bool,
    pub items: Items,
    pub from: Froms,
    pub filter: Option<Expr>,
    pub keys: Exprs,
    pub having: Option<Expr>,
}

impl Drop for Select {
    fn drop(self) {
        let Select {
            distinct: _,
            grouped: _,
            items: _,
            from: _,
            filter: _,
            keys: _,
            having: _,
        } = self;
    }
}

#[derive(PartialEq, Eq)]
pub struct Query {
    pub ctes: Ctes,
    pub selects: Selects,
}

impl Drop for Query {
    fn drop(self) {
        let Query {
            ctes: _,
            selects: _,
        } = self;
    }
}

impl Duplicate for Join {
    fn copy(&self) -> Result<Join, Memory> {
        Ok(*self)
    }
}

impl Duplicate for Item {
    fn copy(&self) -> Result<Item, Memory> {
        let (name, expr) = both(&self.name, &self.expr)?;
        Ok(Item {
            name,
            kind: self.kind,
            expr,
        })
    }
}

impl Duplicate for Rel {
    fn copy(&self) -> Result<Rel, Memory> {
        match self {
            Rel::Named(name) => Ok(Rel::Named(name.copy()?)),
            Rel::Cte(at) => Ok(Rel::Cte(*at)),
        }
    }
}

impl Duplicate for FromItem {
    fn copy(&self) -> Result<FromItem, Memory> {
        let (rel, on) = both(&self.rel, &self.on)?;
        Ok(FromItem {
            join: self.join,
            rel,
            on,
        })
    }
}

impl Duplicate for Select {
    fn copy(&self) -> Result<Select, Memory> {
        let ((items, from), ((filter, keys), having)) = together(
            both(&self.items, &self.from),
            together(both(&self.filter, &self.keys), self.having.copy()),
        )?;
        Ok(Select {
            distinct: self.distinct,
            grouped: self.grouped,
            items,
            from,
            filter,
            keys,
            having,
        })
    }
}

impl Duplicate for Query {
    fn copy(&self) -> Result<Query, Memory> {
        let (ctes, selects) = both(&self.ctes, &self.selects)?;
        Ok(Query { ctes, selects })
    }
}

impl Same for Item {
    fn same(&self, other: &Item) -> bool {
        self.name.same(&other.name) && self.kind == other.kind && self.expr.same(&other.expr)
    }
}

impl Same for Rel {
    fn same(&self, other: &Rel) -> bool {
        self == other
    }
}

impl Same for FromItem {
    fn same(&self, other: &FromItem) -> bool {
        self.join == other.join && self.rel.same(&other.rel) && self.on.same(&other.on)
    }
}

impl Same for Select {
    fn same(&self, other: &Select) -> bool {
        self.distinct == other.distinct
            && self.grouped == other.grouped
            && self.items.same(&other.items)
            && self.from.same(&other.from)
            && self.filter.same(&other.filter)
            && self.keys.same(&other.keys)
            && self.having.same(&other.having)
    }
}

impl Same for Query {
    fn same(&self, other: &Query) -> bool {
        self.ctes.same(&other.ctes) && self.selects.same(&other.selects)
    }
}
