// Queries as they are written. Each `at` is the place of the form's first byte.
use crate::surface::expressions::OrExpr;
use mesh_base_values::Str;
use mesh_list::Seq;

/// A whole query: its common table expressions, and what is selected.
pub struct Surface {
    pub at: u64,
    pub ctes: Seq<SurfaceCte>,
    pub body: SurfaceUnion,
}

impl Drop for Surface {
    fn drop(self) {
        let Surface {
            at: _,
            ctes: _,
            body: _,
        } = self;
    }
}

pub struct SurfaceCte {
    pub at: u64,
    pub name: Str,
    pub body: SurfaceUnion,
}

impl Drop for SurfaceCte {
    fn drop(self) {
        let SurfaceCte {
            at: _,
            name: _,
            body: _,
        } = self;
    }
}

/// One or more SELECTs with UNION ALL between them.
pub struct SurfaceUnion {
    pub at: u64,
    pub selects: Seq<SurfaceSelect>,
}

impl Drop for SurfaceUnion {
    fn drop(self) {
        let SurfaceUnion { at: _, selects: _ } = self;
    }
}

/// `keys` are those of GROUP BY, and empty where it doesn't stand. A comma after the last item leaves no trace.
pub struct SurfaceSelect {
    pub at: u64,
    pub distinct: bool,
    pub items: Seq<SurfaceItem>,
    pub from: Option<SurfaceFrom>,
    pub filter: Option<OrExpr>,
    pub keys: Seq<OrExpr>,
    pub having: Option<OrExpr>,
}

impl Drop for SurfaceSelect {
    fn drop(self) {
        let SurfaceSelect {
            at: _,
            distinct: _,
            items: _,
            from: _,
            filter: _,
            keys: _,
            having: _,
        } = self;
    }
}

/// `AllOf` has the columns of one FROM item.
pub enum SurfaceItem {
    All {
        at: u64,
    },
    AllOf {
        at: u64,
        item: Str,
    },
    Value {
        at: u64,
        value: OrExpr,
        alias: Option<Str>,
    },
}

impl Drop for SurfaceItem {
    fn drop(self) {
        match self {
            SurfaceItem::All { at: _ }
            | SurfaceItem::AllOf { at: _, item: _ }
            | SurfaceItem::Value {
                at: _,
                value: _,
                alias: _,
            } => {}
        }
    }
}

pub struct SurfaceFrom {
    pub at: u64,
    pub first: SurfaceRel,
    pub joins: Seq<SurfaceJoin>,
}

impl Drop for SurfaceFrom {
    fn drop(self) {
        let SurfaceFrom {
            at: _,
            first: _,
            joins: _,
        } = self;
    }
}

/// A comma and CROSS JOIN mean the same join.
pub enum SurfaceJoin {
    Comma {
        at: u64,
        rel: SurfaceRel,
    },
    Cross {
        at: u64,
        rel: SurfaceRel,
    },
    Inner {
        at: u64,
        rel: SurfaceRel,
        on: OrExpr,
    },
    Left {
        at: u64,
        rel: SurfaceRel,
        on: OrExpr,
    },
}

impl Drop for SurfaceJoin {
    fn drop(self) {
        match self {
            SurfaceJoin::Comma { at: _, rel: _ }
            | SurfaceJoin::Cross { at: _, rel: _ }
            | SurfaceJoin::Inner {
                at: _,
                rel: _,
                on: _,
            }
            | SurfaceJoin::Left {
                at: _,
                rel: _,
                on: _,
            } => {}
        }
    }
}

/// A name of one part or two, and another name for it in this SELECT.
pub struct SurfaceRel {
    pub at: u64,
    pub schema: Option<Str>,
    pub name: Str,
    pub alias: Option<Str>,
}

impl Drop for SurfaceRel {
    fn drop(self) {
        let SurfaceRel {
            at: _,
            schema: _,
            name: _,
            alias: _,
        } = self;
    }
}
