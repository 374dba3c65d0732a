// Expressions of resolved queries: a column is named by its FROM item's place, and no alias is left.
use mesh_base_values::{Cell, ColType, Str};
use mesh_list::{Boxed, Duplicate, Memory, Seq};

pub type Exprs = Seq<Expr>;

pub type Whens = Seq<When>;

/// What stands between two operands. `Cat` joins texts.
#[derive(Clone, Copy, PartialEq, Eq)]
pub enum Op {
    Add,
    Sub,
    Mul,
    Div,
    Rem,
    Cat,
    Eq,
    Ne,
    Lt,
    Le,
    Gt,
    Ge,
    And,
    Or,
}

/// A function of one row's values.
#[derive(Clone, Copy, PartialEq, Eq)]
pub enum Func {
    Abs,
    Length,
    Upper,
    Lower,
    Nullif,
    Coalesce,
}

/// A function of a group's values. `Count` counts those that aren't NULL, `Countd` the different ones of these.
#[derive(Clone, Copy, PartialEq, Eq)]
pub enum AggKind {
    Count,
    Countd,
    Sum,
    Min,
    Max,
}

/// A macro that stands for an end of the interval that a query is evaluated for: a day, that day as text, or a second.
#[derive(Clone, Copy, PartialEq, Eq)]
pub enum Var {
    StartDate,
    EndDate,
    StartDs,
    EndDs,
    StartEpoch,
    EndEpoch,
}

/// One WHEN of a CASE.
#[cycle(ast)]
#[derive(PartialEq, Eq)]
pub struct When {
    pub test: Expr,
    pub value: Expr,
}

impl Drop for When {
    #[cycle(drops)]
    fn drop(self) {
        let When { test: _, value: _ } = self;
    }
}

/// `item` is a place in FROM, from 0. What is negated in the text, as `IS NOT NULL`, is a `Not` of the plain form.
#[cycle(ast)]
#[derive(PartialEq, Eq)]
pub enum Expr {
    Literal(Cell),
    Col {
        item: u32,
        name: Str,
    },
    Macro(Var),
    Binary {
        op: Op,
        left: Boxed<Expr>,
        right: Boxed<Expr>,
    },
    Neg(Boxed<Expr>),
    Not(Boxed<Expr>),
    IsNull(Boxed<Expr>),
    Between {
        value: Boxed<Expr>,
        low: Boxed<Expr>,
        high: Boxed<Expr>,
    },
    OneOf {
        value: Boxed<Expr>,
        of: Exprs,
    },
    Cast {
        to: ColType,
        value: Boxed<Expr>,
    },
    Call {
        func: Func,
        args: Exprs,
    },
    Case {
        whens: Whens,
        otherwise: Boxed<Expr>,
    },
    /// COUNT(*).
    CountAll,
    Agg {
        kind: AggKind,
        value: Boxed<Expr>,
    },
}

impl Drop for Expr {
    #[cycle(drops)]
    fn drop(self) {
        match self {
            Expr::Literal(_)
            | Expr::Col { item: _, name: _ }
            | Expr::Macro(_)
            | Expr::Binary {
                op: _,
                left: _,
                right: _,
            }
            | Expr::Neg(_)
            | Expr::Not(_)
            | Expr::IsNull(_)
            | Expr::Between {
                value: _,
                low: _,
                high: _,
            }
            | Expr::OneOf { value: _, of: _ }
            | Expr::Cast { to: _, value: _ }
            | Expr::Call { func: _, args: _ }
            | Expr::Case {
                whens: _,
                otherwise: _,
            }
            | Expr::CountAll
            | Expr::Agg { kind: _, value: _ } => {}
        }
    }
}

impl Duplicate for Op {
    fn copy(&self) -> Result<Op, Memory> {
        Ok(*self)
    }
}

impl Duplicate for Func {
    fn copy(&self) -> Result<Func, Memory> {
        Ok(*self)
    }
}

impl Duplicate for AggKind {
    fn copy(&self) -> Result<AggKind, Memory> {
        Ok(*self)
    }
}

impl Duplicate for Var {
    fn copy(&self) -> Result<Var, Memory> {
        Ok(*self)
    }
}
