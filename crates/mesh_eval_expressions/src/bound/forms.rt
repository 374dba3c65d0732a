// Expressions whose names are looked up.
use mesh_base::{AggKind, Func, Op};
use mesh_base_values::{Cell, ColType};
use mesh_eval_rows::joins::joined::Spot;
use mesh_list::{Boxed, Seq};

pub type Bounded = Seq<Bound>;

pub type BoundWhens = Seq<BoundWhen>;

/// One WHEN of a CASE.
#[cycle(bounds)]
pub struct BoundWhen {
    pub test: Bound,
    pub value: Bound,
}

impl Drop for BoundWhen {
    #[cycle(drops)]
    fn drop(self) {
        let BoundWhen { test: _, value: _ } = self;
    }
}

/// An expression whose columns are places, whose macros have their cells, and whose parts that equal a key are that
/// key.
#[cycle(bounds)]
pub enum Bound {
    /// A cell of the row, and NULL where it has none.
    Lies(Option<Spot>),
    Known(Cell),
    /// The value of the key at a place.
    Key(usize),
    Binary {
        op: Op,
        left: Boxed<Bound>,
        right: Boxed<Bound>,
    },
    Neg(Boxed<Bound>),
    Not(Boxed<Bound>),
    IsNull(Boxed<Bound>),
    Between {
        value: Boxed<Bound>,
        low: Boxed<Bound>,
        high: Boxed<Bound>,
    },
    OneOf {
        value: Boxed<Bound>,
        of: Bounded,
    },
    Cast {
        to: ColType,
        value: Boxed<Bound>,
    },
    Call {
        func: Func,
        args: Bounded,
    },
    Case {
        whens: BoundWhens,
        otherwise: Boxed<Bound>,
    },
    /// COUNT(*).
    CountAll,
    Agg {
        kind: AggKind,
        value: Boxed<Bound>,
    },
    /// One no part of which makes a text, so that its value takes no memory.
    Plain(Boxed<Bound>),
}

impl Drop for Bound {
    #[cycle(drops)]
    fn drop(self) {
        match self {
            Bound::Lies(_)
            | Bound::Known(_)
            | Bound::Key(_)
            | Bound::Binary {
                op: _,
                left: _,
                right: _,
            }
            | Bound::Neg(_)
            | Bound::Not(_)
            | Bound::IsNull(_)
            | Bound::Between {
                value: _,
                low: _,
                high: _,
            }
            | Bound::OneOf { value: _, of: _ }
            | Bound::Cast { to: _, value: _ }
            | Bound::Call { func: _, args: _ }
            | Bound::Case {
                whens: _,
                otherwise: _,
            }
            | Bound::CountAll
            | Bound::Agg { kind: _, value: _ }
            | Bound::Plain(_) => {}
        }
    }
}
