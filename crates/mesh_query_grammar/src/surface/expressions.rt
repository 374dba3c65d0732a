// Expressions as they are written. Each `at` is the place of the form's first byte.
use crate::surface::signs::{AddSign, Cmp, Function, MulSign};
use mesh_base_values::{ColType, Str};
use mesh_list::{Boxed, Seq};

/// One or more parts with OR between them: a whole expression.
#[cycle(surface)]
pub struct OrExpr {
    pub at: u64,
    pub parts: Seq<AndExpr>,
}

impl Drop for OrExpr {
    #[cycle(drops)]
    fn drop(self) {
        let OrExpr { at: _, parts: _ } = self;
    }
}

/// One or more parts with AND between them.
#[cycle(surface)]
pub struct AndExpr {
    pub at: u64,
    pub parts: Seq<NotExpr>,
}

impl Drop for AndExpr {
    #[cycle(drops)]
    fn drop(self) {
        let AndExpr { at: _, parts: _ } = self;
    }
}

#[cycle(surface)]
pub enum NotExpr {
    Not { at: u64, inner: Boxed<NotExpr> },
    Plain { at: u64, pred: Pred },
}

impl Drop for NotExpr {
    #[cycle(drops)]
    fn drop(self) {
        match self {
            NotExpr::Not { at: _, inner: _ } | NotExpr::Plain { at: _, pred: _ } => {}
        }
    }
}

/// A value, and what is asked about it.
#[cycle(surface)]
pub struct Pred {
    pub at: u64,
    pub left: CatExpr,
    pub test: Test,
}

impl Drop for Pred {
    #[cycle(drops)]
    fn drop(self) {
        let Pred {
            at: _,
            left: _,
            test: _,
        } = self;
    }
}

/// `negated` where NOT stands before it, or in IS NOT NULL.
#[cycle(surface)]
pub enum Test {
    Nothing,
    Compare {
        cmp: Cmp,
        right: CatExpr,
    },
    IsNull {
        negated: bool,
    },
    Between {
        negated: bool,
        low: CatExpr,
        high: CatExpr,
    },
    OneOf {
        negated: bool,
        of: Seq<OrExpr>,
    },
}

impl Drop for Test {
    #[cycle(drops)]
    fn drop(self) {
        match self {
            Test::Nothing
            | Test::Compare { cmp: _, right: _ }
            | Test::IsNull { negated: _ }
            | Test::Between {
                negated: _,
                low: _,
                high: _,
            }
            | Test::OneOf { negated: _, of: _ } => {}
        }
    }
}

/// One or more parts with `||` between them.
#[cycle(surface)]
pub struct CatExpr {
    pub at: u64,
    pub parts: Seq<AddExpr>,
}

impl Drop for CatExpr {
    #[cycle(drops)]
    fn drop(self) {
        let CatExpr { at: _, parts: _ } = self;
    }
}

#[cycle(surface)]
pub struct AddExpr {
    pub at: u64,
    pub first: MulExpr,
    pub rest: Seq<AddStep>,
}

impl Drop for AddExpr {
    #[cycle(drops)]
    fn drop(self) {
        let AddExpr {
            at: _,
            first: _,
            rest: _,
        } = self;
    }
}

/// A sign and what it adds or takes away.
#[cycle(surface)]
pub struct AddStep {
    pub at: u64,
    pub sign: AddSign,
    pub part: MulExpr,
}

impl Drop for AddStep {
    #[cycle(drops)]
    fn drop(self) {
        let AddStep {
            at: _,
            sign: _,
            part: _,
        } = self;
    }
}

#[cycle(surface)]
pub struct MulExpr {
    pub at: u64,
    pub first: Unary,
    pub rest: Seq<MulStep>,
}

impl Drop for MulExpr {
    #[cycle(drops)]
    fn drop(self) {
        let MulExpr {
            at: _,
            first: _,
            rest: _,
        } = self;
    }
}

#[cycle(surface)]
pub struct MulStep {
    pub at: u64,
    pub sign: MulSign,
    pub part: Unary,
}

impl Drop for MulStep {
    #[cycle(drops)]
    fn drop(self) {
        let MulStep {
            at: _,
            sign: _,
            part: _,
        } = self;
    }
}

#[cycle(surface)]
pub enum Unary {
    Minus { at: u64, inner: Boxed<Unary> },
    Plain { at: u64, post: Post },
}

impl Drop for Unary {
    #[cycle(drops)]
    fn drop(self) {
        match self {
            Unary::Minus { at: _, inner: _ } | Unary::Plain { at: _, post: _ } => {}
        }
    }
}

/// A value and the types that `::` turns it into, one after the other.
#[cycle(surface)]
pub struct Post {
    pub at: u64,
    pub value: Primary,
    pub casts: Seq<ColType>,
}

impl Drop for Post {
    #[cycle(drops)]
    fn drop(self) {
        let Post {
            at: _,
            value: _,
            casts: _,
        } = self;
    }
}

/// The day of a date counts from 1970-01-01. A macro's name is without the `@`.
#[cycle(surface)]
pub enum Primary {
    Number {
        at: u64,
        value: u64,
    },
    Text {
        at: u64,
        text: Str,
    },
    Date {
        at: u64,
        day: i32,
    },
    Truth {
        at: u64,
        value: bool,
    },
    Null {
        at: u64,
    },
    Macro {
        at: u64,
        name: Str,
    },
    Column {
        at: u64,
        item: Option<Str>,
        name: Str,
    },
    Call {
        at: u64,
        function: Function,
        args: Args,
    },
    Group {
        at: u64,
        inner: Boxed<OrExpr>,
    },
    Case {
        at: u64,
        operand: Option<Boxed<OrExpr>>,
        arms: Seq<Arm>,
        otherwise: Option<Boxed<OrExpr>>,
    },
    Cast {
        at: u64,
        value: Boxed<OrExpr>,
        to: ColType,
    },
}

impl Drop for Primary {
    #[cycle(drops)]
    fn drop(self) {
        match self {
            Primary::Number { at: _, value: _ }
            | Primary::Text { at: _, text: _ }
            | Primary::Date { at: _, day: _ }
            | Primary::Truth { at: _, value: _ }
            | Primary::Null { at: _ }
            | Primary::Macro { at: _, name: _ }
            | Primary::Column {
                at: _,
                item: _,
                name: _,
            }
            | Primary::Call {
                at: _,
                function: _,
                args: _,
            }
            | Primary::Group { at: _, inner: _ }
            | Primary::Case {
                at: _,
                operand: _,
                arms: _,
                otherwise: _,
            }
            | Primary::Cast {
                at: _,
                value: _,
                to: _,
            } => {}
        }
    }
}

/// A WHEN with its value.
#[cycle(surface)]
pub struct Arm {
    pub at: u64,
    pub test: OrExpr,
    pub value: OrExpr,
}

impl Drop for Arm {
    #[cycle(drops)]
    fn drop(self) {
        let Arm {
            at: _,
            test: _,
            value: _,
        } = self;
    }
}

#[cycle(surface)]
pub enum Args {
    Star { at: u64 },
    Distinct { at: u64, value: Boxed<OrExpr> },
    List { at: u64, values: Seq<OrExpr> },
}

impl Drop for Args {
    #[cycle(drops)]
    fn drop(self) {
        match self {
            Args::Star { at: _ }
            | Args::Distinct { at: _, value: _ }
            | Args::List { at: _, values: _ } => {}
        }
    }
}
