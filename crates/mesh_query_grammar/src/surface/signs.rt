// Operators and functions as they are written.

/// How two values are compared.
#[derive(Clone, Copy, PartialEq, Eq)]
pub enum Cmp {
    Eq,
    Ne,
    Lt,
    Le,
    Gt,
    Ge,
}

#[derive(Clone, Copy, PartialEq, Eq)]
pub enum AddSign {
    Plus,
    Minus,
}

#[derive(Clone, Copy, PartialEq, Eq)]
pub enum MulSign {
    Times,
    Over,
    Modulo,
}

/// The functions of one row's values, and then those of a group's.
#[derive(Clone, Copy, PartialEq, Eq)]
pub enum Function {
    Abs,
    Length,
    Upper,
    Lower,
    Nullif,
    Coalesce,
    Count,
    Sum,
    Min,
    Max,
}
