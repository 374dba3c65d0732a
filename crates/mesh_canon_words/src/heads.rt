// The words of a text, and what the nodes of an expression begin with.
ghost use Rattle.std.specs.Prelude.{map};
ghost use Rattle.mesh_canon_words.specs.Tables.{entry_of};
ghost use Rattle.mesh_canon_words.specs.Words.{Finds, Gives, agg_at, bare_head_at, call_head_at, cell_head_at, compare_op_at, distinct_at, equal_op_at, func_at, grouped_at, head_at, join_at, end_var_at, macro_at, many_func_at, node_head_at, number_op_at, one_func_at, op_head_at, order_op_at, plain_head_at, start_var_at, test_head_at, then_at, truth_op_at, type_at, unit_at, valued_head_at, word_at};

use crate::fault::CanonFault;
use crate::words::{after, expect};
use mesh_base::{AggKind, Func, Join, Op, Var};
use mesh_base_values::{ColType, Unit};

/// How a cell begins.
#[derive(Clone, Copy)]
pub enum CellHead {
    Null,
    True,
    False,
    Int,
    Text,
    Date,
}

/// How a node of an expression begins.
#[derive(Clone, Copy)]
pub enum Head {
    Literal(CellHead),
    Col,
    Macro,
    Binary(Op),
    Neg,
    Not,
    IsNull,
    Between,
    OneOf,
    Cast,
    Call,
    Case,
    CountAll,
    Agg,
}

// The value of the first word of a table that the bytes begin with.
fn word<'a, T: Copy>(bytes: &'a [u8], table: &[(&[u8], T)]) -> Option<(T, &'a [u8])>
    ensures { Finds (λ x. (x.0, x.1.now)) result (word_at (map entry_of table.now) bytes.now) }
{
    match table {
        [] => None,
        [entry, others @ ..] => match after(bytes, entry.0) {
            Some(rest) => Some((entry.1, rest)),
            None => word(bytes, others),
        },
    }
}

/// The head of a cell.
#[tactic(auto, unfolding(crate::specs::Words::cell_head_at))]
pub fn cell_head(bytes: &[u8]) -> Option<(CellHead, &[u8])>
    ensures { Finds (λ x. (x.0, x.1.now)) result (cell_head_at bytes.now) }
{
    if let Some(found) = valued_head(bytes) {
        return Some(found);
    }
    bare_head(bytes)
}

// The head of a cell with a value behind its word.
#[tactic(auto, unfolding(crate::specs::Words::valued_head_at))]
fn valued_head(bytes: &[u8]) -> Option<(CellHead, &[u8])>
    ensures { Finds (λ x. (x.0, x.1.now)) result (valued_head_at bytes.now) }
{
    let words: [(&[u8], CellHead); 3] = [
        (b"(int ", CellHead::Int),
        (b"(text ", CellHead::Text),
        (b"(date ", CellHead::Date),
    ];
    word(bytes, &words)
}

// The head of a cell that is a word.
#[tactic(auto, unfolding(crate::specs::Words::bare_head_at))]
fn bare_head(bytes: &[u8]) -> Option<(CellHead, &[u8])>
    ensures { Finds (λ x. (x.0, x.1.now)) result (bare_head_at bytes.now) }
{
    let words: [(&[u8], CellHead); 3] = [
        (b"null", CellHead::Null),
        (b"true", CellHead::True),
        (b"false", CellHead::False),
    ];
    word(bytes, &words)
}

/// The head of a node.
#[tactic(auto, unfolding(crate::specs::Words::head_at))]
pub fn any_head(bytes: &[u8]) -> Option<(Head, &[u8])>
    ensures { Finds (λ x. (x.0, x.1.now)) result (head_at bytes.now) }
{
    if let Some((cell, rest)) = cell_head(bytes) {
        return Some((Head::Literal(cell), rest));
    }
    if let Some((op, rest)) = op_head(bytes) {
        return Some((Head::Binary(op), rest));
    }
    node_head(bytes)
}

// The head of a node that is neither a literal nor an operator.
#[tactic(auto, unfolding(crate::specs::Words::node_head_at))]
fn node_head(bytes: &[u8]) -> Option<(Head, &[u8])>
    ensures { Finds (λ x. (x.0, x.1.now)) result (node_head_at bytes.now) }
{
    if let Some(found) = plain_head(bytes) {
        return Some(found);
    }
    if let Some(found) = test_head(bytes) {
        return Some(found);
    }
    call_head(bytes)
}

// The head of a column, a macro, NEG or NOT.
#[tactic(auto, unfolding(crate::specs::Words::plain_head_at))]
fn plain_head(bytes: &[u8]) -> Option<(Head, &[u8])>
    ensures { Finds (λ x. (x.0, x.1.now)) result (plain_head_at bytes.now) }
{
    let words: [(&[u8], Head); 4] = [
        (b"(col ", Head::Col),
        (b"(var ", Head::Macro),
        (b"(neg ", Head::Neg),
        (b"(not ", Head::Not),
    ];
    word(bytes, &words)
}

// The head of a test or a cast.
#[tactic(auto, unfolding(crate::specs::Words::test_head_at))]
fn test_head(bytes: &[u8]) -> Option<(Head, &[u8])>
    ensures { Finds (λ x. (x.0, x.1.now)) result (test_head_at bytes.now) }
{
    let words: [(&[u8], Head); 4] = [
        (b"(isnull ", Head::IsNull),
        (b"(between ", Head::Between),
        (b"(in ", Head::OneOf),
        (b"(cast ", Head::Cast),
    ];
    word(bytes, &words)
}

// The head of a call, a CASE or an aggregate.
#[tactic(auto, unfolding(crate::specs::Words::call_head_at))]
fn call_head(bytes: &[u8]) -> Option<(Head, &[u8])>
    ensures { Finds (λ x. (x.0, x.1.now)) result (call_head_at bytes.now) }
{
    let words: [(&[u8], Head); 4] = [
        (b"(call ", Head::Call),
        (b"(case ", Head::Case),
        (b"(count", Head::CountAll),
        (b"(agg ", Head::Agg),
    ];
    word(bytes, &words)
}

// The head of an operator.
#[tactic(auto, unfolding(crate::specs::Words::op_head_at))]
fn op_head(bytes: &[u8]) -> Option<(Op, &[u8])>
    ensures { Finds (λ x. (x.0, x.1.now)) result (op_head_at bytes.now) }
{
    if let Some(found) = number_op(bytes) {
        return Some(found);
    }
    if let Some(found) = compare_op(bytes) {
        return Some(found);
    }
    truth_op(bytes)
}

// The head of an operator that compares, or joins texts.
#[tactic(auto, unfolding(crate::specs::Words::compare_op_at))]
fn compare_op(bytes: &[u8]) -> Option<(Op, &[u8])>
    ensures { Finds (λ x. (x.0, x.1.now)) result (compare_op_at bytes.now) }
{
    if let Some(found) = equal_op(bytes) {
        return Some(found);
    }
    order_op(bytes)
}

// The head of an operator of numbers.
#[tactic(auto, unfolding(crate::specs::Words::number_op_at))]
fn number_op(bytes: &[u8]) -> Option<(Op, &[u8])>
    ensures { Finds (λ x. (x.0, x.1.now)) result (number_op_at bytes.now) }
{
    let words: [(&[u8], Op); 5] = [
        (b"(add ", Op::Add),
        (b"(sub ", Op::Sub),
        (b"(mul ", Op::Mul),
        (b"(div ", Op::Div),
        (b"(rem ", Op::Rem),
    ];
    word(bytes, &words)
}

// The head of an operator of texts, or of one that asks whether two are equal.
#[tactic(auto, unfolding(crate::specs::Words::equal_op_at))]
fn equal_op(bytes: &[u8]) -> Option<(Op, &[u8])>
    ensures { Finds (λ x. (x.0, x.1.now)) result (equal_op_at bytes.now) }
{
    let words: [(&[u8], Op); 3] = [(b"(cat ", Op::Cat), (b"(eq ", Op::Eq), (b"(ne ", Op::Ne)];
    word(bytes, &words)
}

// The head of an operator that asks which of two comes first.
#[tactic(auto, unfolding(crate::specs::Words::order_op_at))]
fn order_op(bytes: &[u8]) -> Option<(Op, &[u8])>
    ensures { Finds (λ x. (x.0, x.1.now)) result (order_op_at bytes.now) }
{
    let words: [(&[u8], Op); 4] = [
        (b"(lt ", Op::Lt),
        (b"(le ", Op::Le),
        (b"(gt ", Op::Gt),
        (b"(ge ", Op::Ge),
    ];
    word(bytes, &words)
}

// The head of an operator of truth values.
#[tactic(auto, unfolding(crate::specs::Words::truth_op_at))]
fn truth_op(bytes: &[u8]) -> Option<(Op, &[u8])>
    ensures { Finds (λ x. (x.0, x.1.now)) result (truth_op_at bytes.now) }
{
    let words: [(&[u8], Op); 2] = [(b"(and ", Op::And), (b"(or ", Op::Or)];
    word(bytes, &words)
}

/// The word of a type.
#[tactic(auto, unfolding(crate::specs::Words::type_at))]
pub fn column_type(bytes: &[u8]) -> Option<(ColType, &[u8])>
    ensures { Finds (λ x. (x.0, x.1.now)) result (type_at bytes.now) }
{
    let words: [(&[u8], ColType); 4] = [
        (b"int", ColType::Int),
        (b"text", ColType::Text),
        (b"date", ColType::Date),
        (b"bool", ColType::Bool),
    ];
    word(bytes, &words)
}

/// The word of a type and the sign behind it.
#[tactic(auto, unfolding(crate::specs::Words::then_at))]
pub fn type_then<'a>(bytes: &'a [u8], sign: &[u8]) -> Result<(ColType, &'a [u8]), CanonFault>
    ensures { Gives (λ x. (x.0, x.1.now)) result (then_at sign.now type_at bytes.now) }
{
    let Some((kind, rest)) = column_type(bytes) else {
        return Err(CanonFault::NotCanonical);
    };
    let rest = expect(rest, sign)?;
    Ok((kind, rest))
}

/// The word of a function and the space behind it.
#[tactic(auto, unfolding(crate::specs::Words::func_at))]
pub fn func(bytes: &[u8]) -> Option<(Func, &[u8])>
    ensures { Finds (λ x. (x.0, x.1.now)) result (func_at bytes.now) }
{
    if let Some(found) = one_func(bytes) {
        return Some(found);
    }
    many_func(bytes)
}

// The word of a function of one value and the space behind it.
#[tactic(auto, unfolding(crate::specs::Words::one_func_at))]
fn one_func(bytes: &[u8]) -> Option<(Func, &[u8])>
    ensures { Finds (λ x. (x.0, x.1.now)) result (one_func_at bytes.now) }
{
    let words: [(&[u8], Func); 4] = [
        (b"abs ", Func::Abs),
        (b"length ", Func::Length),
        (b"upper ", Func::Upper),
        (b"lower ", Func::Lower),
    ];
    word(bytes, &words)
}

// The word of a function of several values and the space behind it.
#[tactic(auto, unfolding(crate::specs::Words::many_func_at))]
fn many_func(bytes: &[u8]) -> Option<(Func, &[u8])>
    ensures { Finds (λ x. (x.0, x.1.now)) result (many_func_at bytes.now) }
{
    let words: [(&[u8], Func); 2] = [(b"nullif ", Func::Nullif), (b"coalesce ", Func::Coalesce)];
    word(bytes, &words)
}

/// The word of an aggregate and the space behind it.
#[tactic(auto, unfolding(crate::specs::Words::agg_at))]
pub fn aggregate(bytes: &[u8]) -> Option<(AggKind, &[u8])>
    ensures { Finds (λ x. (x.0, x.1.now)) result (agg_at bytes.now) }
{
    let words: [(&[u8], AggKind); 5] = [
        (b"count ", AggKind::Count),
        (b"countd ", AggKind::Countd),
        (b"sum ", AggKind::Sum),
        (b"min ", AggKind::Min),
        (b"max ", AggKind::Max),
    ];
    word(bytes, &words)
}

/// The word of a macro.
#[tactic(auto, unfolding(crate::specs::Words::macro_at))]
pub fn macro_var(bytes: &[u8]) -> Option<(Var, &[u8])>
    ensures { Finds (λ x. (x.0, x.1.now)) result (macro_at bytes.now) }
{
    if let Some(found) = start_var(bytes) {
        return Some(found);
    }
    end_var(bytes)
}

// The word of a macro for the start.
#[tactic(auto, unfolding(crate::specs::Words::start_var_at))]
fn start_var(bytes: &[u8]) -> Option<(Var, &[u8])>
    ensures { Finds (λ x. (x.0, x.1.now)) result (start_var_at bytes.now) }
{
    let words: [(&[u8], Var); 3] = [
        (b"start_date", Var::StartDate),
        (b"start_ds", Var::StartDs),
        (b"start_epoch", Var::StartEpoch),
    ];
    word(bytes, &words)
}

// The word of a macro for the end.
#[tactic(auto, unfolding(crate::specs::Words::end_var_at))]
fn end_var(bytes: &[u8]) -> Option<(Var, &[u8])>
    ensures { Finds (λ x. (x.0, x.1.now)) result (end_var_at bytes.now) }
{
    let words: [(&[u8], Var); 3] = [
        (b"end_date", Var::EndDate),
        (b"end_ds", Var::EndDs),
        (b"end_epoch", Var::EndEpoch),
    ];
    word(bytes, &words)
}

/// The word of a join and the space behind it.
#[tactic(auto, unfolding(crate::specs::Words::join_at))]
pub fn join(bytes: &[u8]) -> Option<(Join, &[u8])>
    ensures { Finds (λ x. (x.0, x.1.now)) result (join_at bytes.now) }
{
    let words: [(&[u8], Join); 4] = [
        (b"first ", Join::First),
        (b"inner ", Join::Inner),
        (b"left ", Join::Left),
        (b"cross ", Join::Cross),
    ];
    word(bytes, &words)
}

/// The word of a unit and the space behind it.
#[tactic(auto, unfolding(crate::specs::Words::unit_at))]
pub fn unit(bytes: &[u8]) -> Option<(Unit, &[u8])>
    ensures { Finds (λ x. (x.0, x.1.now)) result (unit_at bytes.now) }
{
    let words: [(&[u8], Unit); 2] = [(b"hour ", Unit::Hour), (b"day ", Unit::Day)];
    word(bytes, &words)
}

/// Whether a SELECT is distinct, and the space behind that word.
#[tactic(auto, unfolding(crate::specs::Words::distinct_at))]
pub fn distinct(bytes: &[u8]) -> Option<(bool, &[u8])>
    ensures { Finds (λ x. (x.0, x.1.now)) result (distinct_at bytes.now) }
{
    let words: [(&[u8], bool); 2] = [(b"distinct ", true), (b"all ", false)];
    word(bytes, &words)
}

/// Whether a SELECT is grouped, and the space behind that word.
#[tactic(auto, unfolding(crate::specs::Words::grouped_at))]
pub fn grouped(bytes: &[u8]) -> Option<(bool, &[u8])>
    ensures { Finds (λ x. (x.0, x.1.now)) result (grouped_at bytes.now) }
{
    let words: [(&[u8], bool); 2] = [(b"grouped ", true), (b"plain ", false)];
    word(bytes, &words)
}
