// Lists that are begun with one element, and what is made of a phrase that has been read: want of memory and the
// fault of the phrase are one answer.
ghost use Rattle.std.specs.Prelude.{◌≡◌, [], ◌∷◌, ◌++◌, IfOk, MatchResult};
ghost use Rattle.mesh_query_grammar.specs.declared.surface.expressions.AddStep.{roll-AddStep};
ghost use Rattle.mesh_query_grammar.specs.declared.surface.expressions.MulStep.{roll-MulStep};
ghost use Rattle.mesh_query_grammar.specs.declared.lookahead.fault.Fault.TheVariants.{Memory as OutOfMemory};

use mesh_list::{Boxed, Memory, Seq};
use mesh_query_grammar::lookahead::Fault;
use mesh_query_grammar::surface::{AddSign, AddStep, MulExpr, MulSign, MulStep, Unary};
use std::alloc::Global;

/// The list of one element, with room for no more until it grows: most lists of a tree have one, and a place in them is
/// large.
pub fn one<T: Drop>(alloc: Global, item: T) -> Result<Seq<T>, Memory>
    ensures { IfOk result (λ made. made ≡ item ∷ []) }
{
    let mut items = Vec::with_capacity(alloc, 1)?;
    match items.push(item) {
        Ok(()) => Ok(Seq::from_vec(items)),
        Err(_) => Err(Memory),
    }
}

/// The list of the one phrase that has been read, and the place behind it.
pub fn begun<T: Drop>(
    alloc: Global,
    found: Result<(T, usize), Fault>,
) -> Result<(Seq<T>, usize), Fault>
    ensures { MatchResult result (λ p. MatchResult found (λ x. (p.0 ≡ x.0 ∷ []) × (p.1 ≡ x.1)) (λ _. ⊥)) (λ e. MatchResult found (λ _. e ≡ OutOfMemory) (λ f. e ≡ f)) }
{
    let (first, at) = found?;
    let items = one(alloc, first)?;
    Ok((items, at))
}

/// The place behind a phrase that has been read, which goes to the list.
pub fn pushed<T: Drop>(items: &mut Seq<T>, found: Result<(T, usize), Fault>) -> Result<usize, Fault>
    ensures { MatchResult result (λ at. MatchResult found (λ x. (items.new ≡ items.old ++ x.0 ∷ []) × (at ≡ x.1)) (λ _. ⊥)) (λ e. MatchResult found (λ _. e ≡ OutOfMemory) (λ f. e ≡ f)) }
{
    let (item, at) = found?;
    items.push(item)?;
    Ok(at)
}

/// The phrase that has been read in a box, and the place behind it.
pub fn boxed<T: Drop>(
    alloc: Global,
    found: Result<(T, usize), Fault>,
) -> Result<(Boxed<T>, usize), Fault>
    ensures { MatchResult result (λ p. MatchResult found (λ x. (p.0 ≡ x.0) × (p.1 ≡ x.1)) (λ _. ⊥)) (λ e. MatchResult found (λ _. e ≡ OutOfMemory) (λ f. e ≡ f)) }
{
    let (item, at) = found?;
    let item = Boxed::new(alloc, item)?;
    Ok((item, at))
}

/// The place behind a part of a sum that has been read, which goes to the steps with its sign.
pub fn added(
    steps: &mut Seq<AddStep>,
    at: u64,
    sign: AddSign,
    found: Result<(MulExpr, usize), Fault>,
) -> Result<usize, Fault>
    ensures { MatchResult result (λ next. MatchResult found (λ x. (steps.new ≡ steps.old ++ roll-AddStep (record { at = at; sign = sign; part = x.0 }) ∷ []) × (next ≡ x.1)) (λ _. ⊥)) (λ e. MatchResult found (λ _. e ≡ OutOfMemory) (λ f. e ≡ f)) }
{
    let (part, next) = found?;
    steps.push(AddStep { at, sign, part })?;
    Ok(next)
}

/// The place behind a part of a product that has been read, which goes to the steps with its sign.
pub fn multiplied(
    steps: &mut Seq<MulStep>,
    at: u64,
    sign: MulSign,
    found: Result<(Unary, usize), Fault>,
) -> Result<usize, Fault>
    ensures { MatchResult result (λ next. MatchResult found (λ x. (steps.new ≡ steps.old ++ roll-MulStep (record { at = at; sign = sign; part = x.0 }) ∷ []) × (next ≡ x.1)) (λ _. ⊥)) (λ e. MatchResult found (λ _. e ≡ OutOfMemory) (λ f. e ≡ f)) }
{
    let (part, next) = found?;
    steps.push(MulStep { at, sign, part })?;
    Ok(next)
}

/// The fault for which what was read so far is given up: a large value is dropped here, and not where it was read.
pub fn given_up<T: Drop, U: Drop>(_first: T, _rest: U, fault: Fault) -> Fault
    ensures { result ≡ fault }
{
    fault
}
