// Spans without the seconds of several others, in one pass over both.
ghost use Rattle.std.specs.Prelude.{◌≡◌, true, List, ◌∷◌, [], ◌++◌, ◌↔◌, IfOk, filter, ℤ, ◌<ℤ◌};
ghost use Rattle.std.specs.Int.Signed.{lt_z};
ghost use Rattle.mesh_base_values.specs.declared.times.Bounds.{Bounds};
ghost use Rattle.mesh_time.specs.Ranges.{Has, is_apart, is_apart_after};
ghost use Rattle.mesh_time.specs.Edits.{rises, spans_without_each};

use crate::ranges::push_filled;
use mesh_base_values::{Bounds, Spans};
use mesh_list::{Memory, Seq};
use std::alloc::Global;

/// The spans without the seconds of all these, which may stand in any order.
pub(crate) fn without_each(spans: &Spans, gone: &[Bounds]) -> Result<Spans, Memory>
    requires { is_apart spans.now ≡ true }
    ensures { IfOk result (λ made. made ≡ spans_without_each gone.now spans.now) }
{
    let all = in_order(spans.alloc(), gone)?;
    let made = cut_all(spans, all.as_slice())?;
    Ok(made)
}

// Those that have a second.
fn some_seconds(alloc: Global, gone: &[Bounds]) -> Result<Vec<Bounds>, Memory>
    ensures { IfOk result (λ all. all.items ≡ filter (λ b. lt_z b.start b.end) gone.now) }
{
    let mut all = Vec::new(alloc);
    for span in gone {
        push_some(&mut all, span)?;
    }
    Ok(all)
}

// Puts one that has a second behind the others.
fn push_some(all: &mut Vec<Bounds>, span: &Bounds) -> Result<(), Memory>
    ensures { IfOk result (λ _. all.new.items ≡ all.old.items ++ filter (λ b. lt_z b.start b.end) (span.now ∷ [])) }
{
    if span.start < span.end {
        all.push(*span)?;
    }
    Ok(())
}

// Those that have a second, by their starts.
fn in_order(alloc: Global, gone: &[Bounds]) -> Result<Vec<Bounds>, Memory>
    ensures seconds { IfOk result (λ all. (t : ℤ) → Has all.items t ↔ Has gone.now t) }
    ensures order { IfOk result (λ all. rises all.items ≡ true) }
{
    let mut all = some_seconds(alloc, gone)?;
    all.sort_by_key(|span| span.start)?;
    Ok(all)
}

// The spans without the seconds of these.
fn cut_all(spans: &Spans, gone: &[Bounds]) -> Result<Spans, Memory>
    requires apart { is_apart spans.now ≡ true }
    requires order { rises gone.now ≡ true }
    ensures { IfOk result (λ made. made ≡ spans_without_each gone.now spans.now) }
{
    let mut made = Seq::new(spans.alloc());
    let mut rest = gone;
    for span in spans.as_slice() {
        rest = cut(&mut made, rest, span)?;
    }
    Ok(made)
}

// Puts what one span keeps behind the others, and answers those from the first on that may meet a later span.
fn cut<'a>(made: &mut Spans, gone: &'a [Bounds], span: &Bounds) -> Result<&'a [Bounds], Memory>
    requires some { span.now.start <ℤ span.now.end }
    requires order { rises gone.now ≡ true }
    ensures made { IfOk result (λ _. made.new ≡ made.old ++ spans_without_each gone.now (span.now ∷ [])) }
    ensures rest { IfOk result (λ rest. (later : List Bounds) → is_apart_after span.now.end later ≡ true →
        spans_without_each rest.now later ≡ spans_without_each gone.now later) }
    ensures order { IfOk result (λ rest. rises rest.now ≡ true) }
{
    let mut low = span.start;
    for (i, other) in gone.iter().enumerate() {
        if span.end < other.end {
            push_filled(made, low, span.end.min(other.start))?;
            return Ok(&gone[i..]);
        }
        push_filled(made, low, other.start)?;
        low = low.max(other.end);
    }
    push_filled(made, low, span.end)?;
    Ok(&gone[gone.len()..])
}
