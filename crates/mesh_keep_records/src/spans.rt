// Ranges of seconds, as the list of their spans.
ghost use Rattle.std.specs.Prelude.{◌≡◌, true, ℤ, ◌↔◌, ◌⊎◌, IfOk, OnOk, Some};
ghost use Rattle.mesh_time.specs.Ranges.{Has, IsWithin, is_apart};
ghost use Rattle.mesh_canon_words.specs.Words.{Gives};
ghost use Rattle.mesh_keep_records.specs.Records.{bounds_list, each_text, ranges_fit};

use crate::part::{Part, read_as_list};
use mesh_base_values::{Bounds, Spans, Str};
use mesh_canon_words::CanonFault;
use mesh_list::{Memory, are_same};
use mesh_time::{Ranges, same_seconds_same_ranges};
use std::alloc::Global;

// Records the seconds of a span, if it has any.
fn add_span(made: &mut Ranges, span: &Bounds) -> Result<(), Memory>
    ensures { OnOk result ((t : ℤ) → Has made.new t ↔ (Has made.old t ⊎ IsWithin span.now.start span.now.end t)) }
{
    if span.start < span.end {
        return made.add(span.start, span.end);
    }
    Ok(())
}

// The ranges that have these spans. Spans that touch or do not ascend are no ranges' own.
fn ranges_of(alloc: Global, spans: &[Bounds]) -> Result<Ranges, CanonFault>
    ensures found { IfOk result (λ made. made ≡ spans.now) }
    ensures only { is_apart spans.now ≡ true → Gives (λ made. made) result (Some spans.now) }
{
    let mut made = Ranges::new(alloc);
    for span in spans {
        add_span(&mut made, span)?;
    }
    same_seconds_same_ranges();
    if are_same(made.spans().as_slice(), spans) {
        Ok(made)
    } else {
        Err(CanonFault::NotCanonical)
    }
}

impl Part for Ranges {
    ghost text = { each_text bounds_list };

    ghost fits = { ranges_fit };

    fn rule(&self) {
        self.spans().rule()
    }

    fn write(&self, alloc: Global) -> Result<Str, Memory> {
        self.spans().write(alloc)
    }

    fn read(alloc: Global, bytes: &[u8]) -> Result<Ranges, CanonFault> {
        let spans: Spans = read_as_list(alloc, bytes)?;
        ranges_of(alloc, spans.as_slice())
    }
}
