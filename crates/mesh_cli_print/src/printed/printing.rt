// What a command answers is printed.
ghost use Rattle.mesh_cli_print.specs.printed.Refusals.{refusal_line, status};
ghost use Rattle.mesh_cli_print.specs.printed.Printing.{IsPut, Printed, sinks};

use crate::printed::refusals::{Refusal, refusal_line, status};
use mesh_base_values::Str;
use mesh_io::{IoFail, Sink};
use mesh_list::Memory;
use std::alloc::Global;

/// A text is written, and the answer is this status, unless the sink failed or memory was wanting.
fn put<S: Sink>(sink: &mut S, text: &Str, status: u8) -> u8
    ensures { IsPut text.now status (S.told sink.old) (S.told sink.new) result }
{
    match sink.put(text.as_slice()) {
        Ok(()) => status,
        Err(IoFail::Failed) => 6,
        Err(IoFail::Memory) => 4,
    }
}

fn refused<E: Sink>(alloc: Global, refusal: &Refusal, err: &mut E) -> u8
    ensures { IsPut (refusal_line refusal.now) (status refusal.now) (E.told err.old) (E.told err.new) result }
{
    match refusal_line(alloc, refusal) {
        Ok(line) => put(err, &line, status(refusal)),
        Err(Memory) => 4,
    }
}

/// The text of a command goes to `out`, and the line of a refusal to `err`. The answer is the exit status.
pub fn printed<O: Sink, E: Sink>(
    alloc: Global,
    answer: Result<Str, Refusal>,
    out: &mut O,
    err: &mut E,
) -> u8
    ensures { Printed answer (sinks (O.told out.old) (E.told err.old)) (sinks (O.told out.new) (E.told err.new)) result }
{
    match answer {
        Ok(text) => put(out, &text, 0),
        Err(refusal) => refused(alloc, &refusal, err),
    }
}
