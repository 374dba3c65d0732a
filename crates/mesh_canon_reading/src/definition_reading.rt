// Definitions, read.
ghost use Rattle.std.specs.Prelude.{◌≡◌};
ghost use Rattle.mesh_canon_words.specs.Words.{Gives};
ghost use Rattle.mesh_canon_reading.specs.Reading.{body_at, incremental_at, kind_at, lookback_at, own_at, seed_at, sets_of, source_at, start_at, time_at, timed_at, titled_at};

use crate::cron_reading::{Fields, cron_fields, made};
use crate::query_reading::query;
use crate::read::{Readable, list_then, shut};
use crate::value_reading::name_then_space;
use mesh_base::{Decl, Defn, Own};
use mesh_base_values::{Kind, Name, Str, Unit};
use mesh_canon_text::Form;
use mesh_canon_words::{CanonFault, after, day, expect, number, text, unit};
use std::alloc::Global;

const MOST_LOOKBACK: u64 = 0xffff_ffff;

#[tactic(auto, unfolding(crate::specs::Reading::time_at))]
fn time(alloc: Global, bytes: &[u8]) -> Result<(Option<Str>, &[u8]), CanonFault>
    ensures { Gives (λ x. (x.0, x.1.now)) result (time_at bytes.now) }
{
    if let Some(rest) = after(bytes, b"none") {
        return Ok((None, rest));
    }
    let (time, rest) = text(alloc, bytes)?;
    Ok((Some(time), rest))
}

#[tactic(auto, unfolding(crate::specs::Reading::start_at))]
fn start(bytes: &[u8]) -> Result<(Option<i32>, &[u8]), CanonFault>
    ensures { Gives (λ x. (x.0, x.1.now)) result (start_at bytes.now) }
{
    if let Some(rest) = after(bytes, b"none") {
        return Ok((None, rest));
    }
    let (day, rest) = day(bytes)?;
    Ok((Some(day), rest))
}

impl Readable for Decl {
    ghost reading = { source_at };

    #[tactic(auto, unfolding(crate::specs::Reading::source_at))]
    fn read(alloc: Global, bytes: &[u8]) -> Result<(Decl, &[u8]), CanonFault> {
        let rest = expect(bytes, b"(source ")?;
        let (name, rest) = name_then_space(alloc, rest)?;
        let (columns, rest) = list_then(alloc, rest, b" ")?;
        let (time, rest) = time(alloc, rest)?;
        let made = Decl {
            name,
            columns,
            time,
        };
        shut(made, rest, b")")
    }
}

#[tactic(auto, unfolding(crate::specs::Reading::seed_at))]
fn seed(alloc: Global, bytes: &[u8]) -> Result<(Defn, &[u8]), CanonFault>
    ensures { Gives (λ x. (x.0, x.1.now)) result (seed_at bytes.now) }
{
    let (columns, rest) = list_then(alloc, bytes, b" ")?;
    let (rows, rest) = list_then(alloc, rest, b")")?;
    Ok((Defn::Seed { columns, rows }, rest))
}

#[tactic(auto, unfolding(crate::specs::Reading::body_at))]
fn body(alloc: Global, bytes: &[u8]) -> Result<(Defn, &[u8]), CanonFault>
    ensures { Gives (λ x. (x.0, x.1.now)) result (body_at bytes.now) }
{
    if let Some(rest) = after(bytes, b"(seed ") {
        return seed(alloc, rest);
    }
    let rest = expect(bytes, b"(query ")?;
    let (query, rest) = query(alloc, rest)?;
    Ok((Defn::Sql(query), rest))
}

// The lookback behind a time column, where it is said.
#[tactic(auto, unfolding(crate::specs::Reading::lookback_at))]
fn lookback(form: Form, bytes: &[u8]) -> Result<(u32, &[u8]), CanonFault>
    ensures { Gives (λ x. (x.0, x.1.now)) result (lookback_at form bytes.now) }
{
    match form {
        Form::Former => Ok((0, bytes)),
        Form::Current => {
            let rest = expect(bytes, b" ")?;
            let (lookback, rest) = number(rest, MOST_LOOKBACK)?;
            Ok((lookback as u32, rest))
        }
    }
}

#[tactic(auto, unfolding(crate::specs::Reading::incremental_at))]
fn incremental(alloc: Global, form: Form, bytes: &[u8]) -> Result<(Kind, &[u8]), CanonFault>
    ensures { Gives (λ x. (x.0, x.1.now)) result (incremental_at form bytes.now) }
{
    let rest = expect(bytes, b"(incremental ")?;
    let (time, rest) = text(alloc, rest)?;
    let (lookback, rest) = lookback(form, rest)?;
    shut(Kind::Incremental { time, lookback }, rest, b")")
}

#[tactic(auto, unfolding(crate::specs::Reading::kind_at))]
fn kind(alloc: Global, form: Form, bytes: &[u8]) -> Result<(Kind, &[u8]), CanonFault>
    ensures { Gives (λ x. (x.0, x.1.now)) result (kind_at form bytes.now) }
{
    if let Some(rest) = after(bytes, b"(full)") {
        return Ok((Kind::Full, rest));
    }
    if let Some(rest) = after(bytes, b"(view)") {
        return Ok((Kind::View, rest));
    }
    if let Some(rest) = after(bytes, b"(seed)") {
        return Ok((Kind::Seed, rest));
    }
    incremental(alloc, form, bytes)
}

// The name and the kind of a definition, behind its word.
#[tactic(auto, unfolding(crate::specs::Reading::titled_at))]
fn titled(alloc: Global, form: Form, bytes: &[u8]) -> Result<((Name, Kind), &[u8]), CanonFault>
    ensures { Gives (λ x. (x.0, x.1.now)) result (titled_at form bytes.now) }
{
    let rest = expect(bytes, b"(own ")?;
    let (name, rest) = name_then_space(alloc, rest)?;
    let (kind, rest) = kind(alloc, form, rest)?;
    match expect(rest, b" ") {
        Ok(rest) => Ok(((name, kind), rest)),
        Err(fault) => {
            drop(kind);
            Err(fault)
        }
    }
}

// Its five fields, its unit and its start.
#[tactic(auto, unfolding(crate::specs::Reading::timed_at))]
fn timed(alloc: Global, bytes: &[u8]) -> Result<(((Fields, Unit), Option<i32>), &[u8]), CanonFault>
    ensures { Gives (λ x. (((sets_of x.0.0.0, x.0.0.1), x.0.1), x.1.now)) result (timed_at bytes.now) }
{
    let (fields, rest) = cron_fields(alloc, bytes)?;
    let rest = expect(rest, b" ")?;
    let Some((unit, rest)) = unit(rest) else {
        return Err(CanonFault::NotCanonical);
    };
    let (start, rest) = start(rest)?;
    let rest = expect(rest, b" ")?;
    Ok((((fields, unit), start), rest))
}

/// A definition of a form.
#[tactic(auto, unfolding(crate::specs::Reading::own_at))]
pub fn own(alloc: Global, form: Form, bytes: &[u8]) -> Result<(Own, &[u8]), CanonFault>
    ensures { Gives (λ x. (x.0, x.1.now)) result (own_at form bytes.now) }
{
    let ((name, kind), rest) = titled(alloc, form, bytes)?;
    let (((fields, unit), start), rest) = timed(alloc, rest)?;
    let cron = made(&fields)?;
    let (sources, rest) = list_then(alloc, rest, b" ")?;
    let (defn, rest) = body(alloc, rest)?;
    let made = Own {
        name,
        kind,
        cron,
        unit,
        start,
        sources,
        defn,
    };
    shut(made, rest, b")")
}
