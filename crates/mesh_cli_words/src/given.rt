// What was given to a command.
ghost use Rattle.std.specs.Prelude.{◌≡◌, codes, IfOk};
ghost use Rattle.std.specs.Option.{option_and_then, option_map};
ghost use Rattle.clap.specs.Walk.{rows_of};
ghost use Rattle.clap.specs.Matches.{found_of};
ghost use Rattle.mesh_cli_values.specs.options.Values.{column_named, count_named, name_named};
ghost use Rattle.mesh_cli_words.specs.Lines.{again_given, column_given, count_given, days_between, days_given, env_given, expiring_given, given, is_flagged, is_yes, model_given, workers_given};

use clap::ArgMatches;
use mesh_base::Restate;
use mesh_base_values::{Name, Str, same_text};
use mesh_cli_values::options::{
    again_named, column_named, count_named, days_named, env_named, expiring_named, name_named,
    workers_named,
};
use mesh_list::{Memory, Seq};
use std::alloc::Global;

/// The value that was given under a name.
pub(crate) fn given<'a>(m: &ArgMatches<'a>, id: &str) -> Option<&'a str>
    ensures { option_map (λ s. s.now) result ≡ given id.now (rows_of (found_of m.now)) }
{
    m.get_str(id)
}

fn copied(alloc: Global, text: Option<&str>) -> Result<Option<Str>, Memory>
    ensures { IfOk result (λ made. made ≡ option_map (λ s. s.now) text.entry) }
{
    match text {
        None => Ok(None),
        Some(text) => Ok(Some(Seq::from_vec(Vec::from_slice(alloc, text.as_bytes())?))),
    }
}

/// The same, copied.
pub(crate) fn text_given(alloc: Global, m: &ArgMatches<'_>, id: &str) -> Result<Option<Str>, Memory>
    ensures { IfOk result (λ made. made ≡ given id.now (rows_of (found_of m.now))) }
{
    copied(alloc, given(m, id))
}

fn is_yes(text: Option<&str>) -> bool
    ensures { result ≡ is_yes (option_map (λ s. s.now) text.entry) }
{
    match text {
        None => false,
        Some(text) => same_text(text.as_bytes(), b"true"),
    }
}

/// Whether a word without a value was given.
pub(crate) fn is_flagged(m: &ArgMatches<'_>, id: &str) -> bool
    ensures { result ≡ is_flagged id.now (rows_of (found_of m.now)) }
{
    is_yes(given(m, id))
}

pub(crate) fn env_given(alloc: Global, m: &ArgMatches<'_>) -> Result<Option<Str>, Memory>
    ensures { IfOk result (λ made. made ≡ env_given (rows_of (found_of m.now))) }
{
    env_named(alloc, given(m, "env"))
}

pub(crate) fn expiring_given(alloc: Global, m: &ArgMatches<'_>) -> Result<Option<Str>, Memory>
    ensures { IfOk result (λ made. made ≡ expiring_given (rows_of (found_of m.now))) }
{
    expiring_named(alloc, given(m, "env"))
}

pub(crate) fn workers_given(m: &ArgMatches<'_>) -> Option<u32>
    ensures { result ≡ workers_given (rows_of (found_of m.now)) }
{
    workers_named(given(m, "workers"))
}

fn count_of(text: Option<&str>) -> Option<u32>
    ensures { result ≡ option_and_then count_named (option_map (λ s. s.now) text.entry) }
{
    match text {
        None => None,
        Some(text) => count_named(text.as_bytes()),
    }
}

pub(crate) fn count_given(m: &ArgMatches<'_>) -> Option<u32>
    ensures { result ≡ count_given (rows_of (found_of m.now)) }
{
    count_of(given(m, "records"))
}

pub(crate) fn again_given(
    alloc: Global,
    m: &ArgMatches<'_>,
) -> Result<Option<Option<Restate>>, Memory>
    ensures { IfOk result (λ made. made ≡ again_given (rows_of (found_of m.now))) }
{
    again_named(
        alloc,
        given(m, "restate-model"),
        given(m, "start"),
        given(m, "end"),
    )
}

fn model_named(alloc: Global, text: Option<&str>) -> Result<Option<Name>, Memory>
    ensures { IfOk result (λ made. made ≡ option_and_then name_named (option_map (λ s. s.now) text.entry)) }
{
    match text {
        None => Ok(None),
        Some(text) => name_named(alloc, text.as_bytes()),
    }
}

pub(crate) fn model_given(
    alloc: Global,
    m: &ArgMatches<'_>,
    id: &str,
) -> Result<Option<Name>, Memory>
    ensures { IfOk result (λ made. made ≡ model_given id.now (rows_of (found_of m.now))) }
{
    model_named(alloc, given(m, id))
}

fn column_of(alloc: Global, text: Option<&str>) -> Result<Option<Str>, Memory>
    ensures { IfOk result (λ made. made ≡ option_and_then column_named (option_map (λ s. s.now) text.entry)) }
{
    match text {
        None => Ok(None),
        Some(text) => column_named(alloc, text.as_bytes()),
    }
}

pub(crate) fn column_given(alloc: Global, m: &ArgMatches<'_>) -> Result<Option<Str>, Memory>
    ensures { IfOk result (λ made. made ≡ column_given (rows_of (found_of m.now))) }
{
    column_of(alloc, given(m, "column"))
}

fn days_between(first: Option<&str>, last: Option<&str>) -> Option<(i32, i32)>
    ensures { result ≡ days_between (option_map (λ s. s.now) first.entry) (option_map (λ s. s.now) last.entry) }
{
    match (first, last) {
        (Some(first), Some(last)) => days_named(first.as_bytes(), last.as_bytes()),
        _ => None,
    }
}

pub(crate) fn days_given(m: &ArgMatches<'_>) -> Option<(i32, i32)>
    ensures { result ≡ days_given (rows_of (found_of m.now)) }
{
    days_between(given(m, "start"), given(m, "end"))
}
