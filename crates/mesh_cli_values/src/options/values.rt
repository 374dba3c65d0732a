// What the values of options and places stand for.
ghost use Rattle.std.specs.Prelude.{◌≡◌, ℤ, IfOk, MatchOption};
ghost use Rattle.std.specs.List.{list_all, position};
ghost use Rattle.std.specs.Option.{option_map};
ghost use Rattle.std.specs.declared.option.Option.{Option};
ghost use Rattle.mesh_spec_changes.specs.Environments.{is_env_byte, is_env_name};
ghost use Rattle.mesh_cli_values.specs.options.Values.{IsMomentOf, again_named, column_named, count_named, days_named, env_named, expiring_named, is_other, is_point, name_named, name_of, restate_named, workers_named};

use mesh_base::Restate;
use mesh_base_values::{Name, Str, is_identifier, same_text};
use mesh_list::{Memory, Seq};
use mesh_time_days::casts::{day_named, lower_case, number_named};
use mesh_time_days::moment_of;
use std::alloc::Global;

fn is_env_byte(b: u8) -> bool
    ensures { result ≡ is_env_byte b }
{
    b.is_ascii_lowercase() || b.is_ascii_digit() || b == b'_'
}

fn are_env_bytes(bytes: &[u8]) -> bool
    ensures { result ≡ list_all is_env_byte bytes.now }
{
    bytes.iter().all(|b| is_env_byte(*b))
}

fn is_env_name(name: &[u8]) -> bool
    ensures { result ≡ is_env_name name.now }
{
    match name {
        [] => false,
        [first, rest @ ..] => {
            first.is_ascii_lowercase() && are_env_bytes(rest) && name.len() <= 64
        }
    }
}

fn is_other(env: &[u8]) -> bool
    ensures { result ≡ is_other env.now }
{
    !same_text(env, b"prod")
}

/// An environment by its name, and production where none is given.
pub fn env_named(alloc: Global, text: Option<&str>) -> Result<Option<Str>, Memory>
    ensures { IfOk result (λ made. made ≡ env_named (option_map (λ s. s.now) text.entry)) }
{
    let Some(text) = text else {
        return Ok(Some(Seq::from_vec(Vec::from_slice(alloc, b"prod")?)));
    };
    if is_env_name(text.as_bytes()) {
        return Ok(Some(Seq::from_vec(Vec::from_slice(alloc, text.as_bytes())?)));
    }
    Ok(None)
}

/// An environment that is to expire: any but production, which stays.
pub fn expiring_named(alloc: Global, text: Option<&str>) -> Result<Option<Str>, Memory>
    ensures { IfOk result (λ made. made ≡ expiring_named (option_map (λ s. s.now) text.entry)) }
{
    match env_named(alloc, text) {
        Ok(Some(env)) if is_other(env.as_slice()) => Ok(Some(env)),
        Ok(_) => Ok(None),
        Err(refused) => Err(refused),
    }
}

/// How many workers: 1 to 64, and 1 where nothing is said.
pub fn workers_named(text: Option<&str>) -> Option<u32>
    ensures { result ≡ workers_named (option_map (λ s. s.now) text.entry) }
{
    match text {
        None => Some(1),
        Some(text) => match number_named(text.as_bytes()) {
            Some(n) if 1 <= n && n <= 64 => Some(n as u32),
            _ => None,
        },
    }
}

/// How many records a demonstration has: 1 to 100,000.
pub fn count_named(text: &[u8]) -> Option<u32>
    ensures { result ≡ count_named text.now }
{
    match number_named(text) {
        Some(n) if 1 <= n && n <= 100_000 => Some(n as u32),
        _ => None,
    }
}

/// The moment that a text is, where one is given; the outer answer is none where it is no moment's.
pub fn moment_named(text: Option<&str>) -> Option<Option<i64>>
    ensures { MatchOption result ((t : Option ℤ) → ¬ IsMomentOf (option_map (λ s. s.now) text.entry) t) (λ t. IsMomentOf (option_map (λ s. s.now) text.entry) t) }
{
    match text {
        None => Some(None),
        Some(text) => match moment_of(text.as_bytes()) {
            None => None,
            Some(t) => Some(Some(t)),
        },
    }
}

/// The place of the first point.
fn point_in(text: &[u8]) -> Option<usize>
    ensures { result ≡ position is_point text.now }
{
    text.iter().position(|b| *b == b'.')
}

fn name_of(alloc: Global, schema: &[u8], model: &[u8]) -> Result<Option<Name>, Memory>
    ensures { IfOk result (λ made. made ≡ name_of schema.now model.now) }
{
    if is_identifier(schema) && is_identifier(model) {
        let schema = lower_case(alloc, schema)?;
        let model = lower_case(alloc, model)?;
        return Ok(Some(Name { schema, model }));
    }
    Ok(None)
}

/// A name of two parts, in small letters.
pub fn name_named(alloc: Global, text: &[u8]) -> Result<Option<Name>, Memory>
    ensures { IfOk result (λ made. made ≡ name_named text.now) }
{
    match point_in(text) {
        None => Ok(None),
        Some(at) => name_of(alloc, &text[..at], &text[at + 1..]),
    }
}

/// A column's name, in small letters.
pub fn column_named(alloc: Global, text: &[u8]) -> Result<Option<Str>, Memory>
    ensures { IfOk result (λ made. made ≡ column_named text.now) }
{
    if is_identifier(text) {
        return Ok(Some(lower_case(alloc, text)?));
    }
    Ok(None)
}

/// Two days, the first not above the last.
pub fn days_named(first: &[u8], last: &[u8]) -> Option<(i32, i32)>
    ensures { result ≡ days_named first.now last.now }
{
    let Some(first) = day_named(first) else {
        return None;
    };
    match day_named(last) {
        Some(last) if first <= last => Some((first, last)),
        _ => None,
    }
}

/// A model to be computed again, over these days or over all.
fn restate_named(name: Name, first: Option<&str>, last: Option<&str>) -> Option<Restate>
    ensures { result ≡ restate_named name (option_map (λ s. s.now) first.entry) (option_map (λ s. s.now) last.entry) }
{
    match (first, last) {
        (None, None) => Some(Restate {
            name,
            first: None,
            last: None,
        }),
        (Some(first), Some(last)) => match days_named(first.as_bytes(), last.as_bytes()) {
            None => None,
            Some((first, last)) => Some(Restate {
                name,
                first: Some(first),
                last: Some(last),
            }),
        },
        _ => None,
    }
}

/// What is to be computed again, if anything is; the outer answer is none where the words are none.
pub fn again_named(
    alloc: Global,
    model: Option<&str>,
    first: Option<&str>,
    last: Option<&str>,
) -> Result<Option<Option<Restate>>, Memory>
    ensures { IfOk result (λ made. made ≡ again_named (option_map (λ s. s.now) model.entry) (option_map (λ s. s.now) first.entry) (option_map (λ s. s.now) last.entry)) }
{
    let Some(model) = model else {
        if first.is_none() && last.is_none() {
            return Ok(Some(None));
        }
        return Ok(None);
    };
    match name_named(alloc, model.as_bytes())? {
        None => Ok(None),
        Some(name) => match restate_named(name, first, last) {
            None => Ok(None),
            Some(restate) => Ok(Some(Some(restate))),
        },
    }
}
