// How far the value of a property goes.
ghost use Rattle.std.specs.Prelude.{◌≡◌, ◌≤◌, [], ◌++◌, ◌∷◌, IfOk, Ok, length};
ghost use Rattle.mesh_query_tokens.specs.Gives.{Gives};
ghost use Rattle.mesh_query_tokens.specs.bounds.Faults.{broken};
ghost use Rattle.mesh_query_tokens.specs.bounds.Brackets.{or_fault, closed, rounds, opened, ends_value, value_len, is_none_open};

use crate::bounds::faults::{broken, too_deep};
use crate::bounds::signs::is_sign;
use crate::{ReadFault, Token};
use mesh_base_values::DEEPEST_NESTING;
use mesh_list::Seq;
use std::alloc::Global;

// The brackets that are open, the innermost last; a parenthesis is true.
type Open = Seq<bool>;

// The parentheses that are open, with that of the statement.
fn rounds(held: &Open) -> u64
    ensures { result ≡ rounds held.now }
{
    1 + held.as_slice().iter().filter(|round| **round).count() as u64
}

fn is_none_open(held: &Open) -> bool
    ensures { result ≡ is_none_open held.now }
{
    match held.as_slice() {
        [] => true,
        [_, ..] => false,
    }
}

fn closed(held: Open, round: bool) -> Option<Open>
    ensures { result ≡ closed round held }
{
    let mut rest = held;
    match rest.pop() {
        Some(last) => { if last == round { Some(rest) } else { None } }
        None => None,
    }
}

fn pushed(held: Open, round: bool) -> Result<Open, ReadFault>
    ensures { Gives result (Ok (held ++ round ∷ [])) }
{
    let mut more = held;
    match more.push(round) {
        Ok(()) => Ok(more),
        Err(_) => Err(ReadFault::Memory),
    }
}

fn or_broken(held: Option<Open>, before: u64) -> Result<Open, ReadFault>
    ensures { Gives result (or_fault (broken before) held) }
{
    match held {
        Some(held) => Ok(held),
        None => Err(broken(before)),
    }
}

// The brackets that are open behind a token.
fn opened(
    alloc: Global,
    any: bool,
    before: u64,
    held: Open,
    token: &Token,
) -> Result<Open, ReadFault>
    ensures { Gives result (opened any before held token.now) }
{
    if is_sign(token, b"(") {
        if rounds(&held) < DEEPEST_NESTING {
            return pushed(held, true);
        }
        return Err(too_deep(alloc));
    }
    if is_sign(token, b")") {
        return or_broken(closed(held, true), before);
    }
    if is_sign(token, b"[") {
        if any {
            return pushed(held, false);
        }
        return Err(broken(before));
    }
    if is_sign(token, b"]") {
        return or_broken(closed(held, false), before);
    }
    if is_sign(token, b":=") && !any {
        return Err(broken(before));
    }
    Ok(held)
}

fn ends_value(held: &Open, token: &Token) -> bool
    ensures { result ≡ ends_value held.now token.now }
{
    is_none_open(held) && (is_sign(token, b",") || is_sign(token, b")"))
}

/// How many tokens the value of a property has, behind a token that ends at byte `before`.
pub fn value_len(
    alloc: Global,
    any: bool,
    before: u64,
    tokens: &[Token],
) -> Result<usize, ReadFault>
    ensures value { Gives result (value_len any before [] tokens.now) }
    ensures within { IfOk result (λ n. n ≤ length tokens.now) }
{
    let mut held: Open = Seq::new(alloc);
    let mut last = before;
    for i in 0..tokens.len() {
        let token = &tokens[i];
        if ends_value(&held, token) {
            return Ok(i);
        }
        match opened(alloc, any, last, held, token) {
            Ok(more) => held = more,
            Err(fault) => return Err(fault),
        }
        last = token.end;
    }
    Err(broken(last))
}
