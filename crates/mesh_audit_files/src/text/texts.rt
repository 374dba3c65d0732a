// What an audit's file says.
ghost use Rattle.std.specs.Prelude.{◌≡◌, IfOk, Ok, Result};
ghost use Rattle.mesh_query_grammar.specs.declared.surface.queries.Surface.{Surface as Tree};
ghost use Rattle.mesh_query_tokens.specs.Gives.{Gives};
ghost use Rattle.mesh_query_tokens.specs.declared.faults.ReadFault.{ReadFault as Faults};
ghost use Rattle.mesh_model.specs.Reads.{IsQueryRead};
ghost use Rattle.mesh_audit_files.specs.text.Texts.{IsAuditRead, alone, any_model, named, no_token, or_token, placeless, query_fault, text_of, whole};
ghost use Rattle.mesh_audit_files.specs.text.Replaced.{with_name};
ghost use Rattle.mesh_model.specs.ModelTexts.{is_want};

use crate::text::heads::Head;
use crate::text::replaced::with_name;
use crate::text::statement::read_statement;
use mesh_base_values::{Name, Str};
use mesh_list::{Duplicate, Memory};
use mesh_model::{Lexed, read_tokens};
use mesh_model_statement::{bad, end_of};
use mesh_query::parse;
use mesh_query_tokens::{FaultKind, ReadFault, Token, Tokens};
use std::alloc::Global;

/// An audit's name, and the tokens of its query.
pub struct AuditText {
    pub name: Str,
    pub tokens: Tokens,
}

impl Drop for AuditText {
    fn drop(self) {
        let AuditText { name: _, tokens: _ } = self;
    }
}

/// A fault of the query of an audit's file, which is told without its place.
pub fn placeless(fault: ReadFault) -> ReadFault
    ensures { result ≡ placeless fault }
{
    match fault {
        ReadFault::Fault { at: _, kind } => ReadFault::Fault { at: 0, kind },
        ReadFault::Memory => ReadFault::Memory,
    }
}

// Whether a fault only says that tokens are wanting.
fn is_want(tokens: &[Token], fault: &ReadFault) -> bool
    ensures { result ≡ is_want tokens.now fault.now }
{
    match fault {
        ReadFault::Fault {
            at,
            kind: FaultKind::Syntax,
        } => *at == end_of(0, tokens),
        _ => false,
    }
}

fn or_token(tokens: &[Token], token: Option<ReadFault>, fault: ReadFault) -> ReadFault
    ensures { result ≡ or_token tokens.now token fault }
{
    match token {
        None => fault,
        Some(token) => {
            if is_want(tokens, &fault) {
                drop(fault);
                token
            } else {
                drop(token);
                fault
            }
        }
    }
}

fn any_model(alloc: Global) -> Result<Name, Memory>
    ensures { IfOk result (λ name. name ≡ any_model) }
{
    let schema = u8::copy_items(alloc, b"this")?;
    let model = u8::copy_items(alloc, b"model")?;
    Ok(Name { schema, model })
}

fn no_token(token: Option<ReadFault>) -> Result<(), ReadFault>
    ensures { result ≡ no_token token }
{
    match token {
        None => Ok(()),
        Some(token) => Err(placeless(token)),
    }
}

// The fault of a query that is read by itself, or that of the faulty token behind it.
fn query_alone(tokens: &Tokens, token: Option<ReadFault>) -> Result<(), ReadFault>
    ensures { (query : Result Tree Faults) × IsQueryRead tokens.now 0 query × (result ≡ query_fault tokens.now token query) }
{
    match parse(tokens, 0) {
        Ok(tree) => {
            drop(tree);
            no_token(token)
        }
        Err(fault) => Err(placeless(or_token(tokens.as_slice(), token, fault))),
    }
}

fn named(alloc: Global, head: Head, before: u64, rest: &[Token]) -> Result<AuditText, ReadFault>
    ensures { Gives result (named (record { head = head; before = before; rest = rest.now })) }
{
    let Head { seen: _, name } = head;
    match name {
        None => Err(bad(alloc, 0, b"name")),
        Some(name) => match Token::copy_items(alloc, rest) {
            Ok(tokens) => Ok(AuditText { name, tokens }),
            Err(_) => {
                drop(name);
                Err(ReadFault::Memory)
            }
        },
    }
}

// What stands behind a statement, and what the statement says.
fn whole(
    alloc: Global,
    head: Head,
    before: u64,
    rest: &[Token],
    token: Option<ReadFault>,
) -> Result<AuditText, ReadFault>
    ensures { (query : Result Tree Faults) × IsQueryRead (with_name any_model rest.now) 0 query
        × Gives result (whole token query (record { head = head; before = before; rest = rest.now })) }
{
    let name = any_model(alloc)?;
    let tokens = with_name(alloc, &name, rest)?;
    match query_alone(&tokens, token) {
        Ok(()) => named(alloc, head, before, rest),
        Err(fault) => Err(fault),
    }
}

fn text_of(
    alloc: Global,
    taken: &[Str],
    tokens: &[Token],
    token: Option<ReadFault>,
) -> Result<AuditText, ReadFault>
    ensures { (query : Result Tree Faults) × IsQueryRead (alone taken.now tokens.now) 0 query
        × Gives result (text_of taken.now tokens.now token query) }
{
    match read_statement(alloc, taken, tokens) {
        Ok((head, before, rest)) => whole(alloc, head, before, rest, token),
        Err(fault) => Err(or_token(tokens, token, fault)),
    }
}

/// Reads an audit's file, where earlier files have taken these names. The fault is the first in the text; one of the
/// query has place 0, also a faulty token of it, and an absent name comes last.
pub fn read_audit(alloc: Global, taken: &[Str], bytes: &[u8]) -> Result<AuditText, ReadFault>
    ensures { IsAuditRead taken.now bytes.now result }
{
    let Lexed { tokens, fault } = read_tokens(alloc, bytes)?;
    text_of(alloc, taken, tokens.as_slice(), fault)
}
