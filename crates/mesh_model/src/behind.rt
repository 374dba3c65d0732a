// The statement, and the query behind it.
ghost use Rattle.std.specs.Prelude.{◌≡◌, ◌-◌, length, true, Result};
ghost use Rattle.mesh_query_grammar.specs.declared.surface.queries.Surface.{Surface as Tree};
ghost use Rattle.mesh_query_tokens.specs.Gives.{Gives};
ghost use Rattle.mesh_query_tokens.specs.declared.faults.ReadFault.{ReadFault as Fault};
ghost use Rattle.mesh_model.specs.ModelTexts.{is_seed_text, body, whole, query_at};
ghost use Rattle.mesh_model.specs.Reads.{IsQueryRead};

use crate::model::Whole;
use mesh_base_values::Kind;
use mesh_model_statement::{KindText, read_statement};
use mesh_query::parse;
use mesh_query_grammar::surface::Surface;
use mesh_query_tokens::{FaultKind, ReadFault, Token, Tokens};

fn is_seed(kind: &Option<KindText>) -> bool
    ensures { result ≡ is_seed_text kind.now }
{
    match kind {
        None => false,
        Some(found) => match &found.kind {
            Kind::Seed => true,
            _ => false,
        },
    }
}

// A file has no more tokens than bytes, so that their number is of 32 bits.
fn query(tokens: &Tokens, from: usize) -> Result<Surface, ReadFault>
    ensures { IsQueryRead tokens.now from result }
{
    if from > 0xffff_ffff {
        return Err(ReadFault::Memory);
    }
    parse(tokens, from as u32)
}

// Nothing stands behind the statement of a SEED.
fn nothing(before: u64, rest: &[Token]) -> Result<Option<Surface>, ReadFault>
    ensures { (q : Result Tree Fault) → Gives result (body true before rest.now q) }
{
    if rest.is_empty() {
        Ok(None)
    } else {
        Err(ReadFault::Fault {
            at: before,
            kind: FaultKind::Syntax,
        })
    }
}

fn body(
    tokens: &Tokens,
    seed: bool,
    before: u64,
    rest: &[Token],
) -> Result<Option<Surface>, ReadFault>
    ensures { (q : Result Tree Fault) × IsQueryRead tokens.now (length tokens.now - length rest.now) q × Gives result (body seed before rest.now q) }
{
    if seed {
        return nothing(before, rest);
    }
    let from = tokens.len().saturating_sub(rest.len());
    match query(tokens, from) {
        Ok(found) => Ok(Some(found)),
        Err(fault) => Err(fault),
    }
}

/// The statement that the tokens of a file begin with, and the query behind it.
pub(crate) fn read_whole(file: &[u8], tokens: &Tokens) -> Result<Whole, ReadFault>
    ensures { (q : Result Tree Fault) × IsQueryRead tokens.now (query_at file.now tokens.now) q × Gives result (whole file.now tokens.now q) }
{
    let (parts, before, rest) = match read_statement(tokens.alloc(), file, tokens.as_slice()) {
        Ok(found) => found,
        Err(fault) => return Err(fault),
    };
    match body(tokens, is_seed(&parts.kind), before, rest) {
        Ok(query) => Ok(Whole { parts, query }),
        Err(fault) => {
            drop(parts);
            Err(fault)
        }
    }
}
