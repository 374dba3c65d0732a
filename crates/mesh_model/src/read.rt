// A model's file.
ghost use Rattle.std.specs.Prelude.{◌≡◌};
ghost use Rattle.mesh_query_tokens.specs.Gives.{Gives};
ghost use Rattle.mesh_model.specs.ModelTexts.{is_want, earlier, with_tokens};
ghost use Rattle.mesh_model.specs.Reads.{IsModelRead};

use crate::behind::read_whole;
use crate::finished::finished;
use crate::lexed::{Lexed, read_tokens};
use crate::model::Whole;
use mesh_base_values::Str;
use mesh_model_statement::end_of;
use mesh_model_statement::model::ModelText;
use mesh_query_tokens::{FaultKind, ReadFault, Token};

// Whether a fault only says that tokens are wanting.
fn is_want(tokens: &[Token], fault: &ReadFault) -> bool
    ensures { result ≡ is_want tokens.now fault.now }
{
    match fault {
        ReadFault::Fault {
            at,
            kind: FaultKind::Syntax,
        } => *at == end_of(0, tokens),
        _ => false,
    }
}

fn earlier(
    tokens: &[Token],
    token: ReadFault,
    whole: Result<Whole, ReadFault>,
) -> Result<Whole, ReadFault>
    ensures { result ≡ earlier tokens.now token whole }
{
    match whole {
        Ok(whole) => {
            drop(whole);
            Err(token)
        }
        Err(fault) => {
            if is_want(tokens, &fault) {
                drop(fault);
                Err(token)
            } else {
                drop(token);
                Err(fault)
            }
        }
    }
}

// The earlier of a faulty token and a fault of those in front of it.
fn with_tokens(
    tokens: &[Token],
    token: Option<ReadFault>,
    whole: Result<Whole, ReadFault>,
) -> Result<Whole, ReadFault>
    ensures { result ≡ with_tokens tokens.now token whole }
{
    match token {
        None => whole,
        Some(token) => earlier(tokens, token, whole),
    }
}

/// Reads a model's file, whose path within the project is `file`. The fault is the first in the text, and after all
/// others an absent name or start, at 0. A fault of syntax is at the end of the last token that the beginning of a
/// model's file has, or where no token begins.
pub fn read_model(file: &Str, bytes: &[u8]) -> Result<ModelText, ReadFault>
    ensures { IsModelRead file.now bytes.now result }
{
    let alloc = file.alloc();
    let Lexed { tokens, fault } = match read_tokens(alloc, bytes) {
        Ok(lexed) => lexed,
        Err(_) => return Err(ReadFault::Memory),
    };
    let whole = read_whole(file.as_slice(), &tokens);
    let whole = with_tokens(tokens.as_slice(), fault, whole)?;
    finished(alloc, file, whole)
}
