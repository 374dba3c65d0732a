// The tokens of a text in front of its first fault.
ghost use Rattle.std.specs.Prelude.{◌≡◌, IfOk, take};
ghost use Rattle.mesh_query_tokens.specs.declared.faults.FaultKind.{FaultKind as FaultKinds};
ghost use Rattle.mesh_query_tokens.specs.declared.faults.ReadFault.TheVariants.{Fault};
ghost use Rattle.mesh_query_tokens.specs.Text.{tokens};
ghost use Rattle.mesh_model.specs.Lexed.{or_none, in_front, file_tokens, file_fault};

use mesh_list::{Memory, Seq};
use mesh_query_tokens::{ReadFault, Tokens, tokens_of};
use std::alloc::Global;

/// The tokens in front of the first fault among them, and that fault.
#[derive(Drop)]
pub struct Lexed {
    pub tokens: Tokens,
    pub fault: Option<ReadFault>,
}

// The bytes in front of a place.
fn front(bytes: &[u8], at: u64) -> &[u8]
    ensures { result.now ≡ take at bytes.now }
{
    if at < bytes.len() as u64 {
        &bytes[..at as usize]
    } else {
        bytes
    }
}

// The place of a fault, unless memory is out.
fn place_of(fault: ReadFault) -> Result<u64, Memory>
    ensures { IfOk result (λ at. (kind : FaultKinds) × (fault ≡ Fault at kind)) }
{
    let place = match &fault {
        ReadFault::Fault { at, .. } => Ok(*at),
        ReadFault::Memory => Err(Memory),
    };
    drop(fault);
    place
}

fn or_none(alloc: Global, bytes: &[u8]) -> Result<Tokens, Memory>
    ensures { IfOk result (λ found. found ≡ or_none (tokens bytes.now)) }
{
    match tokens_of(alloc, bytes) {
        Ok(found) => Ok(found),
        Err(fault) => {
            place_of(fault)?;
            Ok(Seq::new(alloc))
        }
    }
}

// The tokens in front of a place, at which the text may cut one or a comment.
fn in_front(alloc: Global, bytes: &[u8], at: u64) -> Result<Tokens, Memory>
    ensures { IfOk result (λ found. found ≡ in_front bytes.now at) }
{
    match tokens_of(alloc, front(bytes, at)) {
        Ok(found) => Ok(found),
        Err(fault) => {
            let at = place_of(fault)?;
            or_none(alloc, front(bytes, at))
        }
    }
}

/// The tokens of a text in front of its first fault, and that fault.
pub fn read_tokens(alloc: Global, bytes: &[u8]) -> Result<Lexed, Memory>
    ensures { IfOk result (λ found. found ≡ record { tokens = file_tokens bytes.now; fault = file_fault bytes.now }) }
{
    match tokens_of(alloc, bytes) {
        Ok(tokens) => Ok(Lexed {
            tokens,
            fault: None,
        }),
        Err(ReadFault::Fault { at, kind }) => match in_front(alloc, bytes, at) {
            Ok(tokens) => Ok(Lexed {
                tokens,
                fault: Some(ReadFault::Fault { at, kind }),
            }),
            Err(memory) => {
                drop(kind);
                Err(memory)
            }
        },
        Err(ReadFault::Memory) => Err(Memory),
    }
}
