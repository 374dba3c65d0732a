// Reads the tokens of a text.
ghost use Rattle.std.specs.Prelude.{◌≡◌, ◌<◌, ◌+◌, ◌^◌, true, ℕ, List, Ok, OnOk};
ghost use Rattle.mesh_query_tokens.specs.declared.tokens.Token.{Token};
ghost use Rattle.mesh_query_tokens.specs.Gives.{Gives};
ghost use Rattle.mesh_query_tokens.specs.Pieces.{too_large};
ghost use Rattle.mesh_query_tokens.specs.Text.{file_word, in_order, largest_file, tokens, with_piece};

use crate::faults::{FaultKind, ReadFault};
use crate::pieces::{copied, piece_at};
use crate::tokens::{Token, TokenKind, Tokens};
use mesh_base_values::LARGEST_FILE;
use mesh_list::{Memory, Seq};
use std::alloc::Global;

fn file_too_large(alloc: Global) -> Result<Tokens, ReadFault>
    ensures { Gives result (too_large 0 file_word largest_file) }
{
    let what = copied(alloc, b"file")?;
    Err(ReadFault::Fault {
        at: 0,
        kind: FaultKind::TooLarge {
            what,
            limit: LARGEST_FILE,
        },
    })
}

// Puts a piece of so many bytes at this place behind the tokens before it, if it is a token.
fn put(made: &mut Tokens, at: usize, length: usize, kind: Option<TokenKind>) -> Result<(), Memory>
    requires { at + length < 2 ^ 63 }
    ensures { OnOk result (made.new ≡ with_piece made.old at (kind, length)) }
{
    match kind {
        None => Ok(()),
        Some(kind) => made.push(Token {
            start: at as u64,
            end: (at + length) as u64,
            kind,
        }),
    }
}

/// The tokens of a model file or of a query (at most 1,048,576 bytes of UTF-8), each with its place in bytes. Blanks
/// and comments, from `--` until the line ends or from `/*` through `*/`, stand between tokens. `Syntax` comes where
/// no token begins, at the opening of a text or comment that isn't closed, and at the first byte that can't stand in
/// UTF-8; `TooLarge` of a `number` or `name` at its first byte, and of the `file` at 0.
#[tactic(auto, unfolding(crate::specs::Text::tokens))]
pub fn tokens_of(alloc: Global, bytes: &[u8]) -> Result<Tokens, ReadFault>
    ensures { Gives result (tokens bytes.now) }
{
    if bytes.len() as u64 > LARGEST_FILE {
        return file_too_large(alloc);
    }
    let mut made = Seq::new(alloc);
    let mut at = 0;
    while at < bytes.len() {
        let (_, rest) = bytes.split_at(at);
        let (kind, length) = piece_at(alloc, at, rest)?;
        put(&mut made, at, length, kind)?;
        at += length;
    }
    Ok(made)
}

/// The tokens of a text stand one behind another.
#[tactic(auto, using(crate::proofs::Order::stand_in_order))]
pub fn tokens_ascend()
    ensures { (bytes : List ℕ) (found : List Token) → tokens bytes ≡ Ok found → in_order 0 found ≡ true }
{}
