// Tokens in which a model's name stands for `@this_model`.
ghost use Rattle.std.specs.Prelude.{◌≡◌, ◌++◌, IfOk, OnOk};
ghost use Rattle.mesh_audit_files.specs.text.Replaced.{as_kind, is_this, name_tokens, token_for, with_name};

use mesh_base_values::Name;
use mesh_list::{Duplicate, Memory, Seq, push_made};
use mesh_query_grammar::lookahead::is_same;
use mesh_query_tokens::{Token, TokenKind, Tokens};
use std::alloc::Global;

fn is_this(token: &Token) -> bool
    ensures { result ≡ is_this token.now }
{
    match &token.kind {
        TokenKind::Macro(name) => is_same(name.as_slice(), b"this_model"),
        _ => false,
    }
}

fn as_kind(token: &Token, kind: TokenKind) -> Token
    ensures { result ≡ as_kind token.now kind }
{
    Token {
        start: token.start,
        end: token.end,
        kind,
    }
}

// The name at the place of a token.
fn name_tokens(alloc: Global, name: &Name, token: &Token) -> Result<Tokens, Memory>
    ensures { IfOk result (λ made. made ≡ name_tokens name.now token.now) }
{
    let schema = name.schema.copy()?;
    let point = u8::copy_items(alloc, b".")?;
    let model = name.model.copy()?;
    let mut made = Seq::new(alloc);
    made.push(as_kind(token, TokenKind::Ident(schema)))?;
    made.push(as_kind(token, TokenKind::Sign(point)))?;
    made.push(as_kind(token, TokenKind::Ident(model)))?;
    Ok(made)
}

fn push_token(alloc: Global, tokens: &mut Tokens, name: &Name, token: &Token) -> Result<(), Memory>
    ensures { OnOk result (tokens.new ≡ tokens.old ++ token_for name.now token.now) }
{
    if is_this(token) {
        let made = name_tokens(alloc, name, token)?;
        tokens.append(made)
    } else {
        push_made(tokens, token.copy())
    }
}

/// The tokens with a model's name for each `@this_model`.
pub fn with_name(alloc: Global, name: &Name, tokens: &[Token]) -> Result<Tokens, Memory>
    ensures { IfOk result (λ made. made ≡ with_name name.now tokens.now) }
{
    let mut made = Seq::new(alloc);
    for token in tokens {
        push_token(alloc, &mut made, name, token)?;
    }
    Ok(made)
}
