// What a token is.
ghost use Rattle.std.specs.Prelude.{◌≡◌, MatchOption};
ghost use Rattle.mesh_model_statement.specs.Faults.{is_word};
ghost use Rattle.mesh_model_statement.specs.Values.{word, text, said_kind};
ghost use Rattle.mesh_model_statement.specs.Kinds.{is_number};
ghost use Rattle.mesh_model_statement.specs.Views.{seen};

use mesh_base_values::Str;
use mesh_query_grammar::lookahead::is_same;
use mesh_query_tokens::{Token, TokenKind};

/// Whether a token is this word.
pub fn is_word(token: &Token, word: &[u8]) -> bool
    ensures { result ≡ is_word word.now token.now }
{
    match &token.kind {
        TokenKind::Ident(found) => is_same(found.as_slice(), word),
        _ => false,
    }
}

/// The word that a token is.
pub fn word(token: &Token) -> Option<&[u8]>
    ensures { seen result ≡ word token.now }
{
    match &token.kind {
        TokenKind::Ident(found) => Some(found.as_slice()),
        _ => None,
    }
}

pub(crate) fn text(token: &Token) -> Option<&[u8]>
    ensures { seen result ≡ text token.now }
{
    match &token.kind {
        TokenKind::Text(found) => Some(found.as_slice()),
        _ => None,
    }
}

/// The word or the text that a token is.
pub(crate) fn said(token: &Token) -> Option<&[u8]>
    ensures { seen result ≡ said_kind token.now.kind }
{
    match &token.kind {
        TokenKind::Ident(found) => Some(found.as_slice()),
        TokenKind::Text(found) => Some(found.as_slice()),
        _ => None,
    }
}

pub(crate) fn is_number(value: &[Token], number: u64) -> bool
    ensures { result ≡ is_number number value.now }
{
    match value {
        [token] => match &token.kind {
            TokenKind::Number(found) => *found == number,
            _ => false,
        },
        _ => false,
    }
}
