// Texts that are one, and the signs among the tokens of a statement.
ghost use Rattle.std.specs.Prelude.{◌≡◌};
ghost use Rattle.std.specs.Str.{bytes_eq};
ghost use Rattle.mesh_query_tokens.specs.bounds.Signs.{is_sign};

use crate::{Token, TokenKind};

pub(crate) fn is_same(a: &[u8], b: &[u8]) -> bool
    ensures { result ≡ bytes_eq a.now b.now }
{
    a == b
}

/// Whether a token is this sign.
pub fn is_sign(token: &Token, sign: &[u8]) -> bool
    ensures { result ≡ is_sign sign.now token.now }
{
    match &token.kind {
        TokenKind::Sign(found) => is_same(found.as_slice(), sign),
        _ => false,
    }
}
