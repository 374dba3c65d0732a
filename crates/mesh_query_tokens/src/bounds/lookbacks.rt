// The number of units that a model looks back over.
ghost use Rattle.std.specs.Prelude.{◌≡◌};
ghost use Rattle.mesh_query_tokens.specs.bounds.Numbers.{number_kind, lookback_number};

use crate::{Token, TokenKind};
use mesh_base_values::LONGEST_LOOKBACK;

// The number that a token is.
fn number(token: &Token) -> Option<u64>
    ensures { result ≡ number_kind token.now.kind }
{
    match &token.kind {
        TokenKind::Number(found) => Some(*found),
        _ => None,
    }
}

/// The lookback that a value is, from 0 to the longest one.
pub fn lookback_number(value: &[Token]) -> Option<u32>
    ensures { result ≡ lookback_number value.now }
{
    let [token] = value else {
        return None;
    };
    match number(token) {
        Some(found) => {
            if found <= u64::from(LONGEST_LOOKBACK) {
                Some(found as u32)
            } else {
                None
            }
        }
        None => None,
    }
}
