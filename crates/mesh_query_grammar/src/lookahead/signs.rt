// The operators that a token can be.
ghost use Rattle.std.specs.Prelude.{◌≡◌, ◌+◌, drop, false, MatchOption};
ghost use Rattle.mesh_query_grammar.specs.Plans.{is_cmp, is_add, is_mul};
ghost use Rattle.mesh_query_grammar.specs.Machine.{begins};
ghost use Rattle.mesh_query_grammar.specs.Signs.{IsSign, cmp_text, add_text, mul_text};
ghost use Rattle.mesh_query_grammar.specs.lookahead.Places.{Takes};

use crate::lookahead::cursor::is_sign;
use crate::surface::{AddSign, Cmp, MulSign};
use mesh_query_tokens::Token;

/// The comparison that stands here, if one does.
#[tactic(auto, using(crate::proofs::lookahead::Neither::no_cmp))]
pub fn comparison(tokens: &[Token], at: usize) -> Option<Cmp>
    ensures { MatchOption result (begins is_cmp (drop at tokens.now) ≡ false) (λ c. Takes (IsSign (cmp_text c)) tokens.now at (at + 1)) }
{
    if is_sign(tokens, at, b"=") {
        Some(Cmp::Eq)
    } else if is_sign(tokens, at, b"<>") {
        Some(Cmp::Ne)
    } else if is_sign(tokens, at, b"<") {
        Some(Cmp::Lt)
    } else if is_sign(tokens, at, b"<=") {
        Some(Cmp::Le)
    } else if is_sign(tokens, at, b">") {
        Some(Cmp::Gt)
    } else if is_sign(tokens, at, b">=") {
        Some(Cmp::Ge)
    } else {
        None
    }
}

/// The `+` or `-` that stands here, if one does.
#[tactic(auto, using(crate::proofs::lookahead::Neither::no_add))]
pub fn add_sign(tokens: &[Token], at: usize) -> Option<AddSign>
    ensures { MatchOption result (begins is_add (drop at tokens.now) ≡ false) (λ o. Takes (IsSign (add_text o)) tokens.now at (at + 1)) }
{
    if is_sign(tokens, at, b"+") {
        Some(AddSign::Plus)
    } else if is_sign(tokens, at, b"-") {
        Some(AddSign::Minus)
    } else {
        None
    }
}

/// The `*`, `/` or `%` that stands here, if one does.
#[tactic(auto, using(crate::proofs::lookahead::Neither::no_mul))]
pub fn mul_sign(tokens: &[Token], at: usize) -> Option<MulSign>
    ensures { MatchOption result (begins is_mul (drop at tokens.now) ≡ false) (λ o. Takes (IsSign (mul_text o)) tokens.now at (at + 1)) }
{
    if is_sign(tokens, at, b"*") {
        Some(MulSign::Times)
    } else if is_sign(tokens, at, b"/") {
        Some(MulSign::Over)
    } else if is_sign(tokens, at, b"%") {
        Some(MulSign::Modulo)
    } else {
        None
    }
}
