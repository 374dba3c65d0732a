// Parentheses: one more is opened, and what was read within it is closed.
ghost use Rattle.std.specs.Prelude.{◌≡◌, ◌+◌, codes, MatchResult};
ghost use Rattle.mesh_query_grammar.specs.Signs.{IsSign};
ghost use Rattle.mesh_query_grammar.specs.Plans.{is_sign as is_the_sign};
ghost use Rattle.mesh_query_grammar.specs.lookahead.Answers.{IsNot};
ghost use Rattle.mesh_query_grammar.specs.lookahead.Places.{Takes};
ghost use Rattle.mesh_query.specs.Answers.{IsUnopened};

use mesh_query_grammar::lookahead::{Fault, is_sign, nested, sign};
use mesh_query_tokens::Token;

/// How many more may be opened within the parenthesis that has to stand here, and the place behind it.
pub fn opened(tokens: &[Token], depth: u32, from: usize) -> Result<(u32, usize), Fault>
    ensures { MatchResult result (λ p. Takes (IsSign (codes "(")) tokens.now from p.1 × (depth ≡ p.0 + 1)) (IsUnopened depth tokens.now from) }
{
    let next = sign(tokens, from, b"(")?;
    let deeper = nested(depth)?;
    Ok((deeper, next))
}

/// What has been read, and the place behind the parenthesis that has to stand behind it.
pub fn shut<T: Drop>(
    tokens: &[Token],
    found: Result<(T, usize), Fault>,
) -> Result<(T, usize), Fault>
    ensures { MatchResult result (λ p. MatchResult found (λ x. (p.0 ≡ x.0) × Takes (IsSign (codes ")")) tokens.now x.1 p.1) (λ _. ⊥)) (λ e. MatchResult found (λ x. IsNot (is_the_sign (codes ")")) tokens.now x.1 e) (λ f. e ≡ f)) }
{
    let (item, at) = found?;
    if is_sign(tokens, at, b")") {
        return Ok((item, at + 1));
    }
    Err(Fault::Syntax { token: at })
}
