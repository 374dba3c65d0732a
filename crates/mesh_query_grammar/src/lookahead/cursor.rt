// Looking at the next token, and taking it.
ghost use Rattle.std.specs.Prelude.{◌≡◌, ◌<◌, ◌+◌, ◌&&◌, codes, drop, length, IsTrue, MatchResult};
ghost use Rattle.mesh_query_grammar.specs.Signs.{place as place_of, IsWord, IsSign, IsName, IsType};
ghost use Rattle.mesh_query_grammar.specs.lookahead.Places.{Takes};
ghost use Rattle.mesh_query_grammar.specs.lookahead.Answers.{IsNot};
ghost use Rattle.mesh_query_grammar.specs.declared.lookahead.fault.Fault.TheVariants.{Nesting};
ghost use Rattle.mesh_query_grammar.specs.Plans.{is_word as is_the_word, is_sign as is_the_sign, is_name as is_a_name, is_text as is_a_text, is_type as is_a_type};
ghost use Rattle.mesh_query_grammar.specs.Machine.{begins};

use crate::lookahead::fault::Fault;
use crate::lookahead::words::{is_reserved, is_same, type_of};
use mesh_base_values::{ColType, Str};
use mesh_list::Duplicate;
use mesh_query_tokens::{Token, TokenKind};

/// The place of a token's first byte, or 0 at the end of the tokens.
pub fn place(tokens: &[Token], at: usize) -> u64
    ensures { result ≡ place_of (drop at tokens.now) }
{
    if at < tokens.len() {
        tokens[at].start
    } else {
        0
    }
}

#[tactic(auto, using(crate::proofs::lookahead::NextToken::begins_at, crate::proofs::lookahead::NextToken::begins_past))]
pub fn is_word(tokens: &[Token], at: usize, word: &[u8]) -> bool
    ensures taken { IsTrue result → Takes (IsWord word.now) tokens.now at (at + 1) }
    ensures seen { result ≡ begins (is_the_word word.now) (drop at tokens.now) }
{
    if at < tokens.len() {
        match &tokens[at].kind {
            TokenKind::Ident(found) => is_same(found.as_slice(), word),
            _ => false,
        }
    } else {
        false
    }
}

#[tactic(auto, using(crate::proofs::lookahead::NextToken::begins_at, crate::proofs::lookahead::NextToken::begins_past))]
pub fn is_sign(tokens: &[Token], at: usize, sign: &[u8]) -> bool
    ensures taken { IsTrue result → Takes (IsSign sign.now) tokens.now at (at + 1) }
    ensures seen { result ≡ begins (is_the_sign sign.now) (drop at tokens.now) }
{
    if at < tokens.len() {
        match &tokens[at].kind {
            TokenKind::Sign(found) => is_same(found.as_slice(), sign),
            _ => false,
        }
    } else {
        false
    }
}

#[tactic(auto, using(crate::proofs::lookahead::NextToken::begins_at, crate::proofs::lookahead::NextToken::begins_past))]
pub fn is_text(tokens: &[Token], at: usize) -> bool
    ensures { result ≡ begins is_a_text (drop at tokens.now) }
{
    if at < tokens.len() {
        match &tokens[at].kind {
            TokenKind::Text(_) => true,
            _ => false,
        }
    } else {
        false
    }
}

/// Whether the word `date` and a text stand here.
pub fn is_date(tokens: &[Token], at: usize) -> bool
    ensures { result ≡ (begins (is_the_word (codes "date")) (drop at tokens.now) && begins is_a_text (drop (at + 1) tokens.now)) }
{
    is_word(tokens, at, b"date") && is_text(tokens, at + 1)
}

/// Whether the token is an identifier that is no word of queries.
#[tactic(auto, using(crate::proofs::lookahead::NextToken::begins_at, crate::proofs::lookahead::NextToken::begins_past))]
pub fn is_name(tokens: &[Token], at: usize) -> bool
    ensures within { IsTrue result → (at < length tokens.now) }
    ensures seen { result ≡ begins is_a_name (drop at tokens.now) }
{
    if at < tokens.len() {
        match &tokens[at].kind {
            TokenKind::Ident(found) => !is_reserved(found.as_slice()),
            _ => false,
        }
    } else {
        false
    }
}

/// The place behind a word that has to stand here.
pub fn word(tokens: &[Token], at: usize, word: &[u8]) -> Result<usize, Fault>
    ensures { MatchResult result (Takes (IsWord word.now) tokens.now at) (IsNot (is_the_word word.now) tokens.now at) }
{
    if is_word(tokens, at, word) {
        Ok(at + 1)
    } else {
        Err(Fault::Syntax { token: at })
    }
}

/// The place behind a sign that has to stand here.
pub fn sign(tokens: &[Token], at: usize, sign: &[u8]) -> Result<usize, Fault>
    ensures { MatchResult result (Takes (IsSign sign.now) tokens.now at) (IsNot (is_the_sign sign.now) tokens.now at) }
{
    if is_sign(tokens, at, sign) {
        Ok(at + 1)
    } else {
        Err(Fault::Syntax { token: at })
    }
}

/// A name that has to stand here, and the place behind it.
#[tactic(auto, using(crate::proofs::lookahead::NextToken::begins_at, crate::proofs::lookahead::NextToken::begins_past))]
pub fn name(tokens: &[Token], at: usize) -> Result<(Str, usize), Fault>
    ensures { MatchResult result (λ p. Takes (IsName p.0) tokens.now at p.1) (IsNot is_a_name tokens.now at) }
{
    if at < tokens.len() {
        match &tokens[at].kind {
            TokenKind::Ident(found) => {
                if is_reserved(found.as_slice()) {
                    return Err(Fault::Syntax { token: at });
                }
                Ok((found.copy()?, at + 1))
            }
            _ => Err(Fault::Syntax { token: at }),
        }
    } else {
        Err(Fault::Syntax { token: at })
    }
}

/// A type that has to stand here, and the place behind it.
#[tactic(auto, using(crate::proofs::lookahead::NextToken::begins_at, crate::proofs::lookahead::NextToken::begins_past))]
pub fn column_type(tokens: &[Token], at: usize) -> Result<(ColType, usize), Fault>
    ensures { MatchResult result (λ p. Takes (IsType p.0) tokens.now at p.1) (IsNot is_a_type tokens.now at) }
{
    if at < tokens.len() {
        match &tokens[at].kind {
            TokenKind::Ident(found) => match type_of(found.as_slice()) {
                Some(kind) => Ok((kind, at + 1)),
                None => Err(Fault::Syntax { token: at }),
            },
            _ => Err(Fault::Syntax { token: at }),
        }
    } else {
        Err(Fault::Syntax { token: at })
    }
}

/// How much deeper it may go inside what is opened here.
pub fn nested(depth: u32) -> Result<u32, Fault>
    ensures { MatchResult result (λ deeper. depth ≡ deeper + 1) (λ e. (depth ≡ 0) × (e ≡ Nesting)) }
{
    if depth == 0 {
        Err(Fault::Nesting)
    } else {
        Ok(depth - 1)
    }
}
