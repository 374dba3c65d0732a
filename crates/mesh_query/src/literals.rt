// Values that one token or two spell.
ghost use Rattle.std.specs.Prelude.{◌≡◌, ◌+◌, ◌&&◌, ℕ, codes, drop, true, false, MatchResult};
ghost use Rattle.mesh_query_grammar.specs.Signs.{place as place_of, IsDay};
ghost use Rattle.mesh_query_grammar.specs.Rules.{value};
ghost use Rattle.mesh_query_grammar.specs.Plans.{literal_plan, is_word as is_the_word, is_sign as is_the_sign, is_name as is_a_name, is_text as is_a_text};
ghost use Rattle.mesh_query_grammar.specs.Machine.{begins};
ghost use Rattle.mesh_query_grammar.specs.lookahead.Places.{Takes};
ghost use Rattle.mesh_query.specs.Answers.{AnswersOn, IsNoDay, function_in};
ghost use Rattle.mesh_query.specs.Rests.{unopened, word_plan};

use crate::nodes::Nodes;
use mesh_list::Duplicate;
use mesh_query_grammar::lookahead::{Fault, function_of, is_sign, is_word, name, place, word};
use mesh_query_grammar::surface::{Function, Primary};
use mesh_query_tokens::{Token, TokenKind};
use mesh_time_days::day_of;

/// A number, a text, a macro, or what TRUE, FALSE or NULL spells.
pub fn literal(tokens: &[Token], nodes: &mut Nodes, from: usize) -> Result<(Primary, usize), Fault>
    ensures { (n : ℕ) → AnswersOn true n value (literal_plan (place_of (drop from tokens.now))) tokens.now from nodes.old.left nodes.new.left result }
{
    if from >= tokens.len() {
        return Err(Fault::Syntax { token: from });
    }
    let at = place(tokens, from);
    match &tokens[from].kind {
        TokenKind::Number(value) => {
            nodes.meet();
            Ok((Primary::Number { at, value: *value }, from + 1))
        }
        TokenKind::Text(text) => {
            nodes.meet();
            let text = text.copy()?;
            Ok((Primary::Text { at, text }, from + 1))
        }
        TokenKind::Macro(name) => {
            nodes.meet();
            let name = name.copy()?;
            Ok((Primary::Macro { at, name }, from + 1))
        }
        TokenKind::Ident(_) => word_literal(tokens, nodes, from),
        TokenKind::Sign(_) => Err(Fault::Syntax { token: from }),
    }
}

// TRUE, FALSE or NULL.
fn word_literal(tokens: &[Token], nodes: &mut Nodes, from: usize) -> Result<(Primary, usize), Fault>
    ensures { (n : ℕ) → AnswersOn true n value (word_plan (place_of (drop from tokens.now))) tokens.now from nodes.old.left nodes.new.left result }
{
    let at = place(tokens, from);
    if is_word(tokens, from, b"true") {
        nodes.meet();
        Ok((Primary::Truth { at, value: true }, from + 1))
    } else if is_word(tokens, from, b"false") {
        nodes.meet();
        Ok((Primary::Truth { at, value: false }, from + 1))
    } else if is_word(tokens, from, b"null") {
        nodes.meet();
        Ok((Primary::Null { at }, from + 1))
    } else {
        Err(Fault::Syntax { token: from })
    }
}

/// A date: the word `date` and a text that is a real day.
pub fn date(tokens: &[Token], nodes: &mut Nodes, from: usize) -> Result<(Primary, usize), Fault>
    requires dated { (begins (is_the_word (codes "date")) (drop from tokens.now) && begins is_a_text (drop (from + 1) tokens.now)) ≡ true }
    ensures { (n : ℕ) → AnswersOn true n value (unopened (place_of (drop from tokens.now))) tokens.now from nodes.old.left nodes.new.left result }
{
    let at = place(tokens, from);
    nodes.meet();
    let next = word(tokens, from, b"date")?;
    let (day, next) = day(tokens, next)?;
    Ok((Primary::Date { at, day }, next))
}

// The day of a text that has to stand here, and the place behind it.
fn day(tokens: &[Token], at: usize) -> Result<(i32, usize), Fault>
    ensures { MatchResult result (λ p. Takes (IsDay p.0) tokens.now at p.1) (IsNoDay tokens.now at) }
{
    if at < tokens.len() {
        match &tokens[at].kind {
            TokenKind::Text(text) => match day_of(text.as_slice()) {
                Some(day) => Ok((day, at + 1)),
                None => Err(Fault::Syntax { token: at }),
            },
            _ => Err(Fault::Syntax { token: at }),
        }
    } else {
        Err(Fault::Syntax { token: at })
    }
}

/// The function that the next token names.
#[tactic(auto, using(mesh_query_grammar::proofs::lookahead::NextToken::begins_at))]
pub fn function_at(tokens: &[Token], at: usize) -> Option<Function>
    ensures { result ≡ function_in (drop at tokens.now) }
{
    if at < tokens.len() {
        match &tokens[at].kind {
            TokenKind::Ident(found) => function_of(found.as_slice()),
            _ => None,
        }
    } else {
        None
    }
}

/// A column, by its own name or behind the name of what it is of.
pub fn column(tokens: &[Token], nodes: &mut Nodes, from: usize) -> Result<(Primary, usize), Fault>
    requires name { begins is_a_name (drop from tokens.now) ≡ true }
    requires undated { (begins (is_the_word (codes "date")) (drop from tokens.now) && begins is_a_text (drop (from + 1) tokens.now)) ≡ false }
    requires alone { begins (is_the_sign (codes "(")) (drop (from + 1) tokens.now) ≡ false }
    ensures { (n : ℕ) → AnswersOn true n value (unopened (place_of (drop from tokens.now))) tokens.now from nodes.old.left nodes.new.left result }
{
    nodes.meet();
    let at = place(tokens, from);
    let (first, next) = name(tokens, from)?;
    if is_sign(tokens, next, b".") {
        let (second, next) = name(tokens, next + 1)?;
        let item = Some(first);
        return Ok((
            Primary::Column {
                at,
                item,
                name: second,
            },
            next,
        ));
    }
    Ok((
        Primary::Column {
            at,
            item: None,
            name: first,
        },
        next,
    ))
}
