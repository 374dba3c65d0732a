//! Laws of tokens in words of their own, each the contract of a function with an empty body: the longest token wins,
//! and a text has one list of such tokens. Its one file of definitions, `Lexemes`, says by printing which bytes spell
//! a token of each kind.

ghost use Rattle.std.specs.Prelude.{◌≡◌, ℕ, List, Ok};
ghost use Rattle.mesh_query_tokens.specs.declared.tokens.Token.{Token};
ghost use Rattle.mesh_query_tokens.specs.Text.{tokens};
ghost use Rattle.mesh_law_reading.specs.lexemes.Lexemes.{AreLexed};

/// Each token that is read is the longest front of what is left of the text that spells a token of any kind. None
/// begins where a comment does, and in front of each and behind the last stand blanks and comments alone.
#[tactic(auto, using(crate::proofs::lexemes::Lexed::tokens_are_lexed))]
pub fn each_token_is_the_longest()
    ensures { (bytes : List ℕ) (found : List Token) → tokens bytes ≡ Ok found → AreLexed 0 bytes found }
{}

/// A text has at most one such list of tokens. So where a text is read, what is read is that list, and no other.
#[tactic(auto, using(crate::proofs::lexemes::Unique::lexed_once))]
pub fn one_lexing()
    ensures { (at : ℕ) (bytes : List ℕ) (one other : List Token) → AreLexed at bytes one → AreLexed at bytes other → one ≡ other }
{}
