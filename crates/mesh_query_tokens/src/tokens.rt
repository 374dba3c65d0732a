// Tokens of model files and of queries.
use mesh_base_values::Str;
use mesh_list::Seq;

/// In the order of the text, so that the places ascend.
pub type Tokens = Seq<Token>;

/// What a token is. Identifiers and the names of macros are in lower case and texts are without their quotes, `''` in
/// them being one quote. The sign `!=` is `<>`.
#[derive(PartialEq, Eq)]
pub enum TokenKind {
    Ident(Str),
    Number(u64),
    Text(Str),
    Macro(Str),
    Sign(Str),
}

impl Drop for TokenKind {
    fn drop(self) {
        match self {
            TokenKind::Ident(_)
            | TokenKind::Number(_)
            | TokenKind::Text(_)
            | TokenKind::Macro(_)
            | TokenKind::Sign(_) => {}
        }
    }
}

/// A token, and the bytes from `start` up to `end` that it was read from.
#[derive(PartialEq, Eq)]
pub struct Token {
    pub start: u64,
    pub end: u64,
    pub kind: TokenKind,
}

impl Drop for Token {
    fn drop(self) {
        let Token {
            start: _,
            end: _,
            kind: _,
        } = self;
    }
}
