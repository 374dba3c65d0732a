// Tests whether two tokens are the same.
use crate::tokens::{Token, TokenKind};
use mesh_list::Same;

impl Same for TokenKind {
    fn same(&self, other: &TokenKind) -> bool {
        self == other
    }
}

impl Same for Token {
    fn same(&self, other: &Token) -> bool {
        self == other
    }
}
