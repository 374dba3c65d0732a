// Copies of tokens, which are equal to them.
use crate::tokens::{Token, TokenKind};
use mesh_list::{Duplicate, Memory};

impl Duplicate for TokenKind {
    fn copy(&self) -> Result<TokenKind, Memory> {
        match self {
            TokenKind::Ident(word) => Ok(TokenKind::Ident(word.copy()?)),
            TokenKind::Number(value) => Ok(TokenKind::Number(*value)),
            TokenKind::Text(text) => Ok(TokenKind::Text(text.copy()?)),
            TokenKind::Macro(name) => Ok(TokenKind::Macro(name.copy()?)),
            TokenKind::Sign(sign) => Ok(TokenKind::Sign(sign.copy()?)),
        }
    }
}

impl Duplicate for Token {
    fn copy(&self) -> Result<Token, Memory> {
        Ok(Token {
            start: self.start,
            end: self.end,
            kind: self.kind.copy()?,
        })
    }
}
