// Tokens in print, each behind a blank.
use mesh_cases::Pen;
use mesh_query_tokens::{Token, TokenKind, Tokens};

fn put_what(pen: &mut Pen, letter: &[u8], what: &[u8]) {
    pen.put(letter);
    pen.put(b" ");
    pen.shown(what);
}

fn put_token(pen: &mut Pen, token: &Token) {
    pen.put(b" [");
    pen.count(token.start);
    pen.put(b"-");
    pen.count(token.end);
    match &token.kind {
        TokenKind::Ident(word) => put_what(pen, b" i", word.as_slice()),
        TokenKind::Number(value) => {
            pen.put(b" n ");
            pen.count(*value);
        }
        TokenKind::Text(text) => put_what(pen, b" t", text.as_slice()),
        TokenKind::Macro(name) => put_what(pen, b" m", name.as_slice()),
        TokenKind::Sign(sign) => put_what(pen, b" s", sign.as_slice()),
    }
    pen.put(b"]");
}

pub fn put_each(pen: &mut Pen, tokens: &Tokens) {
    for token in tokens.as_slice() {
        put_token(pen, token);
    }
}
