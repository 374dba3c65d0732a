// The bytes that blanks, words, numbers and signs are made of.
ghost use Rattle.std.specs.Prelude.{◌≡◌};
ghost use Rattle.mesh_base_values.specs.Names.{is_name_byte};
ghost use Rattle.mesh_query_tokens.specs.Letters.{begins_word, is_blank, is_digit, is_long_sign, is_sign};

pub(crate) fn is_blank(byte: u8) -> bool
    ensures { result ≡ is_blank byte }
{
    byte == b' ' || byte == b'\t' || byte == b'\r' || byte == b'\n'
}

pub(crate) fn is_digit(byte: u8) -> bool
    ensures { result ≡ is_digit byte }
{
    byte >= b'0' && byte <= b'9'
}

pub(crate) fn begins_word(byte: u8) -> bool
    ensures { result ≡ begins_word byte }
{
    (byte >= b'a' && byte <= b'z') || (byte >= b'A' && byte <= b'Z') || byte == b'_'
}

pub(crate) fn is_name_byte(byte: u8) -> bool
    ensures { result ≡ is_name_byte byte }
{
    (byte >= b'a' && byte <= b'z')
        || (byte >= b'A' && byte <= b'Z')
        || (byte >= b'0' && byte <= b'9')
        || byte == b'_'
}

pub(crate) fn is_sign(byte: u8) -> bool
    ensures { result ≡ is_sign byte }
{
    byte == b'('
        || byte == b')'
        || byte == b'['
        || byte == b']'
        || byte == b','
        || byte == b';'
        || byte == b'.'
        || byte == b'*'
        || byte == b'+'
        || byte == b'-'
        || byte == b'/'
        || byte == b'%'
        || byte == b'='
        || byte == b'<'
        || byte == b'>'
}

pub(crate) fn is_long_sign(first: u8, second: u8) -> bool
    ensures { result ≡ is_long_sign first second }
{
    (first == b'<' && second == b'>')
        || (first == b'!' && second == b'=')
        || (first == b'<' && second == b'=')
        || (first == b'>' && second == b'=')
        || (first == b'|' && second == b'|')
        || (first == b':' && second == b':')
        || (first == b':' && second == b'=')
}
