// How names are spelled.
ghost use Rattle.std.specs.Prelude.{◌≡◌};
ghost use Rattle.std.specs.List.{list_all};
ghost use Rattle.mesh_base_values.specs.Picked.{same_text};
ghost use Rattle.mesh_base_values.specs.Names.{has_two_underscores, is_identifier, is_letter, is_name_byte, is_schema};

fn is_letter(byte: u8) -> bool
    ensures { result ≡ is_letter byte }
{
    (byte >= b'a' && byte <= b'z') || (byte >= b'A' && byte <= b'Z')
}

fn is_name_byte(byte: u8) -> bool
    ensures { result ≡ is_name_byte byte }
{
    is_letter(byte) || (byte >= b'0' && byte <= b'9') || byte == b'_'
}

fn are_name_bytes(text: &[u8]) -> bool
    ensures { result ≡ list_all is_name_byte text.now }
{
    text.iter().all(|b| is_name_byte(*b))
}

/// Whether two texts are one, byte for byte.
pub fn same_text(a: &[u8], b: &[u8]) -> bool
    ensures { result ≡ same_text a.now b.now }
{
    a.cmp(&b).is_eq()
}

/// A letter of ASCII or an underscore, and then letters, digits and underscores.
pub fn is_identifier(text: &[u8]) -> bool
    ensures { result ≡ is_identifier text.now }
{
    match text {
        [] => false,
        [first, rest @ ..] => {
            let begins = is_letter(*first) || *first == b'_';
            begins && are_name_bytes(rest)
        }
    }
}

/// Whether two underscores adjoin somewhere. The schemas of physical tables have such a place, and those of models and
/// sources have none.
pub fn has_two_underscores(text: &[u8]) -> bool
    ensures { result ≡ has_two_underscores text.now }
{
    let mut after_one = false;
    for byte in text {
        if after_one && *byte == b'_' {
            return true;
        }
        after_one = *byte == b'_';
    }
    false
}

/// Whether a model or a source may have this schema, which is an identifier: it begins with a letter, has no two
/// underscores that adjoin, and doesn't end in one.
pub fn is_schema(text: &[u8]) -> bool
    ensures { result ≡ is_schema text.now }
{
    match text {
        [] => false,
        [first, ..] => { is_letter(*first) && !text.ends_with(b"_") && !has_two_underscores(text) }
    }
}
