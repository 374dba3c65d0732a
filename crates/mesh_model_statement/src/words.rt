// The words of a statement.
ghost use Rattle.std.specs.Prelude.{◌≡◌, [], ◌∷◌};
ghost use Rattle.mesh_model_statement.specs.Kinds.{is_left_out, kind_named, is_one_of, words_idle, is_entry, has_needed};
ghost use Rattle.mesh_model_statement.specs.Statement.{is_free, is_property, words_read};

use crate::kinds::KindWord;
use mesh_base_values::Str;
use mesh_query_grammar::lookahead::is_same;

/// Whether the word is one of these.
pub fn is_one_of(words: &[Str], word: &[u8]) -> bool
    ensures { result ≡ is_one_of words.now word.now }
{
    let mut found = false;
    for other in words {
        found = found || is_same(word, other.as_slice());
    }
    found
}

/// Whether the word is that of a kind that the profile leaves out.
pub(crate) fn is_left_out(word: &[u8]) -> bool
    ensures { result ≡ is_left_out word.now }
{
    is_same(word, b"incremental_by_unique_key")
        || is_same(word, b"incremental_by_partition")
        || is_same(word, b"scd_type_2")
        || is_same(word, b"embedded")
        || is_same(word, b"managed")
        || is_same(word, b"custom")
}

pub(crate) fn kind_named(word: &[u8]) -> Option<KindWord>
    ensures { result ≡ kind_named word.now }
{
    if is_same(word, b"full") {
        Some(KindWord::Full)
    } else if is_same(word, b"view") {
        Some(KindWord::View)
    } else if is_same(word, b"seed") {
        Some(KindWord::Seed)
    } else if is_same(word, b"incremental_by_time_range") {
        Some(KindWord::Incremental)
    } else {
        None
    }
}

fn is_idle_word(word: &[u8]) -> bool
    ensures { result ≡ is_one_of words_idle word.now }
{
    is_same(word, b"batch_size") || is_same(word, b"forward_only") || is_same(word, b"materialized")
}

/// Whether a kind may have an entry of this name.
pub(crate) fn is_entry(kind: KindWord, name: &[u8]) -> bool
    ensures { result ≡ is_entry kind name.now }
{
    match kind {
        KindWord::Seed => is_same(name, b"path") || is_idle_word(name),
        KindWord::Incremental => {
            is_same(name, b"time_column") || is_same(name, b"lookback") || is_idle_word(name)
        }
        KindWord::Full | KindWord::View => is_idle_word(name),
    }
}

/// Whether the kind needs the entry of this name, or none.
pub(crate) fn is_needed(kind: KindWord, name: &[u8]) -> bool
    ensures { result ≡ has_needed kind (name.now ∷ []) }
{
    match kind {
        KindWord::Seed => is_same(b"path", name),
        KindWord::Incremental => is_same(b"time_column", name),
        KindWord::Full | KindWord::View => true,
    }
}

pub(crate) fn needs_none(kind: KindWord) -> bool
    ensures { result ≡ has_needed kind [] }
{
    match kind {
        KindWord::Seed | KindWord::Incremental => false,
        KindWord::Full | KindWord::View => true,
    }
}

/// Whether the property's value is any tokens.
pub(crate) fn is_free(name: &[u8]) -> bool
    ensures { result ≡ is_free name.now }
{
    is_same(name, b"owner")
        || is_same(name, b"description")
        || is_same(name, b"tags")
        || is_same(name, b"grain")
        || is_same(name, b"grains")
        || is_same(name, b"audits")
        || is_same(name, b"dialect")
        || is_same(name, b"references")
        || is_same(name, b"column_descriptions")
}

fn is_read_word(name: &[u8]) -> bool
    ensures { result ≡ is_one_of words_read name.now }
{
    is_same(name, b"name")
        || is_same(name, b"kind")
        || is_same(name, b"cron")
        || is_same(name, b"interval_unit")
        || is_same(name, b"start")
        || is_same(name, b"columns")
}

pub(crate) fn is_property(name: &[u8]) -> bool
    ensures { result ≡ is_property name.now }
{
    is_read_word(name) || is_free(name)
}
