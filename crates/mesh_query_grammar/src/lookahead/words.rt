// The words of queries: those that are no names, and those that name functions and types.
ghost use Rattle.std.specs.Prelude.{◌≡◌, ◌↔◌, IsTrue};
ghost use Rattle.std.specs.Str.{bytes_eq};
ghost use Rattle.mesh_query_grammar.specs.Words.{words_a_to_c, words_d_to_g, words_h_to_l, words_n_to_r, words_s_to_w, is_one_of, is_reserved, type_of, function_of, row_function_of, group_function_of};

use crate::surface::Function;
use mesh_base_values::ColType;

pub fn is_same(a: &[u8], b: &[u8]) -> bool
    ensures value { result ≡ bytes_eq a.now b.now }
    ensures equal { IsTrue result ↔ (a.now ≡ b.now) }
{
    a == b
}

fn is_word_a_to_c(word: &[u8]) -> bool
    ensures { result ≡ is_one_of words_a_to_c word.now }
{
    is_same(word, b"all")
        || is_same(word, b"and")
        || is_same(word, b"as")
        || is_same(word, b"between")
        || is_same(word, b"by")
        || is_same(word, b"case")
        || is_same(word, b"cast")
        || is_same(word, b"cross")
}

fn is_word_d_to_g(word: &[u8]) -> bool
    ensures { result ≡ is_one_of words_d_to_g word.now }
{
    is_same(word, b"distinct")
        || is_same(word, b"else")
        || is_same(word, b"end")
        || is_same(word, b"except")
        || is_same(word, b"exists")
        || is_same(word, b"false")
        || is_same(word, b"from")
        || is_same(word, b"full")
        || is_same(word, b"group")
}

fn is_word_h_to_l(word: &[u8]) -> bool
    ensures { result ≡ is_one_of words_h_to_l word.now }
{
    is_same(word, b"having")
        || is_same(word, b"in")
        || is_same(word, b"inner")
        || is_same(word, b"intersect")
        || is_same(word, b"is")
        || is_same(word, b"join")
        || is_same(word, b"left")
        || is_same(word, b"limit")
}

fn is_word_n_to_r(word: &[u8]) -> bool
    ensures { result ≡ is_one_of words_n_to_r word.now }
{
    is_same(word, b"natural")
        || is_same(word, b"not")
        || is_same(word, b"null")
        || is_same(word, b"offset")
        || is_same(word, b"on")
        || is_same(word, b"or")
        || is_same(word, b"order")
        || is_same(word, b"outer")
        || is_same(word, b"qualify")
        || is_same(word, b"right")
}

fn is_word_s_to_w(word: &[u8]) -> bool
    ensures { result ≡ is_one_of words_s_to_w word.now }
{
    is_same(word, b"select")
        || is_same(word, b"then")
        || is_same(word, b"true")
        || is_same(word, b"union")
        || is_same(word, b"using")
        || is_same(word, b"when")
        || is_same(word, b"where")
        || is_same(word, b"window")
        || is_same(word, b"with")
}

/// Whether a word of a query can be no name.
#[tactic(auto, unfolding(crate::specs::Words::is_reserved))]
pub fn is_reserved(word: &[u8]) -> bool
    ensures { result ≡ is_reserved word.now }
{
    is_word_a_to_c(word)
        || is_word_d_to_g(word)
        || is_word_h_to_l(word)
        || is_word_n_to_r(word)
        || is_word_s_to_w(word)
}

/// The type that a word names.
pub fn type_of(word: &[u8]) -> Option<ColType>
    ensures { result ≡ type_of word.now }
{
    if is_same(word, b"int")
        || is_same(word, b"integer")
        || is_same(word, b"bigint")
        || is_same(word, b"smallint")
        || is_same(word, b"tinyint")
    {
        Some(ColType::Int)
    } else if is_same(word, b"text")
        || is_same(word, b"varchar")
        || is_same(word, b"string")
        || is_same(word, b"char")
    {
        Some(ColType::Text)
    } else if is_same(word, b"date") {
        Some(ColType::Date)
    } else if is_same(word, b"bool") || is_same(word, b"boolean") {
        Some(ColType::Bool)
    } else {
        None
    }
}

fn row_function_of(word: &[u8]) -> Option<Function>
    ensures { result ≡ row_function_of word.now }
{
    if is_same(word, b"abs") {
        Some(Function::Abs)
    } else if is_same(word, b"length") {
        Some(Function::Length)
    } else if is_same(word, b"upper") {
        Some(Function::Upper)
    } else if is_same(word, b"lower") {
        Some(Function::Lower)
    } else if is_same(word, b"nullif") {
        Some(Function::Nullif)
    } else if is_same(word, b"coalesce") {
        Some(Function::Coalesce)
    } else {
        None
    }
}

fn group_function_of(word: &[u8]) -> Option<Function>
    ensures { result ≡ group_function_of word.now }
{
    if is_same(word, b"count") {
        Some(Function::Count)
    } else if is_same(word, b"sum") {
        Some(Function::Sum)
    } else if is_same(word, b"min") {
        Some(Function::Min)
    } else if is_same(word, b"max") {
        Some(Function::Max)
    } else {
        None
    }
}

/// The function that a word names.
pub fn function_of(word: &[u8]) -> Option<Function>
    ensures { result ≡ function_of word.now }
{
    match row_function_of(word) {
        Some(function) => Some(function),
        None => group_function_of(word),
    }
}
