//! The next token of a query: whether it is this word or sign, a name, a type, a function or an operator, and the
//! place behind it. Its contract: what is taken is what the grammar names, and where nothing is taken the token at
//! fault is told.

mod cursor;
mod fault;
mod signs;
mod words;

pub use cursor::{
    column_type, is_date, is_name, is_sign, is_text, is_word, name, nested, place, sign, word,
};
pub use fault::Fault;
pub use signs::{add_sign, comparison, mul_sign};
pub use words::{function_of, is_reserved, is_same, type_of};
