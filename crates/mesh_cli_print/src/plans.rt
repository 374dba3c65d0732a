//! What is printed of a plan. Its contract: `plan_text` gives exactly the text that the definition has, `put_moment`
//! a moment as it is printed, and `kind_word` the word of a kind.

mod differences;
mod moments;
mod runs;
mod text;

pub use differences::kind_word;
pub use moments::put_moment;
pub use text::plan_text;
