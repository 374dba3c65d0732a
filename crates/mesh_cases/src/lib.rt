//! What the suites of cases share: their files in the `data/` folder of `mesh_answers`, the lines of such a file,
//! texts that are written with escapes and copies, cells, a pen that is asked only at the end whether memory was
//! there, why a suite may end early, and how its report is compared and printed.
#![tactic(auto)]

mod cells;
mod differences;
mod escapes;
mod files;
mod pen;
mod report;
mod trouble;
mod words;

pub use cells::{cell_of, kind_of, kind_word, put_cell};
pub use differences::put_differences;
pub use escapes::{shown, unescaped};
pub use files::{cases_of, expected_of, file_of, halves};
pub use pen::Pen;
pub use report::{is_printed, put_count, put_number};
pub use trouble::Trouble;
pub use words::{filled, front_word, number_of, parted};
