//! The values that every crate of `mesh` speaks of: cells and rows with their order, columns and names, kinds of
//! models, crons, intervals, limits, and the definitions of bags and of the columns that a query picks. Its contract:
//! cells and rows are ordered as the printed texts are, a copy is equal and equality is exact, and sorted rows are
//! the same bag in ascending order.
#![tactic(auto)]

mod copies;
mod crons;
mod keys;
mod kinds;
mod limits;
mod names;
mod order;
mod same;
mod sorts;
mod times;
mod values;

pub use crons::{Cron, CronFault};
pub use kinds::{Kind, is_incremental};
pub use limits::{
    DEEPEST_NESTING, FEWEST_WORKERS, FIRST_DATE, FIRST_MOMENT, LARGEST_EXPRESSION, LARGEST_FILE,
    LARGEST_NUMBER, LARGEST_SCRIPT, LARGEST_SEED, LARGEST_SOURCE, LARGEST_WAVE, LAST_DATE,
    LAST_MOMENT, LIFETIME, LONGEST_ENVIRONMENT_NAME, LONGEST_LOOKBACK, LONGEST_NAME, MOST_COLUMNS,
    MOST_INTERVALS, MOST_MODELS, MOST_WORKERS,
};
pub use names::{has_two_underscores, is_identifier, is_schema, same_text};
pub use order::{cell_cmp, row_cmp};
pub use sorts::{one_ascending_list, sort_rows};
pub use times::{Bounds, Schedule, Spans, Unit};
pub use values::{
    Cell, ColType, Column, Columns, Name, Names, Numbers, Pair, Pairs, Row, Rows, RowsList, Seed,
    Str, Strs,
};
