//! What the values of options and places stand for: environments, numbers of workers and of records, moments, names
//! of two parts and of columns, days, and what is computed again. Its contract: each call gives just the value that `Values` says of
//! its text, or that there is none.

mod values;

pub use values::{
    again_named, column_named, count_named, days_named, env_named, expiring_named, moment_named,
    name_named, workers_named,
};
