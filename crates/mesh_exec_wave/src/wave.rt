//! Waves: the jobs of one rank, evaluated side by side. Its contract: `wave` gives the rows of each job at the job's
//! own place, whatever the number of workers.

mod gates;
mod jobs;
mod laws;
mod parts;
mod rows;
mod times;
mod units;
mod waves;
mod workers;

pub use gates::{Gate, OpenGate};
pub use laws::{jobs_are_of_models, jobs_cross_threads};
pub use rows::{ascending_rows, rows_within};
pub use waves::wave;
