//! Gates for cases, and a plan that is made with one.

mod gates;
mod making;

pub use gates::{Counting, Holding};
pub use making::make_behind;
