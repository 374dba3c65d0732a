//! The output columns of SELECTs: what they are called and which types they have, which of them the keys of GROUP BY
//! mean, whether the sides of each UNION ALL have the same types, and which common table expression a name means,
//! with its columns. Its contract: each call gives exactly what its definition says, or the first fault of that walk,
//! unless memory runs out.

mod commons;
mod keys;
mod outputs;
mod resolved;
mod sides;

pub use commons::{Common, Commons, cte_named};
pub use keys::{Key, key_exprs, keys as group_keys};
pub use outputs::{Output, items};
pub use resolved::resolved_items;
pub use sides::with_sides_alike;
