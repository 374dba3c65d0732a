//! Expressions whose names are looked up before the first row. Its contract: what `bind` makes of an expression, over
//! the columns of a FROM, under keys and for an interval, has the expression's value (`Ev` of `mesh_spec_query`)
//! whatever row, key values and group it is given.

mod binding;
mod forms;
mod leaves;
mod nodes;
mod settled;

pub use binding::{bind, bind_each};
pub use forms::{Bound, BoundWhen, BoundWhens, Bounded};
