//! The order of models. Its contract: from the names of models and the relations that each one's query names come
//! either all of them by rank and name, each with its rank, or the names of those that reach themselves.

mod cycles;
mod laws;
mod links;
mod order;
mod peel;
mod readers;
mod seen;

pub use laws::{
    cycles_are_one, orders_are_one, orders_have_all_models, orders_have_no_cycle,
    parents_stand_before, ranks_are_one,
};
pub use order::in_order;
pub use readers::{Order, OrderFault, Ranked, Reader};
