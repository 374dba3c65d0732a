//! Which tables may be used again: what a model needs of its ancestors, when a change only adds columns, and the
//! category of a model beside the one that it is compared with. Its definitions are read in this order: `Cores`,
//! `Compatible` and `Categories`.

mod laws;

pub use laws::{
    columns_are_added_step_by_step, models_add_to_themselves, what_adds_to_additions_adds_to_all,
};
