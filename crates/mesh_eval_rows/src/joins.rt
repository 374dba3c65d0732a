//! Rows as the evaluator holds them: `index` finds rows by what they are, and `joined` has rows side by side where
//! they lie. Each module says its contract; they stand on the definitions of `mesh_spec_query`.

pub mod index;
pub mod joined;
