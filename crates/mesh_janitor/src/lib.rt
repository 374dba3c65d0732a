//! What is written of environments besides the tables of models: `promote` gives an environment its list and its
//! views, `janitor` takes away what is over and what nothing uses, and `migrate` has the fingerprints that snapshots
//! get at another version. `making` makes lists of changes, one call each, `naming` puts names in order, and
//! `snapshots` has what references and ranks are walked by. Each module says its contract; they stand on the lists of
//! changes in `mesh_spec_changes`, on `mesh_house` and on the names of views in `mesh_layer`.
#![tactic(auto)]

pub mod janitor;
pub mod making;
pub mod migrate;
mod naming;
pub mod promote;
mod snapshots;
