//! The resolved forms that every later crate speaks of: expressions and queries, definitions of models, snapshots,
//! environments and plans. Its contract: a copy is equal and equality is exact.
//! The module `rules` has well-formed definitions, proper projects and plans.
#![tactic(auto)]

mod definitions;
mod expression_copies;
mod expression_same;
mod expressions;
mod forgets;
mod jobs;
mod keys;
mod plans;
mod queries;
pub mod rules;
mod snapshots;

pub use definitions::{Decl, Defn, Externals, Own, Reading, Reads, Sources};
pub use expressions::{AggKind, Expr, Exprs, Func, Op, Var, When, Whens};
pub use forgets::{Forget, Forgets, Rename, Renames, Restate};
pub use jobs::{Done, Input, Inputs, Job, Jobs, Pools, Swept};
pub use mesh_base_values::{
    Bounds, Cell, ColType, Column, Columns, Cron, CronFault, Kind, Name, Names, Numbers, Pair,
    Pairs, Row, Rows, RowsList, Schedule, Seed, Spans, Str, Strs, Unit, cell_cmp, row_cmp,
    sort_rows,
};
pub use plans::{Categories, Category, CategoryList, Due, Dues, Entries, Entry, Marks};
pub use queries::{Ctes, FromItem, Froms, Item, Items, Join, Query, Rel, Select, Selects};
pub use snapshots::{Env, Envs, Indexes, Node, Nodes, Ref, Refs, Snapshot, Snapshots};
