//! What audits find is what they find from scratch, proved: over the objects of models that are up to date, and once an
//! apply has made and filled its models, before its environment gets them. Each law is the contract of a function with
//! an empty body. Its definitions are read in this order: `UpToDate`, `Scratch` and `Execution`.
#![tactic(auto)]

mod laws;

pub use laws::{
    audits_find_what_they_find_from_scratch, audits_miss_no_object,
    executed_plans_are_audited_from_scratch, executions_come_before_promotions,
    made_plans_are_audited_from_scratch,
};
