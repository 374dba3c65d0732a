//! Audits, and what is found by them.
use mesh_base::Query;
use mesh_base_values::{Name, Str};
use mesh_list::Seq;

/// By rank and name of their models, and for each model as they are written.
pub type Audits = Seq<Audit>;

/// In the same order.
pub type AuditNames = Seq<AuditName>;

/// In the order of the audits.
pub type Findings = Seq<Finding>;

/// A model keeps what it promises where the query has no rows.
pub struct Audit {
    pub model: Name,
    pub name: Str,
    pub query: Query,
}

impl Drop for Audit {
    fn drop(self) {
        let Audit {
            model: _,
            name: _,
            query: _,
        } = self;
    }
}

/// What a model lists under a name by which there is no audit.
pub struct AuditName {
    pub model: Name,
    pub name: Str,
}

impl Drop for AuditName {
    fn drop(self) {
        let AuditName { model: _, name: _ } = self;
    }
}

/// What the models of a project list: the audits that are run, and the names that aren't.
pub struct AuditSet {
    pub audits: Audits,
    pub unknown: AuditNames,
}

impl Drop for AuditSet {
    fn drop(self) {
        let AuditSet {
            audits: _,
            unknown: _,
        } = self;
    }
}

/// An audit that has rows, and how many.
pub struct Finding {
    pub model: Name,
    pub name: Str,
    pub rows: u64,
}

impl Drop for Finding {
    fn drop(self) {
        let Finding {
            model: _,
            name: _,
            rows: _,
        } = self;
    }
}
