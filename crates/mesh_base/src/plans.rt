// What a plan says of each model: how it differs from the environment's, and what is to be computed.
use mesh_base_values::{Name, Names};
use mesh_list::Seq;

/// Seconds: the last ticks that a table's rows were computed for.
pub type Marks = Seq<i64>;

pub type CategoryList = Seq<Category>;

pub type Dues = Seq<Due>;

pub type Entries = Seq<Entry>;

/// How a model of a project stands to the model of its name that an environment lists. It is indirect where the change
/// is an ancestor's alone.
#[derive(Clone, Copy, PartialEq, Eq)]
pub enum Category {
    Unchanged,
    Added,
    Breaking,
    NonBreaking,
    IndirectBreaking,
    IndirectNonBreaking,
}

/// One category for each node of a project, and the models that it no longer has.
pub struct Categories {
    pub of: CategoryList,
    pub removed: Names,
}

impl Drop for Categories {
    fn drop(self) {
        let Categories { of: _, removed: _ } = self;
    }
}

/// What is to be computed of a project's node: all its rows, or those of one unit.
pub enum Due {
    Whole { node: u32, marks: Marks },
    Unit { node: u32, start: i64, end: i64 },
}

impl Drop for Due {
    fn drop(self) {
        match self {
            Due::Whole { node: _, marks: _ }
            | Due::Unit {
                node: _,
                start: _,
                end: _,
            } => {}
        }
    }
}

/// What is planned for a node: the table or view that will have its rows, and whether that is made already.
pub struct Entry {
    pub category: Category,
    pub object: Name,
    pub made: bool,
}

impl Drop for Entry {
    fn drop(self) {
        let Entry {
            category: _,
            object: _,
            made: _,
        } = self;
    }
}
