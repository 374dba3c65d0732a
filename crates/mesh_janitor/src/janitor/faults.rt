// What the janitor answers.

/// How much went of each kind, and how many changes that took.
#[derive(Clone, Copy)]
pub struct Swept {
    pub environments: u64,
    pub objects: u64,
    pub snapshots: u64,
    pub changes: u64,
}

/// Why the janitor stopped.
#[derive(Clone, Copy)]
pub enum SweepFault {
    /// The moment is before the book's.
    Moment { given: i64, kept: i64 },
    EnvUnknown,
    /// The count of faults rose.
    Warehouse,
    /// There was not enough memory.
    Memory,
}
