// Gates that hold a unit, or count them.
use mesh_exec_wave::wave::Gate;
use std::sync::atomic::{AtomicU64, Ordering};

/// How often a held unit looks whether it may go on.
const MOST_TURNS: u32 = 50_000_000;

/// Holds unit 0 until unit 1 has entered, and tells where it held it too long.
#[derive(Drop)]
pub struct Holding {
    second: AtomicU64,
    late: AtomicU64,
}

impl Holding {
    pub fn new() -> Holding {
        Holding {
            second: AtomicU64::new(0),
            late: AtomicU64::new(0),
        }
    }

    /// Whether a unit was held until the last turn.
    pub fn is_late(&self) -> bool {
        self.late.load(Ordering::SeqCst) > 0
    }

    fn hold(&self) {
        for _ in 0..MOST_TURNS {
            if self.second.load(Ordering::SeqCst) > 0 {
                return;
            }
        }
        self.late.store(1, Ordering::SeqCst);
    }
}

impl Gate for Holding {
    fn enter(&self, unit: u32) {
        if unit == 0 {
            self.hold();
        } else if unit == 1 {
            self.second.store(1, Ordering::SeqCst);
        }
    }
}

/// Counts the units that enter.
#[derive(Drop)]
pub struct Counting {
    entered: AtomicU64,
}

impl Counting {
    pub fn new() -> Counting {
        Counting {
            entered: AtomicU64::new(0),
        }
    }

    /// How many units entered so far.
    pub fn entered(&self) -> u64 {
        self.entered.load(Ordering::SeqCst)
    }
}

impl Gate for Counting {
    fn enter(&self, _unit: u32) {
        self.entered.fetch_add(1, Ordering::SeqCst);
    }
}
