// The calls of an object in memory, of which those listed by their numbers fail.
ghost use Rattle.std.specs.Prelude.{◌≡◌};

use mesh_list::Seq;

/// Numbers of calls.
pub type Numbers = Seq<u64>;

/// The numbers of the calls that are to fail, the number of the next call, and how many listed ones have come.
pub struct Calls {
    pub fails: Numbers,
    pub next: u64,
    pub faults: u64,
}

impl Drop for Calls {
    fn drop(self) {
        let Calls {
            fails: _,
            next: _,
            faults: _,
        } = self;
    }
}

impl Calls {
    ghost use Rattle.mesh_io.specs.Calls.{fails_next, after_call, no_calls, renumbered};

    /// No call has come, and those of these numbers will fail.
    pub fn new(fails: Numbers) -> Calls
        ensures { result ≡ no_calls fails }
    {
        Calls {
            fails,
            next: 0,
            faults: 0,
        }
    }

    /// Numbers the calls from 0 anew. The count of faults stays.
    pub fn renumber(&mut self, fails: Numbers)
        ensures { self.new ≡ renumbered fails self.old }
    {
        self.fails = fails;
        self.next = 0;
    }

    /// Counts a call, and says whether it fails.
    pub fn come(&mut self) -> bool
        ensures fails { result ≡ fails_next self.old }
        ensures calls { self.new ≡ after_call self.old }
    {
        let number = self.next;
        self.next = number.saturating_add(1);
        let fails = self.fails.as_slice().contains(&number);
        if fails {
            self.faults = self.faults.saturating_add(1);
        }
        fails
    }
}
