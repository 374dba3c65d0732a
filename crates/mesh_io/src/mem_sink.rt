// A sink in memory, whose calls fail by a list.
ghost use Rattle.std.specs.Prelude.{◌≡◌, [], Err, IsTrue, OnErr};
ghost use Rattle.mesh_io.specs.Told.{SinkTold, SinkPuts};
ghost use Rattle.mesh_io.specs.Calls.{fails_next, after_call, no_calls};
ghost use Rattle.mesh_io.specs.Held.{sink_told};

use crate::calls::{Calls, Numbers};
use crate::fails::IoFail;
use crate::files::append;
use crate::outside::Sink;
use mesh_base_values::Str;
use mesh_list::Seq;
use std::alloc::Global;
use std::marker::Model;
use std::mem;

/// Bytes that were written. It tells them, and the calls with listed numbers fail, and no others.
pub struct MemSink {
    bytes: Str,
    calls: Calls,
}

impl Drop for MemSink {
    fn drop(self) {
        let MemSink { bytes: _, calls: _ } = self;
    }
}

impl Model for MemSink {
    ghost use Rattle.mesh_io.specs.Held.{SinkHeld};

    ghost Value = { SinkHeld };

    ghost view = { λ s. record { written = s.bytes; calls = s.calls } };
}

impl MemSink {
    /// A sink with nothing written, whose calls of these numbers, counted from 0, are to fail.
    pub fn new(alloc: Global, fails: Numbers) -> MemSink
        ensures { result ≡ record { written = []; calls = no_calls fails } }
    {
        MemSink {
            bytes: Seq::new(alloc),
            calls: Calls::new(fails),
        }
    }

    /// The bytes that were written. This is no call.
    pub fn bytes(&self) -> &Str
        ensures { result.now ≡ self.now.written }
    {
        &self.bytes
    }
}

impl Sink for MemSink {
    ghost told = { sink_told };

    fn faults(&self) -> u64 {
        self.calls.faults
    }

    fn put(&mut self, piece: &[u8]) -> Result<(), IoFail>
        ensures told { SinkPuts piece.now (sink_told self.old) (sink_told self.new) result }
        ensures listed { result ≡ Err IoFail.Failed → IsTrue (fails_next self.old.calls) }
        ensures only { IsTrue (fails_next self.old.calls) → result ≡ Err IoFail.Failed }
        ensures written { OnErr result (self.new.written ≡ self.old.written) }
        ensures calls { self.new.calls ≡ after_call self.old.calls }
    {
        if self.calls.come() {
            return Err(IoFail::Failed);
        }
        append(&mut self.bytes, piece)?;
        Ok(())
    }
}
