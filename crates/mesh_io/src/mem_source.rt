// A source in memory, whose calls fail by a list.
ghost use Rattle.std.specs.Prelude.{◌≡◌, ◌+◌, ◌^◌, ◌<◌, ◌≤◌, length, take, drop, Err, Ok, IsTrue, IfOk, OnErr};
ghost use Rattle.mesh_io.specs.Told.{SourceTold, SourceTakes};
ghost use Rattle.mesh_io.specs.Calls.{fails_next, after_call, no_calls};
ghost use Rattle.mesh_io.specs.Held.{source_told};

use crate::calls::{Calls, Numbers};
use crate::fails::IoFail;
use crate::files::first_bytes;
use crate::outside::Source;
use mesh_base_values::Str;
use std::alloc::Global;
use std::marker::Model;

/// Bytes to be taken. It tells those that are left, and the calls with listed numbers fail, and no others.
pub struct MemSource {
    bytes: Str,
    at: usize,
    calls: Calls,
}

impl Drop for MemSource {
    fn drop(self) {
        let MemSource {
            bytes: _,
            at: _,
            calls: _,
        } = self;
    }
}

impl Model for MemSource {
    ghost use Rattle.std.specs.Prelude.{◌≤◌, length, drop};
    ghost use Rattle.mesh_io.specs.Held.{SourceHeld};

    ghost Value = { SourceHeld };

    ghost view = { λ s. record { left = drop s.at s.bytes; calls = s.calls } };

    ghost invariant = { λ s. s.at ≤ length s.bytes };
}

impl MemSource {
    /// A source of these bytes, whose calls of these numbers, counted from 0, are to fail.
    pub fn new(bytes: Str, fails: Numbers) -> MemSource
        ensures { result ≡ record { left = bytes; calls = no_calls fails } }
    {
        MemSource {
            bytes,
            at: 0,
            calls: Calls::new(fails),
        }
    }
}

fn rest_of(bytes: &Str, at: usize) -> &[u8]
    requires { at ≤ length bytes.now }
    ensures rest { result.now ≡ drop at bytes.now }
    ensures len { at + length result.now ≡ length bytes.now }
    ensures fits { length bytes.now < 2 ^ 64 }
{
    &bytes.as_slice()[at..]
}

impl Source for MemSource {
    ghost told = { source_told };

    fn faults(&self) -> u64 {
        self.calls.faults
    }

    fn take(&mut self, alloc: Global, most: u64) -> Result<Str, IoFail>
        requires { 0 < most }
        ensures told { SourceTakes most (source_told self.old) (source_told self.new) result }
        ensures listed { result ≡ Err IoFail.Failed → IsTrue (fails_next self.old.calls) }
        ensures only { IsTrue (fails_next self.old.calls) → result ≡ Err IoFail.Failed }
        ensures piece { IfOk result (λ piece. piece ≡ take most self.old.left) }
        ensures calls { self.new.calls ≡ after_call self.old.calls }
    {
        if self.calls.come() {
            return Err(IoFail::Failed);
        }
        let piece = first_bytes(alloc, rest_of(&self.bytes, self.at), most)?;
        self.at += piece.len();
        Ok(piece)
    }
}
