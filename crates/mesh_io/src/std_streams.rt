// The streams of the program: its input as a source, and its output and its errors as sinks.
ghost use Rattle.std.specs.Prelude.{None, ◌≡◌, ◌≤◌, length, IfOk};
ghost use Rattle.mesh_io.specs.Told.{SourceTold, SinkTold};

use crate::fails::IoFail;
use crate::outside::{Sink, Source};
use crate::refused::refused;
use mesh_base_values::Str;
use mesh_list::Seq;
use std::alloc::Global;
use std::io;
use std::io::{ErrorKind, Read, Write};
use std::marker::Model;

/// The standard input. It tells nothing of its bytes. Contracts see it as the count of its faults.
pub struct StdSource<'a> {
    rt: &'a HostRuntime,
    faults: u64,
}

impl Drop for StdSource<'_> {
    fn drop(self) {
        let StdSource { rt: _, faults: _ } = self;
    }
}

impl<'a> Model for StdSource<'a> {
    ghost use Rattle.std.specs.Prelude.{ℕ};

    ghost Value = { ℕ };

    ghost view = { λ a. a.faults };
}

impl<'a> StdSource<'a> {
    /// The program's input, with no fault yet.
    pub fn new(rt: &'a HostRuntime) -> StdSource<'a>
        ensures { result ≡ 0 }
    {
        StdSource { rt, faults: 0 }
    }
}

/// The next bytes of the input, as many as are asked for or all that are left.
fn next_bytes(rt: &HostRuntime, alloc: Global, most: u64) -> io::Result<Str>
    ensures { IfOk result (λ piece. length piece ≤ most) }
{
    let mut bytes = Vec::new(alloc);
    rt.stdin().take(most).read_to_end(&mut bytes)?;
    if bytes.len() as u64 > most {
        return Err(io::Error::from(ErrorKind::InvalidData));
    }
    Ok(Seq::from_vec(bytes))
}

impl Source for StdSource<'_> {
    ghost told = { λ faults. record { left = None; faults = faults } };

    fn faults(&self) -> u64 {
        self.faults
    }

    fn take(&mut self, alloc: Global, most: u64) -> Result<Str, IoFail> {
        match next_bytes(self.rt, alloc, most) {
            Ok(piece) => Ok(piece),
            Err(error) => Err(refused(&mut self.faults, error.kind())),
        }
    }
}

/// Which of the two streams a sink writes to.
#[derive(Clone, Copy, PartialEq, Eq)]
enum Stream {
    Output,
    Errors,
}

/// The standard output, or the standard errors. It tells nothing of what was written. Contracts see it as
/// the count of its faults.
pub struct StdSink<'a> {
    rt: &'a HostRuntime,
    stream: Stream,
    faults: u64,
}

impl Drop for StdSink<'_> {
    fn drop(self) {
        let StdSink {
            rt: _,
            stream: _,
            faults: _,
        } = self;
    }
}

impl<'a> Model for StdSink<'a> {
    ghost use Rattle.std.specs.Prelude.{ℕ};

    ghost Value = { ℕ };

    ghost view = { λ a. a.faults };
}

impl<'a> StdSink<'a> {
    /// The program's output, with no fault yet.
    pub fn output(rt: &'a HostRuntime) -> StdSink<'a>
        ensures { result ≡ 0 }
    {
        StdSink {
            rt,
            stream: Stream::Output,
            faults: 0,
        }
    }

    /// The program's errors, with no fault yet.
    pub fn errors(rt: &'a HostRuntime) -> StdSink<'a>
        ensures { result ≡ 0 }
    {
        StdSink {
            rt,
            stream: Stream::Errors,
            faults: 0,
        }
    }
}

fn write_piece(rt: &HostRuntime, stream: Stream, piece: &[u8]) -> io::Result<()> {
    match stream {
        Stream::Output => rt.stdout().write_all(piece),
        Stream::Errors => rt.stderr().write_all(piece),
    }
}

impl Sink for StdSink<'_> {
    ghost told = { λ faults. record { written = None; faults = faults } };

    fn faults(&self) -> u64 {
        self.faults
    }

    fn put(&mut self, piece: &[u8]) -> Result<(), IoFail> {
        match write_piece(self.rt, self.stream, piece) {
            Ok(()) => Ok(()),
            Err(error) => Err(refused(&mut self.faults, error.kind())),
        }
    }
}
