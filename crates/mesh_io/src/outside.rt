// What lies outside, as the program sees it.
ghost use Rattle.std.specs.Prelude.{◌≡◌, ◌<◌, take};
ghost use Rattle.std.specs.Option.{option_map};
ghost use Rattle.mesh_io.specs.Files.{bytes_at, listing};
ghost use Rattle.mesh_io.specs.Told.{FolderTold, FolderAnswers, ClockTold, ClockAnswers, SourceTold, SourceTakes, SinkTold, SinkPuts};

use crate::fails::IoFail;
use mesh_base_values::{Str, Strs};
use std::alloc::Global;

/// A folder of files, which a program only reads.
pub trait Folder {
    /// Its files, where it tells them, and the count of its faults.
    ghost told: { Self → FolderTold };

    /// How many faults there were.
    fn faults(&self) -> u64
        ensures { result ≡ (told self.now).faults };

    /// The paths of the files below `dir`, relative to it, in ascending order of their bytes, and none where there is
    /// no such folder.
    fn list(&mut self, alloc: Global, dir: &Str) -> Result<Strs, IoFail>
        ensures { FolderAnswers (λ files. listing dir.now files) (told self.old) (told self.new) result };

    /// The first `most` bytes of the file, and `None` where there is no such file.
    fn read(&mut self, alloc: Global, path: &Str, most: u64) -> Result<Option<Str>, IoFail>
        ensures { FolderAnswers (λ files. option_map (take most) (bytes_at path.now files))
            (told self.old) (told self.new) result };
}

/// A clock.
pub trait Clock {
    /// The moment that it stands at, where it tells it, and the count of its faults.
    ghost told: { Self → ClockTold };

    /// How many faults there were.
    fn faults(&self) -> u64
        ensures { result ≡ (told self.now).faults };

    /// The moment, in seconds since 1970-01-01T00:00:00 UTC.
    fn now(&mut self) -> Result<i64, IoFail>
        ensures { ClockAnswers (told self.old) (told self.new) result };
}

/// A source of bytes.
pub trait Source {
    /// The bytes that it has left, where it tells them, and the count of its faults.
    ghost told: { Self → SourceTold };

    /// How many faults there were.
    fn faults(&self) -> u64
        ensures { result ≡ (told self.now).faults };

    /// Moves out at least one byte and at most `most`, and none exactly at the end.
    fn take(&mut self, alloc: Global, most: u64) -> Result<Str, IoFail>
        requires { 0 < most }
        ensures { SourceTakes most (told self.old) (told self.new) result };
}

/// A sink of bytes.
pub trait Sink {
    /// The bytes written, where it tells them, and the count of its faults.
    ghost told: { Self → SinkTold };

    /// How many faults there were.
    fn faults(&self) -> u64
        ensures { result ≡ (told self.now).faults };

    /// Writes the piece. A refused call has written none, some or all of it, from its first byte on.
    fn put(&mut self, piece: &[u8]) -> Result<(), IoFail>
        ensures { SinkPuts piece.now (told self.old) (told self.new) result };
}
