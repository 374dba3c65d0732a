// Command lines.
ghost use Rattle.std.specs.Prelude.{◌≡◌};
ghost use Rattle.mesh_cli_words.specs.declared.line.UsageFault.TheVariants as fault;

use mesh_base::Restate;
use mesh_base_values::{Name, Str};
use mesh_list::Memory;

/// A command, with what its words ask for. A moment is in seconds since 1970-01-01, a day in days since then; where no
/// moment is given, the clock is asked.
pub enum Command {
    Plan {
        env: Str,
        auto_apply: bool,
        workers: u32,
        moment: Option<i64>,
        again: Option<Restate>,
    },
    Apply {
        env: Str,
        workers: u32,
        moment: Option<i64>,
        again: Option<Restate>,
    },
    Run {
        env: Str,
        workers: u32,
        moment: Option<i64>,
    },
    /// The model's rows for the days from the first to the last.
    Evaluate {
        model: Name,
        env: Str,
        first: i32,
        last: i32,
    },
    Fetchdf {
        query: Str,
        env: Str,
    },
    Ingest {
        name: Name,
        file: Str,
        append: bool,
    },
    Janitor {
        moment: Option<i64>,
    },
    Invalidate {
        env: Str,
    },
    Migrate,
    /// What a column of a model hangs on.
    Trace {
        model: Name,
        column: Str,
    },
    /// What hangs on a column of a model or a source.
    Impact {
        name: Name,
        column: Str,
    },
    Batch,
    /// The shop project with so many records, made and run in memory.
    Demo {
        n: u32,
        workers: u32,
    },
}

impl Drop for Command {
    fn drop(self) {
        match self {
            Command::Plan {
                env: _,
                auto_apply: _,
                workers: _,
                moment: _,
                again: _,
            }
            | Command::Apply {
                env: _,
                workers: _,
                moment: _,
                again: _,
            }
            | Command::Run {
                env: _,
                workers: _,
                moment: _,
            }
            | Command::Evaluate {
                model: _,
                env: _,
                first: _,
                last: _,
            }
            | Command::Fetchdf { query: _, env: _ }
            | Command::Ingest {
                name: _,
                file: _,
                append: _,
            }
            | Command::Janitor { moment: _ }
            | Command::Invalidate { env: _ }
            | Command::Migrate
            | Command::Trace {
                model: _,
                column: _,
            }
            | Command::Impact { name: _, column: _ }
            | Command::Batch
            | Command::Demo { n: _, workers: _ } => {}
        }
    }
}

/// A whole command line: the folder of the project, the file of the warehouse, and the command.
pub struct Line {
    pub paths: Option<Str>,
    pub warehouse: Option<Str>,
    pub command: Command,
}

impl Drop for Line {
    fn drop(self) {
        let Line {
            paths: _,
            warehouse: _,
            command: _,
        } = self;
    }
}

/// The words are no command line, or memory ran out.
#[derive(Clone, Copy, PartialEq, Eq)]
pub enum UsageFault {
    Usage,
    Memory,
}

impl From<Memory> for UsageFault {
    ghost from_gives = { λ _ e. e ≡ fault.Memory };

    fn from(_: Memory) -> Self {
        UsageFault::Memory
    }
}
