//! The program: it hands its words, the host's files, clock and streams, and a warehouse to the top call of
//! `mesh_cli::cli`, and ends with the status that the call answers. The warehouse is in memory where the words say
//! `:memory:`, are no command line or stand on the project alone, and else in a file of SQLite. Where that file can't
//! be opened, all that is printed is `warehouse fault`, and the status is 3; where memory is out here, it is `want of
//! memory`, and 4. What lies here is trusted, not proved: which house is made.
#![tactic(auto)]

use mesh_base_values::Str;
use mesh_cli_words::{host_words, warehouse_file};
use mesh_house::{MemHouse, Warehouse};
use mesh_io::{DirFolder, StdSink, StdSource, SystemClock};
use mesh_keep::KeepFail;
use mesh_sqlite::{close, opened};
use std::process::ExitCode;
use std::thread::Threads;

/// The warehouse can't be had, for want of memory or for another cause.
fn without(rt: &HostRuntime, fail: KeepFail) -> ExitCode {
    match fail {
        KeepFail::Memory => {
            let _ = eprintln!(rt; "want of memory");
            ExitCode::from(4)
        }
        KeepFail::Failed => {
            let _ = eprintln!(rt; "warehouse fault");
            ExitCode::from(3)
        }
    }
}

/// The top call over this warehouse and these workers, and the host's files, clock and streams.
fn served<R: Threads + Sync, W: Warehouse>(
    rt: &HostRuntime,
    workers: &R,
    words: &[Str],
    house: &mut W,
) -> ExitCode {
    let mut folder = DirFolder::new(rt);
    let mut clock = SystemClock::new(rt);
    let mut input = StdSource::new(rt);
    let mut out = StdSink::output(rt);
    let mut err = StdSink::errors(rt);
    let status = mesh_cli::cli::mesh(
        workers,
        rt.alloc(),
        words,
        &mut folder,
        house,
        &mut clock,
        &mut input,
        &mut out,
        &mut err,
    );
    ExitCode::from(status)
}

fn main(rt: HostRuntime) -> ExitCode {
    let Ok(words) = host_words(&rt) else {
        return without(&rt, KeepFail::Memory);
    };
    let Ok(file) = warehouse_file(rt.alloc(), words.as_slice()) else {
        return without(&rt, KeepFail::Memory);
    };
    let Some(file) = file else {
        let mut house = MemHouse::new(rt.alloc());
        return served(&rt, &rt, words.as_slice(), &mut house);
    };
    match opened(&rt, file.as_slice()) {
        Err(fail) => without(&rt, fail),
        Ok(house) => {
            let mut house = house;
            let status = served(&rt, &rt, words.as_slice(), &mut house);
            close(house);
            status
        }
    }
}
