//! A program that embeds the library. It has a project of two models as texts, applies it to a warehouse in memory,
//! and reads the rows behind a view as values, not as a CSV text. `docs/CALLS.md` goes through it. What it prints is
//! compared with `stdout`.
#![tactic(auto)]

use mesh_base_values::{Cell, Name, Row, Str};
use mesh_cli_apply::apply;
use mesh_cli_print::faults::{put, put_number};
use mesh_cli_print::printed::{Refusal, refusal_line};
use mesh_house::{MemHouse, Warehouse};
use mesh_io::{File, MemFolder, Sink, StdSink};
use mesh_layer::{ShowFault, show};
use mesh_list::{Duplicate, Memory, Seq};
use std::alloc::Global;
use std::process::ExitCode;
use std::thread::Threads;

/// 2024-01-03T00:30, in seconds since 1970-01-01.
const MOMENT: i64 = 1_704_241_800;

const STOCK: &[u8] = b"MODEL (name parts.stock, kind SEED (path '../seeds/stock.csv'));\n";

const ROWS: &[u8] = b"part,size,pieces\nbolt,8,40\nnut,8,25\nscrew,4,60\n";

const BY_SIZE: &[u8] =
    b"MODEL (name parts.by_size, kind FULL);\nSELECT size, SUM(pieces) AS pieces FROM parts.stock GROUP BY size\n";

fn text(alloc: Global, bytes: &[u8]) -> Result<Str, Memory> {
    u8::copy_items(alloc, bytes)
}

fn put_file(
    alloc: Global,
    folder: &mut MemFolder,
    path: &[u8],
    bytes: &[u8],
) -> Result<(), Memory> {
    let path = text(alloc, path)?;
    let bytes = text(alloc, bytes)?;
    folder.write(File { path, bytes })
}

/// The project, as a folder in memory: paths as they would be in a folder of the host, and what each file holds.
fn project(alloc: Global) -> Result<MemFolder, Memory> {
    let mut folder = MemFolder::new(Seq::new(alloc), Seq::new(alloc));
    put_file(alloc, &mut folder, b"models/by_size.sql", BY_SIZE)?;
    put_file(alloc, &mut folder, b"models/stock.sql", STOCK)?;
    put_file(alloc, &mut folder, b"seeds/stock.csv", ROWS)?;
    Ok(folder)
}

fn put_cell(out: &mut Vec<u8>, cell: &Cell) -> Result<(), Memory> {
    match cell {
        Cell::Int(number) => {
            let digits = number.unsigned_abs();
            if *number < 0 {
                put(out, b"-")?;
            }
            put_number(out, digits)
        }
        Cell::Text(text) => put(out, text.as_slice()),
        Cell::Bool(truth) => put(out, if *truth { b"yes" } else { b"no" }),
        Cell::Date(_) | Cell::Null => put(out, b"-"),
    }
}

fn put_rows(out: &mut Vec<u8>, rows: &[Row]) -> Result<(), Memory> {
    for row in rows {
        for cell in row.as_slice() {
            put(out, b" ")?;
            put_cell(out, cell)?;
        }
        put(out, b"\n")?;
    }
    Ok(())
}

/// The rows behind the view of a model in production.
fn put_view<W: Warehouse>(
    alloc: Global,
    house: &mut W,
    view: &Name,
    out: &mut Vec<u8>,
) -> Result<(), Refusal> {
    match show(alloc, house, view) {
        Ok(Some(rows)) => {
            put_rows(out, rows.as_slice())?;
            Ok(())
        }
        Ok(None) => {
            put(out, b"no such view\n")?;
            Ok(())
        }
        Err(ShowFault::Dangling { object }) => Err(Refusal::ObjectMissing { object }),
        Err(ShowFault::Warehouse) => Err(Refusal::Warehouse),
        Err(ShowFault::Memory) => Err(Refusal::Memory),
    }
}

/// Applies the project to production, and shows what one of its views has then.
fn applied<R: Threads + Sync>(rt: &R, alloc: Global, out: &mut Vec<u8>) -> Result<(), Refusal> {
    let mut folder = project(alloc)?;
    let mut house = MemHouse::new(alloc);
    let dir = text(alloc, b".")?;
    let env = text(alloc, b"prod")?;
    let answer = apply(
        rt,
        alloc,
        &mut folder,
        &mut house,
        &dir,
        &env,
        MOMENT,
        None,
        2,
    )?;
    put(out, answer.as_slice())?;
    let schema = text(alloc, b"parts")?;
    let model = text(alloc, b"by_size")?;
    put_view(alloc, &mut house, &Name { schema, model }, out)
}

/// What is printed, and whether the project was applied.
fn report<R: Threads + Sync>(rt: &R, alloc: Global, out: &mut Vec<u8>) -> Result<bool, Memory> {
    match applied(rt, alloc, out) {
        Ok(()) => Ok(true),
        Err(refusal) => {
            let line = refusal_line(alloc, &refusal)?;
            put(out, line.as_slice())?;
            Ok(false)
        }
    }
}

fn main(rt: HostRuntime) -> ExitCode {
    let mut out = Vec::new(rt.alloc());
    let done = report(&rt, rt.alloc(), &mut out);
    let is_printed = StdSink::output(&rt).put(out.as_slice()).is_ok();
    match done {
        Ok(true) if is_printed => ExitCode::SUCCESS,
        _ => ExitCode::FAILURE,
    }
}
