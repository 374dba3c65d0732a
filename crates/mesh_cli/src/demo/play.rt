// The commands of a demonstration, one after another: each one's line stands in front of what comes of the next ones.
// A refusal ends the text with its line.
ghost use Rattle.std.specs.Prelude.{◌≡◌, ◌≤◌, true, false, IfOk};
ghost use Rattle.mesh_house.specs.Memory.{memory_world};
ghost use Rattle.mesh_house.specs.Sources.{are_plain};
ghost use Rattle.mesh_io.specs.Held.{folder_told};
ghost use Rattle.mesh_cli_answer.specs.Answers.{is_fault};
ghost use Rattle.mesh_cli_print.specs.printed.Refusals.{refusal_line};
ghost use Rattle.mesh_cli.specs.demo.Demos.{Counted, DevApplied, DevRan, Loaded, ProdApplied, ProdRan};
ghost use Rattle.mesh_cli.specs.demo.Shop.{edited};
ghost use Rattle.std.specs.Option.{option_map};

use crate::demo::lines::{totals_text, with_units};
use crate::demo::shop::{text, twice_file};
use mesh_base_values::{Name, Str};
use mesh_cli_apply::{apply, run};
use mesh_cli_look::upkeep::ingest;
use mesh_cli_print::printed::{Refusal, refusal_line};
use mesh_house::MemHouse;
use mesh_io::MemFolder;
use mesh_layer::{ShowFault, show};
use mesh_list::Memory;
use std::alloc::Global;
use std::thread::Threads;

/// 2024-01-08T00:30.
const EARLY: i64 = 1_704_673_800;

/// 2024-01-11T00:30.
const LATE: i64 = 1_704_933_000;

fn name(alloc: Global, schema: &[u8], model: &[u8]) -> Result<Name, Memory>
    ensures { IfOk result (λ made. made ≡ record { schema = schema.now; model = model.now }) }
{
    let schema = text(alloc, schema)?;
    let model = text(alloc, model)?;
    Ok(Name { schema, model })
}

/// The sources of a house have names that sources may have, as their type has it.
fn look(house: &MemHouse)
    ensures { are_plain (memory_world house.now).sources ≡ true }
{
    let _sources = house.sources().as_slice();
}

/// Whether the warehouse or the outside failed, which they don't in memory, or memory was wanting.
fn is_fault(refusal: &Refusal) -> bool
    ensures { result ≡ is_fault refusal.now }
{
    match refusal {
        Refusal::Warehouse | Refusal::Memory | Refusal::Input => true,
        _ => false,
    }
}

/// The end of the text where a command is refused: the line of the refusal.
fn ended(alloc: Global, refusal: &Refusal) -> Result<Str, Memory>
    ensures { IfOk result (λ text. (is_fault refusal.now ≡ false) × (text ≡ refusal_line refusal.now)) }
{
    if is_fault(refusal) {
        return Err(Memory);
    }
    refusal_line(alloc, refusal)
}

/// The rows of `shop.totals` in production, as they are counted.
fn counted(alloc: Global, house: &mut MemHouse) -> Result<Str, Memory>
    ensures { IfOk result (Counted (memory_world house.old)) }
{
    look(house);
    let view = name(alloc, b"shop", b"totals")?;
    match show(alloc, house, &view) {
        Ok(Some(rows)) => totals_text(alloc, rows.as_slice()),
        Ok(None) => ended(alloc, &Refusal::ObjectMissing { object: view }),
        Err(ShowFault::Dangling { object }) => ended(alloc, &Refusal::ObjectMissing { object }),
        Err(_) => Err(Memory),
    }
}

fn dev_ran<R: Threads + Sync>(
    rt: &R,
    alloc: Global,
    workers: u32,
    house: &mut MemHouse,
) -> Result<Str, Memory>
    requires workers { (1 ≤ workers) × (workers ≤ 64) }
    ensures { IfOk result (DevRan (memory_world house.old)) }
{
    look(house);
    let env = text(alloc, b"dev")?;
    match run(rt, alloc, house, &env, LATE, workers) {
        Err(refusal) => ended(alloc, &refusal),
        Ok(answer) => {
            let rest = counted(alloc, house);
            with_units(alloc, b"run dev: ", &answer, rest)
        }
    }
}

fn prod_ran<R: Threads + Sync>(
    rt: &R,
    alloc: Global,
    workers: u32,
    house: &mut MemHouse,
) -> Result<Str, Memory>
    requires workers { (1 ≤ workers) × (workers ≤ 64) }
    ensures { IfOk result (ProdRan (memory_world house.old)) }
{
    look(house);
    let env = text(alloc, b"prod")?;
    match run(rt, alloc, house, &env, LATE, workers) {
        Err(refusal) => ended(alloc, &refusal),
        Ok(answer) => {
            let rest = dev_ran(rt, alloc, workers, house);
            with_units(alloc, b"run prod: ", &answer, rest)
        }
    }
}

fn dev_applied<R: Threads + Sync>(
    rt: &R,
    alloc: Global,
    workers: u32,
    folder: &mut MemFolder,
    house: &mut MemHouse,
) -> Result<Str, Memory>
    requires workers { (1 ≤ workers) × (workers ≤ 64) }
    ensures { IfOk result (DevApplied (folder_told folder.old).files (memory_world house.old)) }
{
    look(house);
    let dir = text(alloc, b".")?;
    let env = text(alloc, b"dev")?;
    match apply(rt, alloc, folder, house, &dir, &env, EARLY, None, workers) {
        Err(refusal) => ended(alloc, &refusal),
        Ok(answer) => {
            let rest = prod_ran(rt, alloc, workers, house);
            with_units(alloc, b"apply dev: ", &answer, rest)
        }
    }
}

/// The model is edited, and the development environment is made of it.
fn edited<R: Threads + Sync>(
    rt: &R,
    alloc: Global,
    workers: u32,
    folder: &mut MemFolder,
    house: &mut MemHouse,
) -> Result<Str, Memory>
    requires workers { (1 ≤ workers) × (workers ≤ 64) }
    ensures { IfOk result (DevApplied (option_map edited (folder_told folder.old).files) (memory_world house.old)) }
{
    folder.write(twice_file(alloc)?)?;
    dev_applied(rt, alloc, workers, folder, house)
}

fn prod_applied<R: Threads + Sync>(
    rt: &R,
    alloc: Global,
    workers: u32,
    folder: &mut MemFolder,
    house: &mut MemHouse,
) -> Result<Str, Memory>
    requires workers { (1 ≤ workers) × (workers ≤ 64) }
    ensures { IfOk result (ProdApplied (folder_told folder.old).files (memory_world house.old)) }
{
    look(house);
    let dir = text(alloc, b".")?;
    let env = text(alloc, b"prod")?;
    match apply(rt, alloc, folder, house, &dir, &env, EARLY, None, workers) {
        Err(refusal) => ended(alloc, &refusal),
        Ok(answer) => {
            let rest = edited(rt, alloc, workers, folder, house);
            with_units(alloc, b"apply prod: ", &answer, rest)
        }
    }
}

/// The orders are loaded, which prints nothing.
pub(crate) fn loaded<R: Threads + Sync>(
    rt: &R,
    alloc: Global,
    workers: u32,
    folder: &mut MemFolder,
    house: &mut MemHouse,
) -> Result<Str, Memory>
    requires workers { (1 ≤ workers) × (workers ≤ 64) }
    ensures { IfOk result (Loaded (folder_told folder.old).files (memory_world house.old)) }
{
    look(house);
    let dir = text(alloc, b".")?;
    let source = name(alloc, b"raw", b"orders")?;
    let file = text(alloc, b"orders.csv")?;
    match ingest(alloc, folder, house, &dir, &source, &file, false) {
        Err(refusal) => ended(alloc, &refusal),
        Ok(_) => prod_applied(rt, alloc, workers, folder, house),
    }
}
