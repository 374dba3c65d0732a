// `migrate`.
ghost use Rattle.std.specs.Prelude.{◌≡◌, ◌⊎◌, true, false, nat_eq, None, IfOk, IfErr};
ghost use Rattle.mesh_house_book.specs.WellFormed.{is_well_formed_book};
ghost use Rattle.mesh_janitor.specs.migrate.Migration.{IsMap, first_twins};
ghost use Rattle.mesh_cli_print.specs.printed.Reports.{migrated_line};
ghost use Rattle.mesh_cli_print.specs.declared.printed.refusals.Refusal.TheVariants.{Memory as NoMemory};
ghost use Rattle.mesh_cli_answer.specs.Answers.{Answers};
ghost use Rattle.mesh_cli_apply.specs.Made.{HasBook};
ghost use Rattle.mesh_cli_apply.specs.Migrating.{MigrateGives, MigrateMakes, Moves, of_migration};

use crate::faults::of_model;
use mesh_base::Renames;
use mesh_base_values::Str;
use mesh_cli_answer::as_refusal;
use mesh_cli_print::printed::{Refusal, migrated_line};
use mesh_house::{Change, Warehouse, make};
use mesh_house_book::{Book, book_fault};
use mesh_janitor::migrate::{MigrationFault, book_renames};
use mesh_query_tokens::FaultKind;
use std::alloc::Global;

/// The version of a book before its definitions had a lookback.
const FORMER_VERSION: u32 = 1;

/// Why a book isn't moved.
fn of_migration(alloc: Global, fault: MigrationFault) -> Refusal
    ensures { (result ≡ NoMemory) ⊎ (result ≡ of_migration fault) }
{
    match fault {
        MigrationFault::Twins {
            name,
            stored,
            given,
        } => of_model(alloc, &name, FaultKind::FingerprintClash { stored, given }),
        MigrationFault::Memory => Refusal::Memory,
    }
}

fn line_of(alloc: Global, number: u64) -> Result<Str, Refusal>
    ensures ok { IfOk result (λ line. line ≡ migrated_line number) }
    ensures err { IfErr result (λ r. r ≡ NoMemory) }
{
    match migrated_line(alloc, number) {
        Ok(line) => Ok(line),
        Err(_) => Err(Refusal::Memory),
    }
}

/// The one change, and then the line.
fn moved<W: Warehouse>(
    alloc: Global,
    house: &mut W,
    renames: Renames,
    line: Str,
) -> Result<Str, Refusal>
    ensures { Moves renames line (W.told house.old) (W.told house.new) result }
{
    let change = Change::Migrate { map: renames };
    let done = make(house, alloc, &change);
    drop(change);
    match done {
        Ok(()) => Ok(line),
        Err(fail) => Err(as_refusal(fail)),
    }
}

/// The same with the line of these renames, which is made first.
fn move_by<W: Warehouse>(
    alloc: Global,
    house: &mut W,
    b: &Book,
    renames: Renames,
) -> Result<Str, Refusal>
    requires well_formed { is_well_formed_book b.now ≡ true }
    requires former { nat_eq b.now.version 1 ≡ true }
    requires map { IsMap b.now renames }
    requires apart { first_twins renames ≡ None }
    requires has { HasBook b.now (W.told house.old) }
    ensures { Answers ⊥ MigrateMakes MigrateGives (W.told house.old) (W.told house.new) result }
{
    match line_of(alloc, b.snapshots.as_slice().len() as u64) {
        Err(refusal) => Err(refusal),
        Ok(line) => moved(alloc, house, renames, line),
    }
}

/// A book of the former version is moved.
fn move_book<W: Warehouse>(alloc: Global, house: &mut W, b: &Book) -> Result<Str, Refusal>
    requires well_formed { is_well_formed_book b.now ≡ true }
    requires former { nat_eq b.now.version 1 ≡ true }
    requires has { HasBook b.now (W.told house.old) }
    ensures { Answers ⊥ MigrateMakes MigrateGives (W.told house.old) (W.told house.new) result }
{
    match book_renames(alloc, b) {
        Err(fault) => Err(of_migration(alloc, fault)),
        Ok(renames) => move_by(alloc, house, b, renames),
    }
}

/// A book that breaks no rule is moved, where it is of the former version.
fn migrate_sound<W: Warehouse>(alloc: Global, house: &mut W, b: &Book) -> Result<Str, Refusal>
    requires well_formed { is_well_formed_book b.now ≡ true }
    requires has { HasBook b.now (W.told house.old) }
    ensures { Answers ⊥ MigrateMakes MigrateGives (W.told house.old) (W.told house.new) result }
{
    if b.version == FORMER_VERSION {
        move_book(alloc, house, b)
    } else {
        line_of(alloc, 0)
    }
}

fn migrate_by<W: Warehouse>(alloc: Global, house: &mut W, b: &Book) -> Result<Str, Refusal>
    requires has { HasBook b.now (W.told house.old) }
    ensures { Answers ⊥ MigrateMakes MigrateGives (W.told house.old) (W.told house.new) result }
{
    match book_fault(b) {
        Some(fault) => Err(Refusal::BookBroken {
            part: fault.part,
            place: fault.place,
        }),
        None => migrate_sound(alloc, house, b),
    }
}

/// `migrate`: a book of the former version is moved to the present one, and the answer is the line with the number of
/// its snapshots. One of the present version is left alone.
pub fn migrate<W: Warehouse>(alloc: Global, house: &mut W) -> Result<Str, Refusal>
    ensures { Answers ⊥ MigrateMakes MigrateGives (W.told house.old) (W.told house.new) result }
{
    match house.book(alloc) {
        Err(fail) => Err(as_refusal(fail)),
        Ok(b) => migrate_by(alloc, house, &b),
    }
}
