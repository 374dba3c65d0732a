// The rows of an environment's model, evaluated for some days.
ghost use Rattle.std.specs.Prelude.{◌≡◌, ◌⊎◌, ℕ, List, Ok, Err, IfOk, IsTrue, Some, map};
ghost use Rattle.std.specs.Option.{option_copied};
ghost use Rattle.std.specs.Ordering.{is_eq};
ghost use Rattle.mesh_base_values.specs.Names.{name_cmp};
ghost use Rattle.mesh_cli_print.specs.faults.Lines.{name_text};
ghost use Rattle.mesh_base.specs.Keys.{ref_name};
ghost use Rattle.mesh_base.specs.Outputs.{columns_of};
ghost use Rattle.mesh_spec_model.specs.Scratch.{defn_rows};
ghost use Rattle.mesh_house.specs.Sources.{are_plain};
ghost use Rattle.mesh_layer.specs.Shows.{Finds, Shows};
ghost use Rattle.mesh_spec_changes.specs.Changes.{ascending};
ghost use Rattle.mesh_exec.specs.Sources.{kind_of, model_breach};
ghost use Rattle.mesh_cli_print.specs.printed.Records.{rows_text};
ghost use Rattle.mesh_cli_print.specs.declared.printed.refusals.Refusal.TheVariants.{Memory as NoMemory, Model as Fault};
ghost use Rattle.mesh_cli_look.specs.asking.Looks.{Gives, Looks, printed};
ghost use Rattle.mesh_cli_look.specs.asking.Evaluated.{days, evaluated, found_rows, lacks, listed, lost_behind, model_text, rows_for, snapshot_of, tables_behind, unknown};

use crate::asking::books::{book_of, list_of};
use crate::asking::printed::{of_show, text_of};
use mesh_base::{Defn, Input, Inputs, Own, Ref, Snapshot};
use mesh_base_columns::columns_of;
use mesh_base_values::{Bounds, Kind, Name, Names, Rows, Str};
use mesh_cli_print::faults::name_text;
use mesh_cli_print::printed::Refusal;
use mesh_eval::exact_rows;
use mesh_exec::{Breach, kind_of, model_breach};
use mesh_exec_wave::wave::rows_within;
use mesh_house::Warehouse;
use mesh_house_book::Book;
use mesh_layer::{ShowFault, source_tables, view_tables};
use mesh_list::{Duplicate, Memory, Seq};
use mesh_query_tokens::FaultKind;
use std::alloc::Global;

/// The seconds from the first of a day up to the last of another one.
fn days(first: i32, last: i32) -> Bounds
    ensures { result ≡ days first last }
{
    Bounds {
        start: i64::from(first) * 86_400,
        end: (i64::from(last) + 1) * 86_400,
    }
}

fn is_named(r: &Ref, name: &Name) -> bool
    ensures { result ≡ is_eq (name_cmp r.now.name name.now) }
{
    r.name.compare(name).is_eq()
}

/// The model of that name in a list.
fn listed<'a>(list: &'a [Ref], name: &Name) -> Option<&'a Ref>
    ensures { option_copied result ≡ listed list.now name.now }
{
    list.iter().find(|r| is_named(r, name))
}

fn snapshot_of<'a>(b: &'a Book, list: &[Ref], name: &Name) -> Option<&'a Snapshot>
    ensures { option_copied result ≡ snapshot_of b.now.snapshots list.now name.now }
{
    match listed(list, name) {
        None => None,
        Some(r) => b.snapshots.find(r),
    }
}

fn no_model(alloc: Global, name: &Name) -> Result<Refusal, Memory>
    ensures { IfOk result (λ r. r ≡ unknown name.now) }
{
    let file = u8::copy_items(alloc, b"-")?;
    let name = name_text(alloc, name)?;
    Ok(Refusal::Model {
        file,
        at: 0,
        kind: FaultKind::UnknownRelation { name },
    })
}

// The words name no model of the environment.
fn unknown(alloc: Global, name: &Name) -> Refusal
    ensures { Gives {T = List ℕ} (Err result) (Err (unknown name.now)) }
{
    match no_model(alloc, name) {
        Ok(refusal) => refusal,
        Err(_) => Refusal::Memory,
    }
}

// What the model lacks is told with its name in the place of a file's.
fn lacking(alloc: Global, model: &Name, b: Breach) -> Refusal
    ensures { (result ≡ NoMemory) ⊎ (result ≡ Fault (name_text model.now) 0 (kind_of b)) }
{
    match name_text(alloc, model) {
        Ok(file) => Refusal::Model {
            file,
            at: 0,
            kind: kind_of(b),
        },
        Err(_) => Refusal::Memory,
    }
}

/// Whether the declared sources of a model are there with what it declares of them.
fn sources_there<W: Warehouse>(
    alloc: Global,
    house: &mut W,
    model: &Name,
    own: &Own,
) -> Result<(), Refusal>
    ensures { Looks (λ w. lacks model.now (model_breach w.sources own.now.sources)) (W.told house.old) (W.told house.new) result }
{
    match model_breach(alloc, house, own.sources.as_slice()) {
        Err(fault) => Err(of_show(fault)),
        Ok(None) => Ok(()),
        Ok(Some(b)) => Err(lacking(alloc, model, b)),
    }
}

fn names_of(alloc: Global, refs: &[Ref]) -> Result<Names, Memory>
    ensures { IfOk result (λ names. names ≡ map ref_name refs.now) }
{
    let mut names = Seq::new(alloc);
    for r in refs {
        names.push(r.name.copy()?)?;
    }
    Ok(names)
}

/// The tables that a model reads: its sources, and its parents as their views in the environment show them.
fn tables_behind<W: Warehouse>(
    alloc: Global,
    house: &mut W,
    env: &Str,
    s: &Snapshot,
) -> Result<Inputs, ShowFault>
    ensures { Finds (λ w. IsTrue (are_plain w.sources))
        (λ w tables. tables_behind env.now s.now w ≡ Some tables)
        (λ w. lost_behind env.now s.now w) (W.told house.old) (W.told house.new) result }
{
    let models = names_of(alloc, s.parents.as_slice())?;
    let mut read = source_tables(alloc, house, s.own.sources.as_slice())?;
    let tables = view_tables(alloc, house, env, models.as_slice())?;
    read.append(tables)?;
    Ok(read)
}

fn defn_rows(alloc: Global, defn: &Defn, inputs: &[Input], u: Bounds) -> Result<Rows, Memory>
    ensures { IfOk result (λ rows. rows ≡ defn_rows defn.now inputs.now u) }
{
    match defn {
        Defn::Seed { rows, .. } => rows.copy(),
        Defn::Sql(q) => exact_rows(alloc, q, inputs, u),
    }
}

// The rows for some seconds: of an incremental model those that lie in them, and all of another one.
fn rows_for(alloc: Global, own: &Own, inputs: &[Input], u: Bounds) -> Result<Rows, Memory>
    ensures { IfOk result (λ rows. rows ≡ rows_for own.now u inputs.now) }
{
    match &own.kind {
        Kind::Incremental { time, .. } => {
            let columns = columns_of(own)?;
            let rows = defn_rows(alloc, &own.defn, inputs, u)?;
            rows_within(alloc, rows.as_slice(), columns.as_slice(), time, u)
        }
        Kind::Full | Kind::View | Kind::Seed => {
            defn_rows(alloc, &own.defn, inputs, Bounds { start: 0, end: 0 })
        }
    }
}

/// The rows of a model for some seconds, over the tables that it reads.
fn found_rows<W: Warehouse>(
    alloc: Global,
    house: &mut W,
    env: &Str,
    s: &Snapshot,
    u: Bounds,
) -> Result<Rows, ShowFault>
    ensures { Shows (found_rows env.now s.now u) (lost_behind env.now s.now) (W.told house.old) (W.told house.new) result }
{
    let tables = tables_behind(alloc, house, env, s)?;
    let rows = rows_for(alloc, &s.own, tables.as_slice(), u)?;
    Ok(rows)
}

fn own_text(alloc: Global, own: &Own, rows: Rows) -> Result<Str, Memory>
    ensures { IfOk result (λ text. text ≡ rows_text (columns_of own.now) (ascending rows)) }
{
    let columns = columns_of(own)?;
    text_of(alloc, columns.as_slice(), rows)
}

fn shown_text<W: Warehouse>(
    alloc: Global,
    house: &mut W,
    env: &Str,
    s: &Snapshot,
    u: Bounds,
) -> Result<Str, Refusal>
    ensures { Looks (λ w. printed (columns_of s.now.own) (found_rows env.now s.now u w) (lost_behind env.now s.now w)) (W.told house.old) (W.told house.new) result }
{
    match found_rows(alloc, house, env, s, u) {
        Err(fault) => Err(of_show(fault)),
        Ok(rows) => {
            let text = own_text(alloc, &s.own, rows)?;
            Ok(text)
        }
    }
}

fn snapshot_text<W: Warehouse>(
    alloc: Global,
    house: &mut W,
    env: &Str,
    model: &Name,
    s: &Snapshot,
    u: Bounds,
) -> Result<Str, Refusal>
    ensures { Looks (λ w. model_text env.now model.now u w (Some s.now)) (W.told house.old) (W.told house.new) result }
{
    sources_there(alloc, house, model, &s.own)?;
    shown_text(alloc, house, env, s, u)
}

fn model_text<W: Warehouse>(
    alloc: Global,
    house: &mut W,
    env: &Str,
    model: &Name,
    there: Option<&Snapshot>,
    u: Bounds,
) -> Result<Str, Refusal>
    ensures { Looks (λ w. model_text env.now model.now u w (option_copied there.entry)) (W.told house.old) (W.told house.new) result }
{
    match there {
        None => Err(unknown(alloc, model)),
        Some(s) => snapshot_text(alloc, house, env, model, s, u),
    }
}

fn evaluated<W: Warehouse>(
    alloc: Global,
    house: &mut W,
    b: &Book,
    model: &Name,
    env: &Str,
    u: Bounds,
) -> Result<Str, Refusal>
    ensures { Looks (evaluated b.now env.now model.now u) (W.told house.old) (W.told house.new) result }
{
    let list = list_of(b, env)?;
    let there = snapshot_of(b, list.as_slice(), model);
    model_text(alloc, house, env, model, there, u)
}

/// The rows of an environment's model as they are printed: a seed's own, and else those of its query over its
/// parents' views in the environment and its declared sources as they stand. Of an incremental model they are those
/// of the days from `first` to `last`, both included.
pub fn evaluate<W: Warehouse>(
    alloc: Global,
    house: &mut W,
    model: &Name,
    env: &Str,
    first: i32,
    last: i32,
) -> Result<Str, Refusal>
    ensures looks { Looks (λ w. evaluated w.book env.now model.now (days first last) w) (W.told house.old) (W.told house.new) result }
{
    let b = book_of(alloc, house)?;
    evaluated(alloc, house, &b, model, env, days(first, last))
}
