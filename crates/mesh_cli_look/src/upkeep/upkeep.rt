// The commands, over the book that the warehouse has.
ghost use Rattle.std.specs.Prelude.{◌≡◌, true, false, IfOk, IsErrOf};
ghost use Rattle.mesh_base_values.specs.Picked.{same_text};
ghost use Rattle.mesh_spec_changes.specs.Commands.{is_present};
ghost use Rattle.mesh_spec_changes.specs.Environments.{prod};
ghost use Rattle.mesh_cli_answer.specs.Answers.{Answers};
ghost use Rattle.mesh_cli_print.specs.printed.Reports.{invalidated_line, janitor_line};
ghost use Rattle.mesh_cli_print.specs.declared.printed.refusals.Refusal.TheVariants.{Input};
ghost use Rattle.mesh_cli_look.specs.upkeep.Upkeep.{ExpiryGives, InvalidateGives, InvalidateMakes, JanitorGives, JanitorMakes, NumbersGiven, SweepGives, invalidate_changes, janitor_changes};

use mesh_base::Swept;
use mesh_base_values::Str;
use mesh_cli_answer::{as_refusal, present};
use mesh_cli_print::printed::{Refusal, invalidated_line, janitor_line};
use mesh_house::Warehouse;
use mesh_house_book::Book;
use mesh_janitor::janitor::SweepFault;
use mesh_list::{Duplicate, Memory};
use std::alloc::Global;

// A sweep by a book that is as it has to be.
fn swept<W: Warehouse>(
    alloc: Global,
    house: &mut W,
    b: &Book,
    t: i64,
) -> Result<mesh_janitor::janitor::Swept, Refusal>
    requires { is_present b.now ≡ true }
    ensures { Answers ⊥ (λ w list. list ≡ janitor_changes t b.now) (λ w. NumbersGiven t b.now) (W.told house.old) (W.told house.new) result }
{
    match mesh_janitor::janitor::sweep(alloc, house, b, t) {
        Ok(swept) => Ok(swept),
        Err(SweepFault::Moment { given, kept }) => Err(Refusal::MomentBehind { given, kept }),
        Err(SweepFault::EnvUnknown) => unreachable!(),
        Err(SweepFault::Warehouse) => Err(Refusal::Warehouse),
        Err(SweepFault::Memory) => Err(Refusal::Memory),
    }
}

fn line_of(alloc: Global, t: i64, swept: mesh_janitor::janitor::Swept) -> Result<Str, Memory>
    ensures { IfOk result (λ line. line ≡ janitor_line t (record { environments = swept.environments; objects = swept.objects; snapshots = swept.snapshots; changes = swept.changes })) }
{
    let counts = Swept {
        environments: swept.environments,
        objects: swept.objects,
        snapshots: swept.snapshots,
        changes: swept.changes,
    };
    janitor_line(alloc, t, &counts)
}

fn janitor_by<W: Warehouse>(alloc: Global, house: &mut W, b: &Book, t: i64) -> Result<Str, Refusal>
    ensures { Answers ⊥ (λ w list. list ≡ janitor_changes t b.now) (λ w. SweepGives t b.now) (W.told house.old) (W.told house.new) result }
{
    match present(b) {
        Err(refusal) => Err(refusal),
        Ok(()) => match swept(alloc, house, b, t) {
            Err(refusal) => Err(refusal),
            Ok(swept) => match line_of(alloc, t, swept) {
                Ok(line) => Ok(line),
                Err(_) => Err(Refusal::Memory),
            },
        },
    }
}

/// `janitor`: the line that is printed when it is done.
pub fn janitor<W: Warehouse>(alloc: Global, house: &mut W, t: i64) -> Result<Str, Refusal>
    ensures { Answers ⊥ (JanitorMakes t) (JanitorGives t) (W.told house.old) (W.told house.new) result }
{
    match house.book(alloc) {
        Err(fail) => Err(as_refusal(fail)),
        Ok(b) => janitor_by(alloc, house, &b, t),
    }
}

// The environment is over, by a book that is as it has to be.
fn expired<W: Warehouse>(
    alloc: Global,
    house: &mut W,
    b: &Book,
    env: &Str,
    name: Str,
    line: Str,
) -> Result<Str, Refusal>
    requires prod { same_text env.now prod ≡ false }
    requires present { is_present b.now ≡ true }
    requires name { name ≡ env.now }
    requires line { line ≡ invalidated_line env.now }
    ensures { Answers ⊥ (λ w list. list ≡ invalidate_changes env.now b.now) (λ w. ExpiryGives env.now b.now) (W.told house.old) (W.told house.new) result }
{
    match mesh_janitor::janitor::invalidate(alloc, house, b, env) {
        Ok(()) => Ok(line),
        Err(SweepFault::Moment { .. }) => unreachable!(),
        Err(SweepFault::EnvUnknown) => Err(Refusal::EnvUnknown { env: name }),
        Err(SweepFault::Warehouse) => Err(Refusal::Warehouse),
        Err(SweepFault::Memory) => Err(Refusal::Memory),
    }
}

// The name for a refusal, and the line.
fn texts(alloc: Global, env: &Str) -> Result<(Str, Str), Memory>
    ensures { IfOk result (λ made. made ≡ (env.now, invalidated_line env.now)) }
{
    let line = invalidated_line(alloc, env)?;
    let name = env.copy()?;
    Ok((name, line))
}

fn invalidate_by<W: Warehouse>(
    alloc: Global,
    house: &mut W,
    b: &Book,
    env: &Str,
) -> Result<Str, Refusal>
    requires { same_text env.now prod ≡ false }
    ensures { Answers ⊥ (λ w list. list ≡ invalidate_changes env.now b.now) (λ w. ExpiryGives env.now b.now) (W.told house.old) (W.told house.new) result }
{
    match present(b) {
        Err(refusal) => Err(refusal),
        Ok(()) => match texts(alloc, env) {
            Ok((name, line)) => expired(alloc, house, b, env, name, line),
            Err(_) => Err(Refusal::Memory),
        },
    }
}

/// `invalidate`: the line that is printed when it is done.
pub fn invalidate<W: Warehouse>(alloc: Global, house: &mut W, env: &Str) -> Result<Str, Refusal>
    requires { same_text env.now prod ≡ false }
    ensures { Answers ⊥ (InvalidateMakes env.now) (InvalidateGives env.now) (W.told house.old) (W.told house.new) result }
{
    match house.book(alloc) {
        Err(fail) => Err(as_refusal(fail)),
        Ok(b) => invalidate_by(alloc, house, &b, env),
    }
}
