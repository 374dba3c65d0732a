// The calls of the janitor.
ghost use Rattle.std.specs.Prelude.{◌≡◌, ◌↔◌, ◌∷◌, ℤ, [], true, false, Err, IfOk, IsErrOf, IsTrue};
ghost use Rattle.std.specs.Int.Signed.{lt_z};
ghost use Rattle.std.specs.Option.{is_none};
ghost use Rattle.mesh_list.specs.Counts.{risen};
ghost use Rattle.mesh_base_values.specs.Picked.{same_text};
ghost use Rattle.mesh_house_book.specs.WellFormed.{is_well_formed_book};
ghost use Rattle.mesh_house.specs.Runs.{Makes};
ghost use Rattle.mesh_house.specs.declared.world.Change.TheVariants.{Expire};
ghost use Rattle.mesh_spec_changes.specs.Environments.{env_at, prod};
ghost use Rattle.mesh_spec_changes.specs.Kept.{sweeps};
ghost use Rattle.mesh_janitor.specs.declared.janitor.faults.SweepFault.TheVariants.{EnvUnknown, Moment};
ghost use Rattle.mesh_janitor.specs.janitor.Sweeping.{Sweeps, as_fault, numbers};

use crate::janitor::changes::push_sweep;
use crate::janitor::faults::{SweepFault, Swept};
use crate::making::make_counted;
use mesh_base_values::Str;
use mesh_house::{Change, Changes, Warehouse, WhFail};
use mesh_house_book::Book;
use mesh_list::{Duplicate, Memory, Seq};
use std::alloc::Global;

fn as_fault(fail: WhFail) -> SweepFault
    ensures { result ≡ as_fault fail }
{
    match fail {
        WhFail::Failed => SweepFault::Warehouse,
        WhFail::Memory => SweepFault::Memory,
    }
}

// Makes the whole list.
fn sweep_all<W: Warehouse>(alloc: Global, house: &mut W, b: &Book, t: i64) -> Result<Swept, WhFail>
    requires { is_well_formed_book b.now ≡ true }
    ensures makes { Makes (λ w. sweeps b.now t) (W.told house.old) (W.told house.new) result }
    ensures numbers { IfOk result (λ swept. swept ≡ numbers b.now t) }
    ensures calls { IfOk result (λ swept. (W.told house.new).calls ≡ risen swept.changes (W.told house.old).calls) }
{
    let mut changes = Seq::new(alloc);
    let swept = push_sweep(alloc, &mut changes, b, t)?;
    make_counted(alloc, house, changes.as_slice())?;
    Ok(swept)
}

/// Takes out what is over at the moment and what nothing that stays uses, by this book, which was read before. Where
/// the moment is before the book's, the house is left alone.
pub fn sweep<W: Warehouse>(
    alloc: Global,
    house: &mut W,
    b: &Book,
    t: i64,
) -> Result<Swept, SweepFault>
    requires { is_well_formed_book b.now ≡ true }
    ensures behind { IsTrue (lt_z t b.now.moment) ↔ (result ≡ Err (Moment t b.now.moment)) }
    ensures refuses { (given kept : ℤ) → result ≡ Err (Moment given kept) → (given ≡ t) × (kept ≡ b.now.moment) × (W.told house.new ≡ W.told house.old) }
    ensures known { IsErrOf result EnvUnknown → ⊥ }
    ensures makes { Sweeps (sweeps b.now t) (W.told house.old) (W.told house.new) result }
    ensures numbers { IfOk result (λ swept. swept ≡ numbers b.now t) }
    ensures calls { IfOk result (λ swept. (W.told house.new).calls ≡ risen swept.changes (W.told house.old).calls) }
{
    if t < b.moment {
        return Err(SweepFault::Moment {
            given: t,
            kept: b.moment,
        });
    }
    match sweep_all(alloc, house, b, t) {
        Ok(swept) => Ok(swept),
        Err(fail) => Err(as_fault(fail)),
    }
}

// The one change, as a list.
fn expiring(alloc: Global, env: &Str) -> Result<Changes, Memory>
    ensures { IfOk result (λ changes. changes ≡ Expire env.now ∷ []) }
{
    let mut changes = Seq::new(alloc);
    changes.push(Change::Expire { env: env.copy()? })?;
    Ok(changes)
}

// Makes it.
fn expire<W: Warehouse>(alloc: Global, house: &mut W, env: &Str) -> Result<u64, WhFail>
    ensures makes { Makes (λ w. Expire env.now ∷ []) (W.told house.old) (W.told house.new) result }
    ensures number { IfOk result (λ made. made ≡ 1) }
    ensures calls { IfOk result (λ made. (W.told house.new).calls ≡ risen made (W.told house.old).calls) }
{
    let list = expiring(alloc, env)?;
    make_counted(alloc, house, list.as_slice())
}

/// Makes an environment one that is over, so that a sweep takes it out. Production never is. Where this book, which was
/// read before, has no such environment, the house is left alone.
pub fn invalidate<W: Warehouse>(
    alloc: Global,
    house: &mut W,
    b: &Book,
    env: &Str,
) -> Result<(), SweepFault>
    requires { same_text env.now prod ≡ false }
    ensures unknown { IsErrOf result EnvUnknown ↔ IsTrue (is_none (env_at b.now env.now)) }
    ensures refuses { IsErrOf result EnvUnknown → W.told house.new ≡ W.told house.old }
    ensures timeless { (given kept : ℤ) → result ≡ Err (Moment given kept) → ⊥ }
    ensures makes { Sweeps (Expire env.now ∷ []) (W.told house.old) (W.told house.new) result }
    ensures calls { IfOk result (λ _. (W.told house.new).calls ≡ risen 1 (W.told house.old).calls) }
{
    if b.environments.find(env).is_none() {
        return Err(SweepFault::EnvUnknown);
    }
    match expire(alloc, house, env) {
        Ok(_) => Ok(()),
        Err(fail) => Err(as_fault(fail)),
    }
}
