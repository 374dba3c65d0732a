// The changes of a plan: those of its models, and behind them those that give its environment its views.
ghost use Rattle.std.specs.Prelude.{◌≡◌, ◌≤◌, ◌+◌, IfOk, IfErr, IsTrue};
ghost use Rattle.mesh_house_book.specs.WellFormed.{is_moment};
ghost use Rattle.mesh_exec_works.specs.Executable.{IsExecutable};
ghost use Rattle.mesh_janitor.specs.promote.Promotion.{promotion};
ghost use Rattle.mesh_cli_print.specs.declared.printed.refusals.Refusal.TheVariants.{Memory as NoMemory};
ghost use Rattle.mesh_cli_apply.specs.Making.{ExecutesPlan, Promotes};

use crate::faults::of_exec;
use crate::listing::Lists;
use mesh_base::rules::Plan;
use mesh_cli_answer::as_refusal;
use mesh_cli_print::printed::Refusal;
use mesh_exec::execute;
use mesh_exec_wave::wave::OpenGate;
use mesh_house::Warehouse;
use mesh_house_book::Book;
use mesh_janitor::promote::promote;
use std::alloc::Global;
use std::thread::Threads;

/// The sources that a plan needs are looked at, and then the changes of its models are made; their number is answered.
pub(crate) fn executed<R: Threads + Sync, W: Warehouse>(
    rt: &R,
    alloc: Global,
    house: &mut W,
    p: &Plan,
    workers: u32,
) -> Result<u64, Refusal>
    requires workers { (1 ≤ workers) × (workers ≤ 64) }
    requires plan { IsExecutable p.now }
    ensures { ExecutesPlan p.now (W.told house.old) (W.told house.new) result }
{
    match execute(rt, alloc, p, workers, &OpenGate, house) {
        Err(fault) => Err(of_exec(alloc, fault)),
        Ok(done) => Ok(done.changes),
    }
}

/// The sum of two counts; one that doesn't fit is as if memory were wanting, which no list of changes reaches.
fn sum(a: u64, b: u64) -> Result<u64, Refusal>
    ensures ok { IfOk result (λ n. n ≡ a + b) }
    ensures err { IfErr result (λ r. r ≡ NoMemory) }
{
    match a.checked_add(b) {
        Some(sum) => Ok(sum),
        None => Err(Refusal::Memory),
    }
}

/// The environment gets these lists; what was made before is counted too.
pub(crate) fn promoted<W: Warehouse>(
    alloc: Global,
    house: &mut W,
    b: &Book,
    p: &Plan,
    lists: &Lists,
    done: u64,
) -> Result<u64, Refusal>
    requires { IsTrue (is_moment p.now.moment) }
    ensures { Promotes (promotion b.now p.now.env lists.now.list lists.now.objects p.now.moment) done (W.told house.old) (W.told house.new) result }
{
    match promote(
        alloc,
        house,
        b,
        &p.env,
        &lists.list,
        &lists.objects,
        p.moment,
    ) {
        Err(fail) => Err(as_refusal(fail)),
        Ok(made) => sum(done, made),
    }
}
