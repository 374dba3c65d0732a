// `run`.
ghost use Rattle.std.specs.Prelude.{◌≡◌, ◌⊎◌, ◌≤◌, ◌++◌, true, IfOk, IfErr};
ghost use Rattle.mesh_time_days.specs.Moments.{IsMoment};
ghost use Rattle.mesh_spec_changes.specs.Commands.{is_present};
ghost use Rattle.mesh_cli_print.specs.plans.PlanText.{plan_text};
ghost use Rattle.mesh_cli_print.specs.declared.printed.refusals.Refusal.TheVariants.{Memory as NoMemory};
ghost use Rattle.mesh_cli_print.specs.printed.Reports.{ran_line};
ghost use Rattle.mesh_cli_answer.specs.Answers.{Answers};
ghost use Rattle.mesh_cli_apply.specs.Applying.{RunGives, RunMakes};
ghost use Rattle.mesh_cli_apply.specs.Planning.{IsRunPlanned, RunRefused};

use crate::applying::joined;
use crate::faults::of_plan;
use crate::steps::executed;
use mesh_base::rules::Plan;
use mesh_base_values::Str;
use mesh_cli_answer::present_book;
use mesh_cli_print::plans::plan_text;
use mesh_cli_print::printed::{Refusal, ran_line};
use mesh_house::Warehouse;
use mesh_house_book::Book;
use mesh_list::Memory;
use mesh_plan::plan_run;
use std::alloc::Global;
use std::thread::Threads;

fn ran_text(alloc: Global, p: &Plan, changes: u64) -> Result<Str, Memory>
    ensures { IfOk result (λ text. text ≡ plan_text p.now ++ ran_line p.now.env changes) }
{
    let line = ran_line(alloc, &p.env, changes)?;
    joined(plan_text(p)?, line)
}

/// The plan of what is due of an environment's models, by a book that is as it has to be.
fn run_planned(alloc: Global, b: &Book, env: &Str, t: i64) -> Result<Plan, Refusal>
    requires present { is_present b.now ≡ true }
    requires moment { IsMoment t }
    ensures ok { IfOk result (λ p. IsRunPlanned b.now env.now t p) }
    ensures err { IfErr result (λ r. (r ≡ NoMemory) ⊎ RunRefused b.now env.now t r) }
{
    match plan_run(alloc, b, env, t) {
        Err(fault) => Err(of_plan(alloc, env, fault)),
        Ok(p) => Ok(p),
    }
}

/// `run`: what is due of an environment's models at a moment is computed, and the answer is the text of its plan with
/// the number of its changes. No project is read, and no view moves.
pub fn run<R: Threads + Sync, W: Warehouse>(
    rt: &R,
    alloc: Global,
    house: &mut W,
    env: &Str,
    t: i64,
    workers: u32,
) -> Result<Str, Refusal>
    requires workers { (1 ≤ workers) × (workers ≤ 64) }
    requires moment { IsMoment t }
    ensures { Answers ⊥ (RunMakes env.now t) (RunGives env.now t) (W.told house.old) (W.told house.new) result }
{
    let book = present_book(alloc, house)?;
    let p = run_planned(alloc, &book, env, t)?;
    let changes = executed(rt, alloc, house, &p, workers)?;
    let text = ran_text(alloc, &p, changes)?;
    Ok(text)
}
