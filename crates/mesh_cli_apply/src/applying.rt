// `apply`.
ghost use Rattle.std.specs.Prelude.{◌≡◌, ◌≤◌, ◌++◌, IfOk};
ghost use Rattle.std.specs.Option.{option_copied};
ghost use Rattle.mesh_list.specs.Counts.{Rose};
ghost use Rattle.mesh_time_days.specs.Moments.{IsMoment};
ghost use Rattle.mesh_cli_print.specs.plans.PlanText.{plan_text};
ghost use Rattle.mesh_cli_print.specs.printed.Reports.{applied_line};
ghost use Rattle.mesh_cli_answer.specs.Answers.{Answers, IsAsked};
ghost use Rattle.mesh_cli_apply.specs.Applying.{ApplyGives, ApplyMakes};
ghost use Rattle.mesh_cli_apply.specs.Loaded.{IsProject, OfProject};

use crate::listing::listing;
use crate::planned::{loaded, planned};
use crate::steps::{executed, promoted};
use mesh_base::Restate;
use mesh_base::rules::Plan;
use mesh_base_values::Str;
use mesh_cli_answer::present_book;
use mesh_cli_print::plans::plan_text;
use mesh_cli_print::printed::{Refusal, applied_line};
use mesh_house::Warehouse;
use mesh_io::Folder;
use mesh_list::{Memory, Seq};
use std::alloc::Global;
use std::thread::Threads;

/// One text behind another.
pub(crate) fn joined(front: Str, back: Str) -> Result<Str, Memory>
    ensures { IfOk result (λ made. made ≡ front ++ back) }
{
    let mut made = front.into_vec();
    made.extend_from_slice(back.as_slice())?;
    Ok(Seq::from_vec(made))
}

fn applied_text(alloc: Global, p: &Plan, changes: u64) -> Result<Str, Memory>
    ensures { IfOk result (λ text. text ≡ plan_text p.now ++ applied_line p.now.env changes) }
{
    let line = applied_line(alloc, &p.env, changes)?;
    joined(plan_text(p)?, line)
}

/// `apply`: the project in `dir` is made for an environment at a moment, and the answer is the text of its plan with
/// the number of its changes. `again` names a model that is computed again with its descendants.
pub fn apply<R: Threads + Sync, W: Warehouse, F: Folder>(
    rt: &R,
    alloc: Global,
    folder: &mut F,
    house: &mut W,
    dir: &Str,
    env: &Str,
    t: i64,
    again: Option<&Restate>,
    workers: u32,
) -> Result<Str, Refusal>
    requires workers { (1 ≤ workers) × (workers ≤ 64) }
    requires moment { IsMoment t }
    ensures answers { Answers (Rose (F.told folder.old).faults (F.told folder.new).faults) (λ w list. IsProject (F.told folder.old).files dir.now (λ nodes. ApplyMakes nodes env.now t (option_copied again.entry) w list))
        (λ w. OfProject (F.told folder.old).files dir.now (λ nodes. ApplyGives nodes env.now t (option_copied again.entry) w)) (W.told house.old) (W.told house.new) result }
    ensures folder { IsAsked (F.told folder.old) (F.told folder.new) }
{
    let project = loaded(alloc, folder, dir)?;
    let book = present_book(alloc, house)?;
    let p = planned(alloc, &book, &project, env, t, again)?;
    let lists = listing(alloc, &p)?;
    let done = executed(rt, alloc, house, &p, workers)?;
    let changes = promoted(alloc, house, &book, &p, &lists, done)?;
    let text = applied_text(alloc, &p, changes)?;
    Ok(text)
}
