// Plans, by a book that is as it has to be, and `plan`.
ghost use Rattle.std.specs.Prelude.{◌≡◌, ◌⊎◌, true, IfOk, IfErr};
ghost use Rattle.std.specs.List.{list_any};
ghost use Rattle.std.specs.Option.{option_copied};
ghost use Rattle.mesh_base.specs.declared.snapshots.Node.{Node};
ghost use Rattle.mesh_list.specs.Counts.{Rose};
ghost use Rattle.mesh_time_days.specs.Moments.{IsMoment};
ghost use Rattle.mesh_spec_changes.specs.due.Parts.{same_name};
ghost use Rattle.mesh_spec_changes.specs.Commands.{is_present};
ghost use Rattle.mesh_cli_print.specs.declared.printed.refusals.Refusal.TheVariants.{Memory as NoMemory};
ghost use Rattle.mesh_cli_answer.specs.Answers.{Answers, IsAsked, no_changes};
ghost use Rattle.mesh_cli_apply.specs.Applying.{PlanGives};
ghost use Rattle.mesh_cli_apply.specs.Loaded.{LoadsProject, OfProject};
ghost use Rattle.mesh_cli_apply.specs.Planning.{IsPlanned, IsStray, PlanRefused, has_named, no_model};

use crate::faults::of_plan;
use mesh_base::rules::{Plan, Project};
use mesh_base::{Node, Restate};
use mesh_base_values::{Name, Str};
use mesh_cli_answer::{of_load, present_book};
use mesh_cli_print::faults::name_text;
use mesh_cli_print::plans::plan_text;
use mesh_cli_print::printed::Refusal;
use mesh_house::Warehouse;
use mesh_house_book::Book;
use mesh_io::Folder;
use mesh_list::{Memory, Seq};
use mesh_project::project::load;
use mesh_query_tokens::FaultKind;
use std::alloc::Global;

/// The project in a folder, or why there is none.
pub(crate) fn loaded<F: Folder>(
    alloc: Global,
    folder: &mut F,
    dir: &Str,
) -> Result<Project, Refusal>
    ensures { LoadsProject dir.now (F.told folder.old) (F.told folder.new) result }
{
    match load(alloc, folder, dir) {
        Err(fault) => Err(of_load(fault)),
        Ok(project) => Ok(project),
    }
}

fn is_named(nodes: &[Node], name: &Name) -> bool
    ensures { result ≡ list_any (λ (n : Node). same_name n.own.name name.now) nodes.now }
{
    for node in nodes {
        if node.own.name.compare(name).is_eq() {
            return true;
        }
    }
    false
}

/// The words name no model of the project.
pub(crate) fn no_model(alloc: Global, name: &Name) -> Result<Refusal, Memory>
    ensures { IfOk result (λ r. r ≡ no_model name.now) }
{
    let file = Vec::from_slice(alloc, b"-")?;
    let name = name_text(alloc, name)?;
    Ok(Refusal::Model {
        file: Seq::from_vec(file),
        at: 0,
        kind: FaultKind::UnknownRelation { name },
    })
}

fn unnamed(alloc: Global, again: &Restate) -> Refusal
    ensures { (result ≡ NoMemory) ⊎ (result ≡ no_model again.now.name) }
{
    match no_model(alloc, &again.name) {
        Ok(refusal) => refusal,
        Err(_) => Refusal::Memory,
    }
}

/// Whether the model that is to be computed again is one of the project, where one is named.
fn named(alloc: Global, nodes: &[Node], again: Option<&Restate>) -> Result<(), Refusal>
    ensures ok { IfOk result (λ _. has_named nodes.now (option_copied again.entry) ≡ true) }
    ensures err { IfErr result (λ r. (r ≡ NoMemory) ⊎ IsStray nodes.now (option_copied again.entry) r) }
{
    match again {
        None => Ok(()),
        Some(again) => {
            if is_named(nodes, &again.name) {
                Ok(())
            } else {
                Err(unnamed(alloc, again))
            }
        }
    }
}

/// The plan of a project for an environment, by a book that is as it has to be.
pub(crate) fn planned(
    alloc: Global,
    b: &Book,
    project: &Project,
    env: &Str,
    t: i64,
    again: Option<&Restate>,
) -> Result<Plan, Refusal>
    requires present { is_present b.now ≡ true }
    requires moment { IsMoment t }
    ensures ok { IfOk result (λ p. IsPlanned b.now project.now.nodes env.now t (option_copied again.entry) p) }
    ensures err { IfErr result (λ r. (r ≡ NoMemory) ⊎ PlanRefused b.now project.now.nodes env.now t (option_copied again.entry) r) }
{
    match mesh_plan::plan(alloc, project, b, env, t, again) {
        Err(fault) => Err(of_plan(alloc, env, fault)),
        Ok(p) => match named(alloc, project.as_slice(), again) {
            Err(refusal) => Err(refusal),
            Ok(()) => Ok(p),
        },
    }
}

/// `plan`: the text of what an apply of the project in `dir` would do for an environment at a moment. Nothing is
/// changed.
pub fn plan<W: Warehouse, F: Folder>(
    alloc: Global,
    folder: &mut F,
    house: &mut W,
    dir: &Str,
    env: &Str,
    t: i64,
    again: Option<&Restate>,
) -> Result<Str, Refusal>
    requires moment { IsMoment t }
    ensures answers { Answers (Rose (F.told folder.old).faults (F.told folder.new).faults) no_changes (λ w. OfProject (F.told folder.old).files dir.now (λ nodes. PlanGives nodes env.now t (option_copied again.entry) w)) (W.told house.old) (W.told house.new) result }
    ensures folder { IsAsked (F.told folder.old) (F.told folder.new) }
{
    let project = loaded(alloc, folder, dir)?;
    let book = present_book(alloc, house)?;
    let p = planned(alloc, &book, &project, env, t, again)?;
    let text = plan_text(&p)?;
    Ok(text)
}
