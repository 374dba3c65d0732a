// Why a command isn't done, as it is told.
ghost use Rattle.std.specs.Prelude.{◌≡◌, ◌⊎◌};
ghost use Rattle.mesh_cli_print.specs.faults.Lines.{name_text};
ghost use Rattle.mesh_cli_print.specs.declared.printed.refusals.Refusal.TheVariants.{Memory as NoMemory, Model as Fault};
ghost use Rattle.mesh_category.specs.declared.versions.faults.PlanFault.TheVariants as why;
ghost use Rattle.mesh_cli_apply.specs.Applying.{of_exec};
ghost use Rattle.mesh_cli_apply.specs.Planning.{of_plan};

use mesh_base_values::{Name, Str};
use mesh_category::versions::PlanFault;
use mesh_cli_print::faults::name_text;
use mesh_cli_print::printed::Refusal;
use mesh_exec::ExecFault;
use mesh_list::Duplicate;
use mesh_query_tokens::FaultKind;
use std::alloc::Global;

/// A fault of a model, which has its name in the place of a file's.
pub(crate) fn of_model(alloc: Global, name: &Name, kind: FaultKind) -> Refusal
    ensures { (result ≡ NoMemory) ⊎ (result ≡ Fault (name_text name.now) 0 kind) }
{
    match name_text(alloc, name) {
        Ok(file) => Refusal::Model { file, at: 0, kind },
        Err(_) => Refusal::Memory,
    }
}

fn unknown(env: &Str) -> Refusal
    ensures { (result ≡ NoMemory) ⊎ (result ≡ of_plan env.now why.EnvUnknown) }
{
    match env.copy() {
        Ok(env) => Refusal::EnvUnknown { env },
        Err(_) => Refusal::Memory,
    }
}

fn pending(env: &Str) -> Refusal
    ensures { (result ≡ NoMemory) ⊎ (result ≡ of_plan env.now why.EnvPending) }
{
    match env.copy() {
        Ok(env) => Refusal::EnvPending { env },
        Err(_) => Refusal::Memory,
    }
}

/// Why there is no plan.
pub(crate) fn of_plan(alloc: Global, env: &Str, fault: PlanFault) -> Refusal
    ensures { (result ≡ NoMemory) ⊎ (result ≡ of_plan env.now fault) }
{
    match fault {
        PlanFault::Model { name, kind } => of_model(alloc, &name, kind),
        PlanFault::Moment { given, kept } => Refusal::MomentBehind { given, kept },
        PlanFault::EnvUnknown => unknown(env),
        PlanFault::EnvPending => pending(env),
        PlanFault::Memory => Refusal::Memory,
    }
}

/// Why the changes of a plan stopped.
pub(crate) fn of_exec(alloc: Global, fault: ExecFault) -> Refusal
    ensures { (result ≡ NoMemory) ⊎ (result ≡ of_exec fault) }
{
    match fault {
        ExecFault::Dangling { object } => Refusal::ObjectMissing { object },
        ExecFault::Model { name, kind } => of_model(alloc, &name, kind),
        ExecFault::Warehouse => Refusal::Warehouse,
        ExecFault::Memory => Refusal::Memory,
    }
}
