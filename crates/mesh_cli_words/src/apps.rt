// The rules of the words, as `clap` has them.
ghost use Rattle.std.specs.Prelude.{◌≡◌, IfOk, false};
ghost use Rattle.clap.specs.Walk.{Rule, rule_of};
ghost use Rattle.clap.specs.Simple.{App, app_of, with_rule, with_subcommand};
ghost use Rattle.clap.specs.declared.builder.command.Command.TheViews.{out-Command as fields_of};
ghost use Rattle.mesh_cli_words.specs.Words.{option_rule, flag_rule, place_rule, needed, bare_app, timed_app, again_app, plan_app, apply_app, run_app, evaluate_app, fetchdf_app, ingest_app, janitor_app, invalidate_app, migrate_app, trace_app, impact_app, batch_app, demo_app, evaluate_places_app, unnamed_app, basis_app, to_plan_app, to_apply_app, to_run_app, to_evaluate_app, to_fetchdf_app, to_ingest_app, to_janitor_app, to_invalidate_app, to_migrate_app, to_trace_app, to_impact_app, to_batch_app, mesh_app};

use clap::builder::ValueParser;
use clap::{Arg, ArgAction, Command};
use std::alloc::{AllocError, Global};

fn option<'a>(alloc: Global, id: &'a str) -> Arg<'a>
    ensures rule { rule_of result ≡ option_rule id.now }
    ensures local { result.global ≡ false }
{
    Arg::new(alloc, id)
        .long(id)
        .action(ArgAction::Set)
        .value_parser(ValueParser::NonEmptyString)
}

fn flag<'a>(alloc: Global, id: &'a str) -> Arg<'a>
    ensures rule { rule_of result ≡ flag_rule id.now }
    ensures local { result.global ≡ false }
{
    Arg::new(alloc, id).long(id).action(ArgAction::SetTrue)
}

fn place<'a>(alloc: Global, id: &'a str) -> Arg<'a>
    ensures rule { rule_of result ≡ place_rule id.now }
    ensures local { result.global ≡ false }
{
    Arg::new(alloc, id).action(ArgAction::Set)
}

fn needed<'a>(arg: Arg<'a>) -> Arg<'a>
    requires { arg.global ≡ false }
    ensures rule { rule_of result ≡ needed (rule_of arg.entry) }
    ensures local { result.global ≡ false }
{
    arg.required(true)
}

fn needed_place<'a>(alloc: Global, id: &'a str) -> Arg<'a>
    ensures rule { rule_of result ≡ needed (place_rule id.now) }
    ensures local { result.global ≡ false }
{
    needed(place(alloc, id))
}

fn needed_option<'a>(alloc: Global, id: &'a str) -> Arg<'a>
    ensures rule { rule_of result ≡ needed (option_rule id.now) }
    ensures local { result.global ≡ false }
{
    needed(option(alloc, id))
}

fn bare<'a>(alloc: Global, name: &'a str) -> Command<'a>
    ensures app { app_of result ≡ bare_app name.now }
    ensures local { (fields_of result).has_globals ≡ false }
{
    Command::new(alloc, name)
        .disable_help_flag(true)
        .disable_version_flag(true)
        .disable_help_subcommand(true)
}

// A command with one more argument, where memory was there for it.
#[tactic(auto, using(crate::proofs::Grown::argument_added, crate::proofs::Grown::still_local))]
fn with_arg<'a>(
    command: Result<Command<'a>, AllocError>,
    arg: Arg<'a>,
) -> Result<Command<'a>, AllocError>
    requires { arg.global ≡ false }
    ensures app { (a : App) (r : Rule) → rule_of arg.entry ≡ r → IfOk command.entry (λ c. app_of c ≡ a) → IfOk result (λ c. app_of c ≡ with_rule a r) }
    ensures local { IfOk command.entry (λ c. (fields_of c).has_globals ≡ false) → IfOk result (λ c. (fields_of c).has_globals ≡ false) }
{
    match command {
        Ok(command) => command.arg(arg),
        Err(refused) => {
            drop(arg);
            Err(refused)
        }
    }
}

// A command with another one below it, where memory was there for both.
#[tactic(auto, using(crate::proofs::Grown::command_added, crate::proofs::Grown::both_local))]
fn with_command<'a>(
    above: Result<Command<'a>, AllocError>,
    below: Result<Command<'a>, AllocError>,
) -> Result<Command<'a>, AllocError>
    ensures app { (a b : App) → IfOk above.entry (λ c. app_of c ≡ a) → IfOk below.entry (λ c. app_of c ≡ b) → IfOk below.entry (λ c. (fields_of c).has_globals ≡ false) → IfOk result (λ c. app_of c ≡ with_subcommand a b.top) }
    ensures local { IfOk above.entry (λ c. (fields_of c).has_globals ≡ false) → IfOk below.entry (λ c. (fields_of c).has_globals ≡ false) → IfOk result (λ c. (fields_of c).has_globals ≡ false) }
{
    match above {
        Ok(above) => match below {
            Ok(below) => above.subcommand(below),
            Err(refused) => {
                drop(above);
                Err(refused)
            }
        },
        Err(refused) => {
            drop(below);
            Err(refused)
        }
    }
}

fn timed<'a>(alloc: Global, name: &'a str) -> Result<Command<'a>, AllocError>
    ensures app { IfOk result (λ c. app_of c ≡ timed_app name.now) }
    ensures local { IfOk result (λ c. (fields_of c).has_globals ≡ false) }
{
    let env = place(alloc, "env");
    let workers = option(alloc, "workers");
    let moment = option(alloc, "execution-time");
    let first = with_arg(Ok(bare(alloc, name)), env);
    let second = with_arg(first, workers);
    with_arg(second, moment)
}

fn repeatable<'a>(alloc: Global, name: &'a str) -> Result<Command<'a>, AllocError>
    ensures app { IfOk result (λ c. app_of c ≡ again_app name.now) }
    ensures local { IfOk result (λ c. (fields_of c).has_globals ≡ false) }
{
    let model = option(alloc, "restate-model");
    let start = option(alloc, "start");
    let end = option(alloc, "end");
    let first = with_arg(timed(alloc, name), model);
    let second = with_arg(first, start);
    with_arg(second, end)
}

fn plan_command<'a>(alloc: Global) -> Result<Command<'a>, AllocError>
    ensures app { IfOk result (λ c. app_of c ≡ plan_app) }
    ensures local { IfOk result (λ c. (fields_of c).has_globals ≡ false) }
{
    let apply = flag(alloc, "auto-apply");
    with_arg(repeatable(alloc, "plan"), apply)
}

fn evaluate_places<'a>(alloc: Global) -> Result<Command<'a>, AllocError>
    ensures app { IfOk result (λ c. app_of c ≡ evaluate_places_app) }
    ensures local { IfOk result (λ c. (fields_of c).has_globals ≡ false) }
{
    let model = needed_place(alloc, "model");
    let env = place(alloc, "env");
    let first = with_arg(Ok(bare(alloc, "evaluate")), model);
    with_arg(first, env)
}

fn evaluate_command<'a>(alloc: Global) -> Result<Command<'a>, AllocError>
    ensures app { IfOk result (λ c. app_of c ≡ evaluate_app) }
    ensures local { IfOk result (λ c. (fields_of c).has_globals ≡ false) }
{
    let start = needed_option(alloc, "start");
    let end = needed_option(alloc, "end");
    let first = with_arg(evaluate_places(alloc), start);
    with_arg(first, end)
}

fn fetchdf_command<'a>(alloc: Global) -> Result<Command<'a>, AllocError>
    ensures app { IfOk result (λ c. app_of c ≡ fetchdf_app) }
    ensures local { IfOk result (λ c. (fields_of c).has_globals ≡ false) }
{
    let query = needed_place(alloc, "query");
    let env = place(alloc, "env");
    let first = with_arg(Ok(bare(alloc, "fetchdf")), query);
    with_arg(first, env)
}

fn ingest_command<'a>(alloc: Global) -> Result<Command<'a>, AllocError>
    ensures app { IfOk result (λ c. app_of c ≡ ingest_app) }
    ensures local { IfOk result (λ c. (fields_of c).has_globals ≡ false) }
{
    let name = needed_place(alloc, "name");
    let file = needed_place(alloc, "file");
    let append = flag(alloc, "append");
    let first = with_arg(Ok(bare(alloc, "ingest")), name);
    let second = with_arg(first, file);
    with_arg(second, append)
}

fn janitor_command<'a>(alloc: Global) -> Result<Command<'a>, AllocError>
    ensures app { IfOk result (λ c. app_of c ≡ janitor_app) }
    ensures local { IfOk result (λ c. (fields_of c).has_globals ≡ false) }
{
    let moment = option(alloc, "execution-time");
    with_arg(Ok(bare(alloc, "janitor")), moment)
}

fn invalidate_command<'a>(alloc: Global) -> Result<Command<'a>, AllocError>
    ensures app { IfOk result (λ c. app_of c ≡ invalidate_app) }
    ensures local { IfOk result (λ c. (fields_of c).has_globals ≡ false) }
{
    let env = needed_place(alloc, "env");
    with_arg(Ok(bare(alloc, "invalidate")), env)
}

fn trace_command<'a>(alloc: Global) -> Result<Command<'a>, AllocError>
    ensures app { IfOk result (λ c. app_of c ≡ trace_app) }
    ensures local { IfOk result (λ c. (fields_of c).has_globals ≡ false) }
{
    let model = needed_place(alloc, "model");
    let column = needed_place(alloc, "column");
    let first = with_arg(Ok(bare(alloc, "trace")), model);
    with_arg(first, column)
}

fn impact_command<'a>(alloc: Global) -> Result<Command<'a>, AllocError>
    ensures app { IfOk result (λ c. app_of c ≡ impact_app) }
    ensures local { IfOk result (λ c. (fields_of c).has_globals ≡ false) }
{
    let name = needed_place(alloc, "name");
    let column = needed_place(alloc, "column");
    let first = with_arg(Ok(bare(alloc, "impact")), name);
    with_arg(first, column)
}

fn demo_command<'a>(alloc: Global) -> Result<Command<'a>, AllocError>
    ensures app { IfOk result (λ c. app_of c ≡ demo_app) }
    ensures local { IfOk result (λ c. (fields_of c).has_globals ≡ false) }
{
    let records = needed_place(alloc, "records");
    let workers = option(alloc, "workers");
    let first = with_arg(Ok(bare(alloc, "demo")), records);
    with_arg(first, workers)
}

fn unnamed<'a>(alloc: Global) -> Command<'a>
    ensures app { app_of result ≡ unnamed_app }
    ensures local { (fields_of result).has_globals ≡ false }
{
    bare(alloc, "mesh")
        .subcommand_required(true)
        .no_binary_name(true)
}

fn basis<'a>(alloc: Global) -> Result<Command<'a>, AllocError>
    ensures app { IfOk result (λ c. app_of c ≡ basis_app) }
    ensures local { IfOk result (λ c. (fields_of c).has_globals ≡ false) }
{
    let paths = option(alloc, "paths");
    let warehouse = option(alloc, "warehouse");
    let first = with_arg(Ok(unnamed(alloc)), paths);
    with_arg(first, warehouse)
}

fn to_plan<'a>(alloc: Global) -> Result<Command<'a>, AllocError>
    ensures app { IfOk result (λ c. app_of c ≡ to_plan_app) }
    ensures local { IfOk result (λ c. (fields_of c).has_globals ≡ false) }
{
    with_command(basis(alloc), plan_command(alloc))
}

fn to_apply<'a>(alloc: Global) -> Result<Command<'a>, AllocError>
    ensures app { IfOk result (λ c. app_of c ≡ to_apply_app) }
    ensures local { IfOk result (λ c. (fields_of c).has_globals ≡ false) }
{
    with_command(to_plan(alloc), repeatable(alloc, "apply"))
}

fn to_run<'a>(alloc: Global) -> Result<Command<'a>, AllocError>
    ensures app { IfOk result (λ c. app_of c ≡ to_run_app) }
    ensures local { IfOk result (λ c. (fields_of c).has_globals ≡ false) }
{
    with_command(to_apply(alloc), timed(alloc, "run"))
}

fn to_evaluate<'a>(alloc: Global) -> Result<Command<'a>, AllocError>
    ensures app { IfOk result (λ c. app_of c ≡ to_evaluate_app) }
    ensures local { IfOk result (λ c. (fields_of c).has_globals ≡ false) }
{
    with_command(to_run(alloc), evaluate_command(alloc))
}

fn to_fetchdf<'a>(alloc: Global) -> Result<Command<'a>, AllocError>
    ensures app { IfOk result (λ c. app_of c ≡ to_fetchdf_app) }
    ensures local { IfOk result (λ c. (fields_of c).has_globals ≡ false) }
{
    with_command(to_evaluate(alloc), fetchdf_command(alloc))
}

fn to_ingest<'a>(alloc: Global) -> Result<Command<'a>, AllocError>
    ensures app { IfOk result (λ c. app_of c ≡ to_ingest_app) }
    ensures local { IfOk result (λ c. (fields_of c).has_globals ≡ false) }
{
    with_command(to_fetchdf(alloc), ingest_command(alloc))
}

fn to_janitor<'a>(alloc: Global) -> Result<Command<'a>, AllocError>
    ensures app { IfOk result (λ c. app_of c ≡ to_janitor_app) }
    ensures local { IfOk result (λ c. (fields_of c).has_globals ≡ false) }
{
    with_command(to_ingest(alloc), janitor_command(alloc))
}

fn to_invalidate<'a>(alloc: Global) -> Result<Command<'a>, AllocError>
    ensures app { IfOk result (λ c. app_of c ≡ to_invalidate_app) }
    ensures local { IfOk result (λ c. (fields_of c).has_globals ≡ false) }
{
    with_command(to_janitor(alloc), invalidate_command(alloc))
}

fn to_migrate<'a>(alloc: Global) -> Result<Command<'a>, AllocError>
    ensures app { IfOk result (λ c. app_of c ≡ to_migrate_app) }
    ensures local { IfOk result (λ c. (fields_of c).has_globals ≡ false) }
{
    with_command(to_invalidate(alloc), Ok(bare(alloc, "migrate")))
}

fn to_trace<'a>(alloc: Global) -> Result<Command<'a>, AllocError>
    ensures app { IfOk result (λ c. app_of c ≡ to_trace_app) }
    ensures local { IfOk result (λ c. (fields_of c).has_globals ≡ false) }
{
    with_command(to_migrate(alloc), trace_command(alloc))
}

fn to_impact<'a>(alloc: Global) -> Result<Command<'a>, AllocError>
    ensures app { IfOk result (λ c. app_of c ≡ to_impact_app) }
    ensures local { IfOk result (λ c. (fields_of c).has_globals ≡ false) }
{
    with_command(to_trace(alloc), impact_command(alloc))
}

fn to_batch<'a>(alloc: Global) -> Result<Command<'a>, AllocError>
    ensures app { IfOk result (λ c. app_of c ≡ to_batch_app) }
    ensures local { IfOk result (λ c. (fields_of c).has_globals ≡ false) }
{
    with_command(to_impact(alloc), Ok(bare(alloc, "batch")))
}

/// All commands, with the options in front.
pub(crate) fn commands<'a>(alloc: Global) -> Result<Command<'a>, AllocError>
    ensures app { IfOk result (λ c. app_of c ≡ mesh_app) }
{
    with_command(to_batch(alloc), demo_command(alloc))
}
