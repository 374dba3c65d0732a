// Each command, as its words ask for it.
ghost use Rattle.std.specs.Prelude.{◌≡◌, codes, IfOk};
ghost use Rattle.std.specs.Option.{option_map};
ghost use Rattle.clap.specs.Walk.{rows_of};
ghost use Rattle.clap.specs.Matches.{found_of};
ghost use Rattle.mesh_cli_words.specs.declared.line.Command.TheVariants.{Invalidate};
ghost use Rattle.mesh_cli_words.specs.Lines.{apply_given, command_given, demo_given, evaluate_given, fetchdf_given, impact_given, ingest_given, invalidate_given, plan_given, run_given, trace_given};

use crate::given::{
    again_given, column_given, count_given, days_given, env_given, expiring_given, is_flagged,
    model_given, text_given, workers_given,
};
use crate::line::Command;
use clap::ArgMatches;
use mesh_base_values::{Str, same_text};
use mesh_list::Memory;
use std::alloc::Global;

fn plan_given(
    alloc: Global,
    m: &ArgMatches<'_>,
    moment: Option<i64>,
) -> Result<Option<Command>, Memory>
    ensures { IfOk result (λ made. made ≡ plan_given moment (rows_of (found_of m.now))) }
{
    let Some(workers) = workers_given(m) else {
        return Ok(None);
    };
    let Some(again) = again_given(alloc, m)? else {
        return Ok(None);
    };
    match env_given(alloc, m)? {
        None => Ok(None),
        Some(env) => Ok(Some(Command::Plan {
            env,
            auto_apply: is_flagged(m, "auto-apply"),
            workers,
            moment,
            again,
        })),
    }
}

fn apply_given(
    alloc: Global,
    m: &ArgMatches<'_>,
    moment: Option<i64>,
) -> Result<Option<Command>, Memory>
    ensures { IfOk result (λ made. made ≡ apply_given moment (rows_of (found_of m.now))) }
{
    let Some(workers) = workers_given(m) else {
        return Ok(None);
    };
    let Some(again) = again_given(alloc, m)? else {
        return Ok(None);
    };
    match env_given(alloc, m)? {
        None => Ok(None),
        Some(env) => Ok(Some(Command::Apply {
            env,
            workers,
            moment,
            again,
        })),
    }
}

fn run_given(
    alloc: Global,
    m: &ArgMatches<'_>,
    moment: Option<i64>,
) -> Result<Option<Command>, Memory>
    ensures { IfOk result (λ made. made ≡ run_given moment (rows_of (found_of m.now))) }
{
    let Some(workers) = workers_given(m) else {
        return Ok(None);
    };
    match env_given(alloc, m)? {
        None => Ok(None),
        Some(env) => Ok(Some(Command::Run {
            env,
            workers,
            moment,
        })),
    }
}

fn evaluate_given(alloc: Global, m: &ArgMatches<'_>) -> Result<Option<Command>, Memory>
    ensures { IfOk result (λ made. made ≡ evaluate_given (rows_of (found_of m.now))) }
{
    let Some((first, last)) = days_given(m) else {
        return Ok(None);
    };
    let Some(model) = model_given(alloc, m, "model")? else {
        return Ok(None);
    };
    match env_given(alloc, m)? {
        None => Ok(None),
        Some(env) => Ok(Some(Command::Evaluate {
            model,
            env,
            first,
            last,
        })),
    }
}

fn fetchdf_given(alloc: Global, m: &ArgMatches<'_>) -> Result<Option<Command>, Memory>
    ensures { IfOk result (λ made. made ≡ fetchdf_given (rows_of (found_of m.now))) }
{
    let Some(query) = text_given(alloc, m, "query")? else {
        return Ok(None);
    };
    match env_given(alloc, m)? {
        None => Ok(None),
        Some(env) => Ok(Some(Command::Fetchdf { query, env })),
    }
}

fn ingest_given(alloc: Global, m: &ArgMatches<'_>) -> Result<Option<Command>, Memory>
    ensures { IfOk result (λ made. made ≡ ingest_given (rows_of (found_of m.now))) }
{
    let Some(name) = model_given(alloc, m, "name")? else {
        return Ok(None);
    };
    match text_given(alloc, m, "file")? {
        None => Ok(None),
        Some(file) => Ok(Some(Command::Ingest {
            name,
            file,
            append: is_flagged(m, "append"),
        })),
    }
}

fn invalidated(env: Option<Str>) -> Option<Command>
    ensures { result ≡ option_map Invalidate env }
{
    match env {
        None => None,
        Some(env) => Some(Command::Invalidate { env }),
    }
}

/// Production stays, so it can't be named to be over.
fn invalidate_given(alloc: Global, m: &ArgMatches<'_>) -> Result<Option<Command>, Memory>
    ensures { IfOk result (λ made. made ≡ invalidate_given (rows_of (found_of m.now))) }
{
    let env = expiring_given(alloc, m)?;
    Ok(invalidated(env))
}

fn trace_given(alloc: Global, m: &ArgMatches<'_>) -> Result<Option<Command>, Memory>
    ensures { IfOk result (λ made. made ≡ trace_given (rows_of (found_of m.now))) }
{
    let Some(model) = model_given(alloc, m, "model")? else {
        return Ok(None);
    };
    match column_given(alloc, m)? {
        None => Ok(None),
        Some(column) => Ok(Some(Command::Trace { model, column })),
    }
}

fn impact_given(alloc: Global, m: &ArgMatches<'_>) -> Result<Option<Command>, Memory>
    ensures { IfOk result (λ made. made ≡ impact_given (rows_of (found_of m.now))) }
{
    let Some(name) = model_given(alloc, m, "name")? else {
        return Ok(None);
    };
    match column_given(alloc, m)? {
        None => Ok(None),
        Some(column) => Ok(Some(Command::Impact { name, column })),
    }
}

fn demo_given(m: &ArgMatches<'_>) -> Option<Command>
    ensures { result ≡ demo_given (rows_of (found_of m.now)) }
{
    let Some(workers) = workers_given(m) else {
        return None;
    };
    match count_given(m) {
        None => None,
        Some(n) => Some(Command::Demo { n, workers }),
    }
}

/// The command of a name, at a moment if one is given.
pub(crate) fn command_given(
    alloc: Global,
    moment: Option<i64>,
    name: &str,
    m: &ArgMatches<'_>,
) -> Result<Option<Command>, Memory>
    ensures { IfOk result (λ made. made ≡ command_given moment name.now (rows_of (found_of m.now))) }
{
    let name = name.as_bytes();
    if same_text(name, b"plan") {
        plan_given(alloc, m, moment)
    } else if same_text(name, b"apply") {
        apply_given(alloc, m, moment)
    } else if same_text(name, b"run") {
        run_given(alloc, m, moment)
    } else if same_text(name, b"evaluate") {
        evaluate_given(alloc, m)
    } else if same_text(name, b"fetchdf") {
        fetchdf_given(alloc, m)
    } else if same_text(name, b"ingest") {
        ingest_given(alloc, m)
    } else if same_text(name, b"janitor") {
        Ok(Some(Command::Janitor { moment }))
    } else if same_text(name, b"invalidate") {
        invalidate_given(alloc, m)
    } else if same_text(name, b"migrate") {
        Ok(Some(Command::Migrate))
    } else if same_text(name, b"trace") {
        trace_given(alloc, m)
    } else if same_text(name, b"impact") {
        impact_given(alloc, m)
    } else if same_text(name, b"batch") {
        Ok(Some(Command::Batch))
    } else if same_text(name, b"demo") {
        Ok(demo_given(m))
    } else {
        Ok(None)
    }
}
