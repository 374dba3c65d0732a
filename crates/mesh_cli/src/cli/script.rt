// A script: its size, and its lines.
ghost use Rattle.std.specs.Prelude.{◌≡◌, ◌⊎◌, IfOk};
ghost use Rattle.mesh_cli_print.specs.declared.printed.refusals.Refusal.TheVariants.{Memory as NoMemory};
ghost use Rattle.mesh_cli_values.specs.scripts.Scripts.{lines};
ghost use Rattle.mesh_cli.specs.cli.Scripts.{IsScript, too_large};

use crate::cli::moment::of_io;
use mesh_base_values::Str;
use mesh_cli_print::printed::Refusal;
use mesh_io::{Source, take_all};
use mesh_list::{Duplicate, Memory, Seq};
use mesh_query_tokens::FaultKind;
use std::alloc::Global;

/// The most bytes that a script has.
const MOST_SCRIPT: u64 = 1_048_576;

/// What stands in front of each line feed, and behind the last.
pub(crate) fn lines_of(alloc: Global, script: &[u8]) -> Result<Vec<Str>, Memory>
    ensures { IfOk result (λ texts. texts.items ≡ lines script.now) }
{
    let mut lines = Vec::new(alloc);
    let mut line = Vec::new(alloc);
    for b in script {
        if *b == b'\n' {
            lines.push(Seq::from_vec(line))?;
            line = Vec::new(alloc);
        } else {
            line.push(*b)?;
        }
    }
    lines.push(Seq::from_vec(line))?;
    Ok(lines)
}

fn too_large(alloc: Global) -> Result<Refusal, Memory>
    ensures { IfOk result (λ refusal. refusal ≡ too_large) }
{
    let file = u8::copy_items(alloc, b"-")?;
    let what = u8::copy_items(alloc, b"script")?;
    Ok(Refusal::Model {
        file,
        at: 0,
        kind: FaultKind::TooLarge {
            what,
            limit: MOST_SCRIPT,
        },
    })
}

fn refused(alloc: Global) -> Refusal
    ensures { (result ≡ NoMemory) ⊎ (result ≡ too_large) }
{
    match too_large(alloc) {
        Ok(refusal) => refusal,
        Err(Memory) => Refusal::Memory,
    }
}

/// The script, which is all of the input.
pub(crate) fn script_of<S: Source>(alloc: Global, input: &mut S) -> Result<Str, Refusal>
    ensures { IsScript (S.told input.old) (S.told input.new) result }
{
    match take_all(input, alloc, MOST_SCRIPT + 1) {
        Err(fail) => Err(of_io(fail)),
        Ok(script) => {
            if script.len() as u64 <= MOST_SCRIPT {
                Ok(script)
            } else {
                Err(refused(alloc))
            }
        }
    }
}
