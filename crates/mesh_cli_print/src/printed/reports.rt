// What a command prints when it is done.
ghost use Rattle.std.specs.Prelude.{◌≡◌, ◌++◌, codes, IfOk, OnOk};
ghost use Rattle.std.specs.Fmt.{decimal};
ghost use Rattle.mesh_cli_print.specs.faults.Lines.{◌·◌};
ghost use Rattle.mesh_cli_print.specs.printed.Reports.{applied_line, ingested_line, invalidated_line, janitor_line, migrated_line, ran_line, swept_counts};

use crate::faults::{put, put_name, put_number};
use crate::plans::put_moment;
use mesh_base::Swept;
use mesh_base_values::{Name, Str};
use mesh_list::{Memory, Seq};
use std::alloc::Global;

/// A text, a name or another text behind it, and a number of things.
fn counted(alloc: Global, front: &[u8], text: &[u8], count: u64, back: &[u8]) -> Result<Str, Memory>
    ensures { IfOk result (λ line. line ≡ (front.now · text.now · codes ": " · decimal count · back.now)) }
{
    let mut out = Vec::from_slice(alloc, front)?;
    put(&mut out, text)?;
    put(&mut out, b": ")?;
    put_number(&mut out, count)?;
    put(&mut out, back)?;
    Ok(Seq::from_vec(out))
}

/// How many changes an apply took.
pub fn applied_line(alloc: Global, env: &Str, changes: u64) -> Result<Str, Memory>
    ensures { IfOk result (λ line. line ≡ applied_line env.now changes) }
{
    counted(alloc, b"applied ", env.as_slice(), changes, b" changes\n")
}

/// How many changes a run took.
pub fn ran_line(alloc: Global, env: &Str, changes: u64) -> Result<Str, Memory>
    ensures { IfOk result (λ line. line ≡ ran_line env.now changes) }
{
    counted(alloc, b"ran ", env.as_slice(), changes, b" changes\n")
}

/// How many rows a file gave to a source.
pub fn ingested_line(alloc: Global, name: &Name, rows: u64) -> Result<Str, Memory>
    ensures { IfOk result (λ line. line ≡ ingested_line name.now rows) }
{
    let mut out = Vec::new(alloc);
    put(&mut out, b"ingested ")?;
    put_name(&mut out, name)?;
    put(&mut out, b": ")?;
    put_number(&mut out, rows)?;
    put(&mut out, b" rows\n")?;
    Ok(Seq::from_vec(out))
}

fn put_counted(out: &mut Vec<u8>, count: u64, word: &[u8]) -> Result<(), Memory>
    ensures { OnOk result (out.new.items ≡ out.old.items ++ (decimal count · word.now)) }
{
    put_number(out, count)?;
    put(out, word)
}

fn put_swept(out: &mut Vec<u8>, swept: &Swept) -> Result<(), Memory>
    ensures { OnOk result (out.new.items ≡ out.old.items ++ swept_counts swept.now) }
{
    put_counted(out, swept.environments, b" environments, ")?;
    put_counted(out, swept.objects, b" objects, ")?;
    put_counted(out, swept.snapshots, b" snapshots, ")?;
    put_counted(out, swept.changes, b" changes\n")
}

/// How much of each kind the janitor took out.
pub fn janitor_line(alloc: Global, t: i64, swept: &Swept) -> Result<Str, Memory>
    ensures { IfOk result (λ line. line ≡ janitor_line t swept.now) }
{
    let mut out = Vec::new(alloc);
    put(&mut out, b"janitor at ")?;
    put_moment(&mut out, t)?;
    put(&mut out, b": ")?;
    put_swept(&mut out, swept)?;
    Ok(Seq::from_vec(out))
}

/// That an environment is over.
pub fn invalidated_line(alloc: Global, env: &Str) -> Result<Str, Memory>
    ensures { IfOk result (λ line. line ≡ invalidated_line env.now) }
{
    let mut out = Vec::from_slice(alloc, b"invalidated ")?;
    put(&mut out, env.as_slice())?;
    put(&mut out, b"\n")?;
    Ok(Seq::from_vec(out))
}

/// How many snapshots got another fingerprint.
pub fn migrated_line(alloc: Global, snapshots: u64) -> Result<Str, Memory>
    ensures { IfOk result (λ line. line ≡ migrated_line snapshots) }
{
    let mut out = Vec::from_slice(alloc, b"migrated ")?;
    put_number(&mut out, snapshots)?;
    put(&mut out, b" snapshots\n")?;
    Ok(Seq::from_vec(out))
}
