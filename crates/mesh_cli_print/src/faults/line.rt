// The whole line.
ghost use Rattle.std.specs.Prelude.{◌≡◌, ◌++◌, OnOk, IfOk};
ghost use Rattle.mesh_cli_print.specs.faults.Lines.{fault_line};

use crate::faults::kinds::put_kind;
use crate::faults::pieces::{put, put_number};
use mesh_base_values::Str;
use mesh_list::{Memory, Seq};
use mesh_query_tokens::FaultKind;
use std::alloc::Global;

fn put_line(out: &mut Vec<u8>, file: &[u8], at: u64, kind: &FaultKind) -> Result<(), Memory>
    ensures { OnOk result (out.new.items ≡ out.old.items ++ fault_line file.now at kind.now) }
{
    put(out, file)?;
    put(out, b":")?;
    put_number(out, at)?;
    put(out, b": ")?;
    put_kind(out, kind)?;
    put(out, b"\n")
}

/// The line of a fault, with its line feed. `file` is a path within the project; for a fault that lies in no single
/// file it is `-`, or the name of the model whose source or fingerprint is at fault. `at` counts the file's bytes
/// from 0.
pub fn fault_line(alloc: Global, file: &[u8], at: u64, kind: &FaultKind) -> Result<Str, Memory>
    ensures { IfOk result (λ line. line ≡ fault_line file.now at kind.now) }
{
    let mut out = Vec::new(alloc);
    put_line(&mut out, file, at, kind)?;
    Ok(Seq::from_vec(out))
}
