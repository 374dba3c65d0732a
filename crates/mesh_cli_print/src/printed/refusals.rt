// Why a command isn't done.
ghost use Rattle.std.specs.Prelude.{◌≡◌, ◌++◌, codes, IfOk, OnOk};
ghost use Rattle.std.specs.Fmt.{decimal};
ghost use Rattle.mesh_cli_print.specs.faults.Lines.{◌·◌, fault_line, name_text};
ghost use Rattle.mesh_cli_print.specs.plans.Moments.{moment_text};
ghost use Rattle.mesh_cli_print.specs.printed.Refusals.{refusal_line, status};

use crate::faults::{fault_line, put, put_name, put_number};
use crate::plans::put_moment;
use mesh_base_values::{Name, Str};
use mesh_list::{Memory, Seq};
use mesh_query_tokens::FaultKind;
use std::alloc::Global;

/// Why a command isn't done. A place is a byte from 0 in the file, and a moment in seconds since 1970-01-01.
pub enum Refusal {
    /// A fault of the project, or of the query and the names that the words have.
    Model { file: Str, at: u64, kind: FaultKind },
    Usage,
    Warehouse,
    Memory,
    /// The folder, the clock or the input failed.
    Input,
    MomentBehind { given: i64, kept: i64 },
    EnvUnknown { env: Str },
    EnvPending { env: Str },
    /// The book of the warehouse breaks a rule, in its part and at its place there.
    BookBroken { part: u8, place: u64 },
    ObjectMissing { object: Name },
    /// The book is of a former version.
    StateOld { version: u32 },
}

impl Drop for Refusal {
    fn drop(self) {
        match self {
            Refusal::Model {
                file: _,
                at: _,
                kind: _,
            }
            | Refusal::Usage
            | Refusal::Warehouse
            | Refusal::Memory
            | Refusal::Input
            | Refusal::MomentBehind { given: _, kept: _ }
            | Refusal::EnvUnknown { env: _ }
            | Refusal::EnvPending { env: _ }
            | Refusal::BookBroken { part: _, place: _ }
            | Refusal::ObjectMissing { object: _ }
            | Refusal::StateOld { version: _ } => {}
        }
    }
}

impl From<Memory> for Refusal {
    ghost use Rattle.mesh_cli_print.specs.declared.printed.refusals.Refusal.TheVariants as refusal;

    ghost from_gives = { λ _ e. e ≡ refusal.Memory };

    fn from(_: Memory) -> Self {
        Refusal::Memory
    }
}

/// The exit status of a command that isn't done.
pub fn status(refusal: &Refusal) -> u8
    ensures { result ≡ status refusal.now }
{
    match refusal {
        Refusal::Model { .. } => 1,
        Refusal::Usage => 2,
        Refusal::Warehouse => 3,
        Refusal::Memory => 4,
        Refusal::Input => 5,
        Refusal::MomentBehind { .. }
        | Refusal::EnvUnknown { .. }
        | Refusal::EnvPending { .. }
        | Refusal::BookBroken { .. }
        | Refusal::ObjectMissing { .. }
        | Refusal::StateOld { .. } => 7,
    }
}

fn text_of(alloc: Global, text: &[u8]) -> Result<Str, Memory>
    ensures { IfOk result (λ made. made ≡ text.now) }
{
    Ok(Seq::from_vec(Vec::from_slice(alloc, text)?))
}

fn put_moment_and(out: &mut Vec<u8>, t: i64, back: &[u8]) -> Result<(), Memory>
    ensures { OnOk result (out.new.items ≡ out.old.items ++ (moment_text t · back.now)) }
{
    put_moment(out, t)?;
    put(out, back)
}

fn behind_line(alloc: Global, given: i64, kept: i64) -> Result<Str, Memory>
    ensures { IfOk result (λ line. line ≡ (codes "S1 moment " · moment_text given · codes " is behind " · moment_text kept · codes "\n")) }
{
    let mut out = Vec::from_slice(alloc, b"S1 moment ")?;
    put_moment_and(&mut out, given, b" is behind ")?;
    put_moment_and(&mut out, kept, b"\n")?;
    Ok(Seq::from_vec(out))
}

/// A text between two others.
fn between(alloc: Global, front: &[u8], text: &[u8], back: &[u8]) -> Result<Str, Memory>
    ensures { IfOk result (λ line. line ≡ (front.now · text.now · back.now)) }
{
    let mut out = Vec::from_slice(alloc, front)?;
    put(&mut out, text)?;
    put(&mut out, back)?;
    Ok(Seq::from_vec(out))
}

fn book_line(alloc: Global, part: u8, place: u64) -> Result<Str, Memory>
    ensures { IfOk result (λ line. line ≡ (codes "S4 book part " · decimal part · codes " place " · decimal place · codes "\n")) }
{
    let mut out = Vec::new(alloc);
    put(&mut out, b"S4 book part ")?;
    put_number(&mut out, part as u64)?;
    put(&mut out, b" place ")?;
    put_number(&mut out, place)?;
    put(&mut out, b"\n")?;
    Ok(Seq::from_vec(out))
}

fn missing_line(alloc: Global, object: &Name) -> Result<Str, Memory>
    ensures { IfOk result (λ line. line ≡ (codes "S4 object " · name_text object.now · codes " is missing\n")) }
{
    let mut out = Vec::new(alloc);
    put(&mut out, b"S4 object ")?;
    put_name(&mut out, object)?;
    put(&mut out, b" is missing\n")?;
    Ok(Seq::from_vec(out))
}

fn old_line(alloc: Global, version: u32) -> Result<Str, Memory>
    ensures { IfOk result (λ line. line ≡ (codes "S5 state version " · decimal version · codes " needs 2\n")) }
{
    let mut out = Vec::new(alloc);
    put(&mut out, b"S5 state version ")?;
    put_number(&mut out, version as u64)?;
    put(&mut out, b" needs 2\n")?;
    Ok(Seq::from_vec(out))
}

/// The line that is printed on standard error, with its line feed.
pub fn refusal_line(alloc: Global, refusal: &Refusal) -> Result<Str, Memory>
    ensures { IfOk result (λ line. line ≡ refusal_line refusal.now) }
{
    match refusal {
        Refusal::Model { file, at, kind } => fault_line(alloc, file.as_slice(), *at, kind),
        Refusal::Usage => text_of(
            alloc,
            b"usage: mesh [--paths DIR] [--warehouse FILE] COMMAND\n",
        ),
        Refusal::Warehouse => text_of(alloc, b"warehouse fault\n"),
        Refusal::Memory => text_of(alloc, b"want of memory\n"),
        Refusal::Input => text_of(alloc, b"input fault\n"),
        Refusal::MomentBehind { given, kept } => behind_line(alloc, *given, *kept),
        Refusal::EnvUnknown { env } => {
            between(alloc, b"S2 environment ", env.as_slice(), b" is unknown\n")
        }
        Refusal::EnvPending { env } => {
            between(alloc, b"S3 environment ", env.as_slice(), b" is pending\n")
        }
        Refusal::BookBroken { part, place } => book_line(alloc, *part, *place),
        Refusal::ObjectMissing { object } => missing_line(alloc, object),
        Refusal::StateOld { version } => old_line(alloc, *version),
    }
}
