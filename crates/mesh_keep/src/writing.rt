// What writes make of records, and the records of a kind.
ghost use Rattle.std.specs.Prelude.{◌≡◌, ◌++◌, [], ◌∷◌, IfOk, OnOk};
ghost use Rattle.mesh_keep.specs.Places.{records_of, write_one, written};

use crate::kept::{Kept, Place, Records, Write};
use mesh_list::{Duplicate, Memory, Seq, Sorted};
use std::alloc::Global;

fn write_one(kept: &mut Sorted<Kept>, write: &Write) -> Result<(), Memory>
    ensures { OnOk result (kept.new ≡ write_one kept.old write.now) }
{
    match &write.body {
        Some(body) => kept.place(Kept {
            kind: write.kind,
            name: write.name.copy()?,
            body: body.copy()?,
        }),
        None => {
            let place = Place {
                kind: write.kind,
                name: write.name.copy()?,
            };
            let _ = kept.remove(&place);
            Ok(())
        }
    }
}

/// The records with all of the writes.
pub(crate) fn written(kept: &Sorted<Kept>, writes: &[Write]) -> Result<Sorted<Kept>, Memory>
    ensures { IfOk result (λ made. made ≡ written kept.now writes.now) }
{
    let mut made = kept.copy()?;
    for write in writes {
        write_one(&mut made, write)?;
    }
    Ok(made)
}

// Puts a record behind others, where it is of that kind.
fn push_of(made: &mut Records, kind: u32, kept: &Kept) -> Result<(), Memory>
    ensures { OnOk result (made.new ≡ made.old ++ records_of kind (kept.now ∷ [])) }
{
    if kept.kind == kind {
        return made.push(kept.record()?);
    }
    Ok(())
}

/// The records of a kind, in their order.
pub(crate) fn records_of(alloc: Global, kind: u32, kept: &[Kept]) -> Result<Records, Memory>
    ensures { IfOk result (λ made. made ≡ records_of kind kept.now) }
{
    let mut made = Seq::new(alloc);
    for record in kept {
        push_of(&mut made, kind, record)?;
    }
    Ok(made)
}
