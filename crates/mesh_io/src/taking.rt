// All bytes of a source, up to a limit.
ghost use Rattle.std.specs.Prelude.{◌≡◌, ◌++◌, ◌<◌, ◌≤◌, length, IfOk, OnErr, IsTrue, IfSome, [], true, false};
ghost use Rattle.std.specs.Option.{option_map};
ghost use Rattle.mesh_io.specs.Told.{SourceGives, CountsFaults};

use crate::fails::IoFail;
use crate::outside::Source;
use mesh_base_values::Str;
use mesh_list::Seq;
use std::alloc::Global;

/// The first `most` bytes that the source has left, or all of them where they are fewer. It is asked at most `most`
/// times.
pub fn take_all<S: Source>(source: &mut S, alloc: Global, most: u64) -> Result<Str, IoFail>
    ensures { SourceGives most (S.told source.old) (S.told source.new) result }
{
    let mut all = Seq::new(alloc);
    for _ in 0..most {
        let room = most - all.len() as u64;
        if room == 0 {
            return Ok(all);
        }
        let piece = source.take(alloc, room)?;
        if piece.is_empty() {
            return Ok(all);
        }
        all.append(piece)?;
    }
    Ok(all)
}
