// The top call over records in a map.
ghost use Rattle.mesh_cli.specs.cli.Scripts.{WordsEnd};
ghost use Rattle.mesh_cli.specs.cli.Sides.{sides};
ghost use Rattle.mesh_cli.specs.promise.Promise.{CallPromise};
ghost use Rattle.mesh_keep.specs.MapKeeper.{map_told};
ghost use Rattle.mesh_keep_house.specs.kept.House.{house_told};
ghost use Rattle.mesh_cli_print.specs.printed.Printing.{sinks};

use crate::cli::top::mesh;
use mesh_base_values::Str;
use mesh_io::{Clock, Folder, Sink, Source};
use mesh_keep::MapKeeper;
use mesh_keep_house::kept::KeptHouse;
use std::alloc::Global;
use std::thread::Threads;

/// Runs one command line over records in a map: what it ends with is said of the world that the records hold.
pub fn mesh_over_a_map<R: Threads + Sync, F: Folder, C: Clock, S: Source, O: Sink, E: Sink>(
    rt: &R,
    alloc: Global,
    words: &[Str],
    folder: &mut F,
    house: &mut KeptHouse<MapKeeper>,
    clock: &mut C,
    input: &mut S,
    out: &mut O,
    err: &mut E,
) -> u8
    ensures ends { WordsEnd words.now (S.told input.old) (S.told input.new) (sides (F.told folder.old) (C.told clock.old) (house_told map_told house.old)) (sides (F.told folder.new) (C.told clock.new) (house_told map_told house.new))
        (sinks (O.told out.old) (E.told err.old)) (sinks (O.told out.new) (E.told err.new)) result }
    ensures promise { CallPromise words.now (S.told input.old) (S.told input.new) (sides (F.told folder.old) (C.told clock.old) (house_told map_told house.old)) (sides (F.told folder.new) (C.told clock.new) (house_told map_told house.new))
        (sinks (O.told out.old) (E.told err.old)) (sinks (O.told out.new) (E.told err.new)) result }
{
    mesh(rt, alloc, words, folder, house, clock, input, out, err)
}
