// What the definitions give.
ghost use Rattle.std.specs.Prelude.{List, ◌++◌};
ghost use Rattle.mesh_house.specs.Step.{run};
ghost use Rattle.mesh_house.specs.declared.world.Change.{Change};
ghost use Rattle.mesh_house.specs.declared.world.World.{World};
ghost use Rattle.mesh_spec_changes.specs.due.Parts.{Parts};
ghost use Rattle.mesh_spec_promise.specs.Histories.{left};
ghost use Rattle.mesh_spec_promise.specs.Sound.{Sound};
ghost use Rattle.mesh_law_changes.specs.along.Along.{StaysAlong};

/// A world that stays sound along a list of changes is so after any front of it, but for the parts that are still in
/// doubt.
pub fn worlds_are_sound_at_every_exit()
    ensures { (x : Parts) (w : World) (made rest : List Change) → StaysAlong x w (made ++ rest) → Sound (left made x) (run w made) }
{}
