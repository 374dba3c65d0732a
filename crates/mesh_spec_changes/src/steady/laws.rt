// What the definitions give.
ghost use Rattle.mesh_house.specs.declared.world.World.{World};
ghost use Rattle.mesh_spec_changes.specs.steady.Arrives.{Arrives};

/// Sources that stay as they are arrive.
pub fn unchanged_sources_arrive()
    ensures { (w : World) → Arrives w w.sources }
{}
