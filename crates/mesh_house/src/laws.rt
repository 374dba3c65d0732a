// What several calls that make changes leave of a house, one after another.
ghost use Rattle.std.specs.Prelude.{◌≡◌, List, ◌++◌};
ghost use Rattle.std.specs.Option.{ForSome};
ghost use Rattle.mesh_house.specs.declared.world.World.{World};
ghost use Rattle.mesh_house.specs.declared.world.Change.{Change};
ghost use Rattle.mesh_house.specs.Step.{run};
ghost use Rattle.mesh_house.specs.House.{Told};
ghost use Rattle.mesh_house.specs.Runs.{Ran, Stopped};

/// Where a call made all of its changes, a second one goes on from the world that they left: both made all of the two
/// lists, one after the other, or a prefix of them, in which the changes of the first call are sure.
pub fn calls_go_on_from_one_another()
    ensures ran { (f g h : World → List Change) (a b c : Told) → Ran f a b → Ran g b c → ForSome a.world (λ w. h w ≡ f w ++ g (run w (f w))) → Ran h a c }
    ensures stopped { (f g h rest : World → List Change) (a b c : Told) → Ran f a b → Stopped g b c → ForSome a.world (λ w. h w ≡ f w ++ (g (run w (f w)) ++ rest w)) → Stopped h a c }
{}
