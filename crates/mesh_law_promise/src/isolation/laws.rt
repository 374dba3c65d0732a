// What the definitions give.
ghost use Rattle.std.specs.Prelude.{◌++◌, ◌≡◌, ℕ, ℤ, Some, List, false};
ghost use Rattle.mesh_base.specs.declared.snapshots.Env.{Env};
ghost use Rattle.mesh_base.specs.declared.snapshots.Ref.{Ref};
ghost use Rattle.mesh_base.specs.declared.snapshots.Snapshot.{Snapshot};
ghost use Rattle.mesh_house_book.specs.declared.versions.Version.{Version};
ghost use Rattle.mesh_spec_model.specs.Horizons.{Clock};
ghost use Rattle.mesh_house.specs.Step.{run};
ghost use Rattle.mesh_house.specs.World.{version_of, view};
ghost use Rattle.mesh_house.specs.declared.world.Change.{Change};
ghost use Rattle.mesh_house.specs.declared.world.World.{World};
ghost use Rattle.mesh_spec_changes.specs.listed.Closing.{IsSnapshot};
ghost use Rattle.mesh_spec_changes.specs.due.Parts.{Parts};
ghost use Rattle.mesh_spec_changes.specs.Commands.{Command, changes};
ghost use Rattle.mesh_spec_changes.specs.Environments.{IsEnv, env_at, is_over, view_in};
ghost use Rattle.mesh_spec_changes.specs.Kept.{sweeps};
ghost use Rattle.mesh_spec_promise.specs.Histories.{IsAsked, IsMet, Settles, met};
ghost use Rattle.mesh_spec_promise.specs.Sound.{IsEntry, Sound};
ghost use Rattle.mesh_law_promise.specs.isolation.Isolation.{DropsNone, KeepsRows, LeavesOut, again_in};

/// At every exit of a command, each environment but the one that an apply is for, or that is to go, has the record
/// that it had, with both of its lists, and each of its views points where it pointed. This asks for no settling.
pub fn other_environments_stay()
    ensures { (x : Parts) (w : World) (c : Command) (clock : Clock) → Sound x w → IsAsked clock w c → (made rest : List Change) → changes clock c w ≡ made ++ rest →
        (e : Env) → IsEnv w.book e → LeavesOut c e.name →
        IsEnv (run w made).book e × ((r : Ref) → IsEntry e r → view (run w made) (view_in e.name r.name) ≡ view w (view_in e.name r.name)) }
{}

/// Nor does another environment appear: of any name that is left out the book has the environment that it had, or
/// still none.
pub fn no_other_environment_appears()
    ensures { (x : Parts) (w : World) (c : Command) (clock : Clock) → Sound x w → IsAsked clock w c → (made rest : List Change) → changes clock c w ≡ made ++ rest →
        (name : List ℕ) → LeavesOut c name → env_at (run w made).book name ≡ env_at w.book name }
{}

/// The janitor takes away no environment that isn't over at its moment, and adds none: wherever it stops, of any name
/// whose environment isn't over, where there is one, the book has the environment that it had, or still none.
pub fn the_janitor_leaves_other_records()
    ensures { (x : Parts) (w : World) (t : ℤ) → Sound x w → (made rest : List Change) → sweeps w.book t ≡ made ++ rest →
        (name : List ℕ) → ((e : Env) → env_at w.book name ≡ Some e → is_over t e.expires ≡ false) → env_at (run w made).book name ≡ env_at w.book name }
{}

/// At every exit of a command that settles and isn't the janitor's, what is recorded of a table and isn't in doubt
/// has the rows that it had, each as often, whichever environments share the table, and even where it is forgotten
/// and computed again. Of a FULL table it is what is recorded where its marks are its model's at the command's
/// moment.
pub fn what_is_recorded_keeps_its_rows()
    ensures { (x : Parts) (w : World) (c : Command) (before after : Clock) → IsMet before after w c → Sound x w → Settles after c w (met before after c w x) → DropsNone c →
        (made rest : List Change) → changes after c w ≡ made ++ rest →
        (s : Snapshot) → IsSnapshot w.book.snapshots s → (v : Version) → version_of w.book s.object ≡ Some v →
        KeepsRows before after (met before after c w x) w (run w made) s v s.own.kind }
{}

/// Whether a command settles or not, and whatever is in doubt, at every exit of a command that isn't the janitor's
/// what is recorded of a table and isn't computed again has the rows that it had, each as often; of a FULL table
/// where its recorded marks are its model's at the command's moment.
pub fn what_is_not_computed_again_keeps_its_rows()
    ensures { (x : Parts) (w : World) (c : Command) (before after : Clock) → IsMet before after w c → Sound x w → DropsNone c →
        (made rest : List Change) → changes after c w ≡ made ++ rest →
        (s : Snapshot) → IsSnapshot w.book.snapshots s → (v : Version) → version_of w.book s.object ≡ Some v →
        KeepsRows before after (again_in c) w (run w made) s v s.own.kind }
{}
