// What a command leaves of the environments that it isn't for, and of what is recorded.
ghost use Rattle.std.specs.Prelude.{◌≡◌, ℕ, ℤ, false, List, Some, Result};
ghost use Rattle.std.specs.declared.option.Option.{Option};
ghost use Rattle.mesh_base.specs.declared.snapshots.Env.{Env};
ghost use Rattle.mesh_base.specs.declared.snapshots.Ref.{Ref};
ghost use Rattle.mesh_base.specs.declared.snapshots.Snapshot.{Snapshot};
ghost use Rattle.mesh_house_book.specs.declared.versions.Version.{Version};
ghost use Rattle.mesh_house.specs.World.{version_of, view};
ghost use Rattle.mesh_house.specs.declared.world.World.{World};
ghost use Rattle.mesh_spec_changes.specs.shown.Shown.{view_rows};
ghost use Rattle.mesh_spec_changes.specs.listed.Closing.{IsSnapshot};
ghost use Rattle.mesh_spec_changes.specs.due.Parts.{Parts};
ghost use Rattle.mesh_spec_changes.specs.Commands as promise;
ghost use Rattle.mesh_spec_changes.specs.Environments.{IsEnv, env_at, is_over, view_in};
ghost use Rattle.mesh_layer.specs.Shows.{Tells};
ghost use Rattle.mesh_cli_print.specs.declared.printed.refusals.Refusal.{Refusal};
ghost use Rattle.mesh_spec_promise.specs.Sound.{IsEntry, Sound};
ghost use Rattle.mesh_cli_words.specs.declared.line.Command.{Command};
ghost use Rattle.mesh_cli_words.specs.declared.line.Command.TheVariants.{Janitor};
ghost use Rattle.mesh_cli.specs.cli.Ends.{Commanded};
ghost use Rattle.mesh_cli.specs.cli.Sides.{Sides};
ghost use Rattle.mesh_cli.specs.promise.Others.{HasStayed, IsForOthers, KeepsTables, StillHas};
ghost use Rattle.mesh_cli.specs.promise.Promised.{AsksFor};

/// Where the house tells a world that is sound but for some parts, then once a command has answered, whatever it
/// answers and whether it settles or not, each environment that it isn't for has its record and its views as they
/// were in the world that the house tells. The janitor and a migration are left out.
pub fn commands_leave_other_environments()
    ensures { (dir : List ℕ) (c : Command) (old new : Sides) (answer : Result (List ℕ) Refusal) → Commanded dir c old new answer → (x : Parts) (w : World) → Tells old.house w → Sound x w →
        (e : Env) → IsEnv w.book e → IsForOthers c e.name → (v : World) × (new.house.world ≡ Some v) × HasStayed e w v }
{}

/// Nor does another environment appear: of any name that the command isn't for, the book has the environment that it
/// had, or still none.
pub fn commands_make_no_other_environment()
    ensures { (dir : List ℕ) (c : Command) (old new : Sides) (answer : Result (List ℕ) Refusal) → Commanded dir c old new answer → (x : Parts) (w : World) → Tells old.house w → Sound x w →
        (name : List ℕ) → IsForOthers c name → (v : World) × (new.house.world ≡ Some v) × (env_at v.book name ≡ env_at w.book name) }
{}

/// And what is recorded of a table, and isn't computed again by the command, has the rows that it had, each as often;
/// of a FULL table where its recorded marks are its model's at the command's moment. The janitor, which drops tables,
/// is left out.
pub fn commands_keep_rows_that_they_do_not_compute_again()
    ensures { (dir : List ℕ) (c : Command) (old new : Sides) (answer : Result (List ℕ) Refusal) → Commanded dir c old new answer → (x : Parts) (w : World) → Tells old.house w → Sound x w → KeepsTables c →
        (s : Snapshot) → IsSnapshot w.book.snapshots s → (version : Version) → version_of w.book s.object ≡ Some version → (v : World) × (new.house.world ≡ Some v) × StillHas dir old c w s version v }
{}

/// Once the janitor has answered, each view of an environment that isn't over at its moment points where it pointed,
/// and shows the rows that it showed.
pub fn the_janitor_leaves_other_views()
    ensures { (dir : List ℕ) (moment : Option ℤ) (old new : Sides) (answer : Result (List ℕ) Refusal) → Commanded dir (Janitor moment) old new answer → (x : Parts) (w : World) → Tells old.house w → Sound x w →
        (e : Env) → IsEnv w.book e → ((t : ℤ) → AsksFor dir old (Janitor moment) w (promise.Janitor t) → is_over t e.expires ≡ false) →
        (v : World) × (new.house.world ≡ Some v) × ((r : Ref) → IsEntry e r → (view v (view_in e.name r.name) ≡ view w (view_in e.name r.name)) × (view_rows v (view_in e.name r.name) ≡ view_rows w (view_in e.name r.name))) }
{}

/// And of any name whose environment isn't over at its moment, where there is one, the book has the record that it
/// had, or still none.
pub fn the_janitor_leaves_other_records()
    ensures { (dir : List ℕ) (moment : Option ℤ) (old new : Sides) (answer : Result (List ℕ) Refusal) → Commanded dir (Janitor moment) old new answer → (x : Parts) (w : World) → Tells old.house w → Sound x w →
        (name : List ℕ) → ((t : ℤ) → AsksFor dir old (Janitor moment) w (promise.Janitor t) → (e : Env) → env_at w.book name ≡ Some e → is_over t e.expires ≡ false) →
        (v : World) × (new.house.world ≡ Some v) × (env_at v.book name ≡ env_at w.book name) }
{}
