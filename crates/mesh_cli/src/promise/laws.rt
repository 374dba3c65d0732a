// What the clauses of the public call give, by the promise.
ghost use Rattle.std.specs.Prelude.{◌≡◌, ℕ, false, List, Some, Result};
ghost use Rattle.mesh_base.specs.declared.forgets.Forget.{Forget};
ghost use Rattle.mesh_spec_model.specs.Horizons.{Clock, Shows};
ghost use Rattle.mesh_house.specs.declared.world.Change.{Change};
ghost use Rattle.mesh_house.specs.World.{empty_world};
ghost use Rattle.mesh_house.specs.declared.world.World.{World};
ghost use Rattle.mesh_spec_changes.specs.Commands.{Command as Promised, changes};
ghost use Rattle.mesh_spec_changes.specs.due.Parts.{Parts, all_parts, no_parts};
ghost use Rattle.mesh_io.specs.Told.{SourceTold};
ghost use Rattle.mesh_layer.specs.Shows.{Tells};
ghost use Rattle.mesh_cli_print.specs.declared.printed.refusals.Refusal.{Refusal};
ghost use Rattle.mesh_cli_print.specs.printed.Printing.{Sinks};
ghost use Rattle.mesh_spec_changes.specs.steady.Arrives.{Arrives};
ghost use Rattle.mesh_law_steady.specs.Projects.{IsSteadyBook};
ghost use Rattle.mesh_spec_promise.specs.Histories.{judged_at, sources_after};
ghost use Rattle.mesh_spec_promise.specs.Sound.{Sound};
ghost use Rattle.mesh_cli_words.specs.Lines.{IsLine};
ghost use Rattle.mesh_cli_words.specs.declared.line.Command.{Command};
ghost use Rattle.mesh_cli_words.specs.declared.line.Line.{Line};
ghost use Rattle.mesh_cli.specs.cli.Asked.{Makes};
ghost use Rattle.mesh_cli.specs.cli.Ends.{Commanded, Ended};
ghost use Rattle.mesh_cli.specs.cli.Scripts.{AskedEnds, IsTextLine, WordsEnd};
ghost use Rattle.mesh_cli.specs.cli.Sides.{Sides, here, place_or};
ghost use Rattle.mesh_cli.specs.promise.Histories.{Events};
ghost use Rattle.mesh_cli.specs.promise.Kept.{AllSettle, CallIsStill, CallSettles, IsAllMade, IsSettled, IsStill, LineSettles, TellsFormed, TellsLeft, TellsSound};
ghost use Rattle.mesh_cli.specs.promise.Promised.{AsksFor, LeavesIt};

use mesh_spec_promise::the_empty_world_is_sound;

/// The changes of a command line are those of a command of the promise that it asks for, whichever clock shows the
/// moment.
pub fn what_is_made_is_asked_of_the_promise()
    ensures { (dir : List ℕ) (s : Sides) (c : Command) (w : World) (list : List Change) → Makes dir s c w list →
        (k : Promised) × AsksFor dir s c w k × ((clock : Clock) → Shows clock (judged_at w k) → list ≡ changes clock k w) }
{}

/// Where the house tells a world that is sound but for some parts, and what a command line asks for settles there,
/// then once the command has answered, whatever it answers, the house tells a world that is sound but for what the
/// changes made leave in doubt.
pub fn commands_keep_worlds_sound()
    ensures { (dir : List ℕ) (c : Command) (old new : Sides) (answer : Result (List ℕ) Refusal) → Commanded dir c old new answer → (x : Parts) (w : World) → Tells old.house w → Sound x w → (settled : LineSettles dir old c x w) →
        TellsLeft dir old c x w settled new.house }
{}

/// Where such a command ends with status 0, all of its changes were made, and an apply, a run and a plan that is
/// applied at once leave their environment final: each of its views shows the rows that its model has from scratch at
/// that moment, and no other view of it stands.
pub fn commands_at_status_0_leave_what_they_promise()
    ensures { (dir : List ℕ) (c : Command) (old new : Sides) (sinks printed : Sinks) → Ended dir c old new sinks printed 0 → (x : Parts) (w : World) → Tells old.house w → Sound x w → (settled : LineSettles dir old c x w) →
        (v : World) × (new.house.world ≡ Some v) × (k : Promised) × (asks : AsksFor dir old c w k) × IsAllMade x w k (settled k asks) v × LeavesIt (settled k asks).after k w v }
{}

/// So does the line that the words of a call ask for, and each line of a script.
pub fn lines_at_status_0_leave_what_they_promise()
    ensures words { (words : List (List ℕ)) (dir : List ℕ) (old new : Sides) (sinks printed : Sinks) → AskedEnds (IsLine words) dir old new sinks printed 0 → (x : Parts) (w : World) → Tells old.house w → Sound x w →
        (settled : AllSettle (IsLine words) dir old x w) →
        (line : Line) × (as_asked : IsLine words line) × (v : World) × (new.house.world ≡ Some v) × (k : Promised) × (asked : AsksFor (place_or line.paths dir) old line.command w k) × IsAllMade x w k (settled line as_asked k asked) v × LeavesIt (settled line as_asked k asked).after k w v }
    ensures script { (text : List ℕ) (dir : List ℕ) (old new : Sides) (sinks printed : Sinks) → AskedEnds (IsTextLine text) dir old new sinks printed 0 → (x : Parts) (w : World) → Tells old.house w → Sound x w →
        (settled : AllSettle (IsTextLine text) dir old x w) →
        (line : Line) × (as_asked : IsTextLine text line) × (v : World) × (new.house.world ≡ Some v) × (k : Promised) × (asked : AsksFor (place_or line.paths dir) old line.command w k) × IsAllMade x w k (settled line as_asked k asked) v × LeavesIt (settled line as_asked k asked).after k w v }
{}

/// Where no recorded rows would come out otherwise through a command, and nothing is in doubt, it settles.
pub fn what_is_still_settles()
    ensures { (x : Parts) → ((q : Forget) → x q ≡ false) → (w : World) (k : Promised) → IsStill w k → IsSettled x w k }
{}

/// Events that go on from events are events.
pub fn events_go_on_from_one_another()
    ensures { (w u : World) (x y : Parts) → Events w x u y → (v : World) (z : Parts) → Events u y v z → Events w x v z }
{}

/// A call whose words end as the public call says, a batch too, is events, where all that it asks for settles.
pub fn calls_are_events()
    ensures { (words : List (List ℕ)) (input rest : SourceTold) (old new : Sides) (sinks printed : Sinks) (s : ℕ) (ends : WordsEnd words input rest old new sinks printed s) → (x : Parts) (w : World) → old.house.world ≡ Some w → Sound x w → CallSettles ends x w →
        (v : World) × (y : Parts) × (new.house.world ≡ Some v) × Events w x v y }
{}

/// So is one through each of whose lines nothing comes out otherwise, in the world that those before it leave; where
/// nothing is in doubt before it, nothing is behind it.
pub fn still_calls_are_events()
    ensures { (words : List (List ℕ)) (input rest : SourceTold) (old new : Sides) (sinks printed : Sinks) (s : ℕ) (ends : WordsEnd words input rest old new sinks printed s) → CallIsStill ends → (x : Parts) (w : World) → old.house.world ≡ Some w → Sound x w →
        ((q : Forget) → x q ≡ false) → (v : World) × (y : Parts) × (new.house.world ≡ Some v) × ((q : Forget) → y q ≡ false) × Events w x v y }
{}

/// Whatever events there are, each over any project, at any moment, and stopped anywhere, they lead from a world that
/// is sound but for some parts to one that is sound but for what is then in doubt; so from the empty world, where
/// nothing is.
pub fn worlds_of_events_are_sound()
    ensures sound { (w : World) (x : Parts) → Sound x w → (v : World) (y : Parts) → Events w x v y → Sound y v }
    ensures from_the_empty_one { (w : World) (x : Parts) → Events empty_world no_parts w x → Sound x w }
{
    the_empty_world_is_sound();
}

/// After them an apply, a run, or a plan that is applied at once, which settles and ends with status 0, leaves its
/// environment final: each view shows the rows that its model has from scratch. So does a line of a script.
pub fn calls_show_rows_from_scratch()
    ensures words { (w : World) (x : Parts) → Events empty_world no_parts w x → (words : List (List ℕ)) (old new : Sides) (sinks printed : Sinks) → old.house.world ≡ Some w → AskedEnds (IsLine words) here old new sinks printed 0 →
        (settled : AllSettle (IsLine words) here old x w) →
        (line : Line) × (as_asked : IsLine words line) × (v : World) × (new.house.world ≡ Some v) × (k : Promised) × (asked : AsksFor (place_or line.paths here) old line.command w k) × IsAllMade x w k (settled line as_asked k asked) v × LeavesIt (settled line as_asked k asked).after k w v }
    ensures script { (w : World) (x : Parts) → Events empty_world no_parts w x → (text dir : List ℕ) (old new : Sides) (sinks printed : Sinks) → old.house.world ≡ Some w → AskedEnds (IsTextLine text) dir old new sinks printed 0 →
        (settled : AllSettle (IsTextLine text) dir old x w) →
        (line : Line) × (as_asked : IsTextLine text line) × (v : World) × (new.house.world ≡ Some v) × (k : Promised) × (asked : AsksFor (place_or line.paths dir) old line.command w k) × IsAllMade x w k (settled line as_asked k asked) v × LeavesIt (settled line as_asked k asked).after k w v }
{
    the_empty_world_is_sound();
}

/// Where the house tells a world that is sound but for some parts, then once a command has answered, whether it
/// settles or not, it tells one that is sound but for these, those that move by the command, and all parts of the
/// objects that it plans.
pub fn commands_keep_worlds_formed()
    ensures { (dir : List ℕ) (c : Command) (old new : Sides) (answer : Result (List ℕ) Refusal) → Commanded dir c old new answer → (x : Parts) (w : World) → Tells old.house w → Sound x w →
        TellsFormed dir old c x w new.house }
{}

/// Every call, whether it settles or not, leaves a world formed that was.
pub fn calls_keep_worlds_formed()
    ensures { (words : List (List ℕ)) (input rest : SourceTold) (old new : Sides) (sinks printed : Sinks) (s : ℕ) → WordsEnd words input rest old new sinks printed s → TellsSound all_parts old.house → TellsSound all_parts new.house }
{}

/// Through a command that raises no moment and loads no source nothing comes out otherwise.
pub fn commands_within_a_moment_are_still()
    ensures { (x : Parts) (w : World) → Sound x w → (k : Promised) → judged_at w k ≡ w.book.moment → sources_after w k ≡ w.sources → (clock : Clock) → Shows clock w.book.moment → IsStill w k }
{}

/// Nor does anything through any command in a book whose snapshots are steady and even, where sources change in later
/// rows alone.
pub fn steady_projects_are_still()
    ensures { (x : Parts) (w : World) → Sound x w → IsSteadyBook w.book → (k : Promised) → Arrives w (sources_after w k) → (before after : Clock) → Shows before w.book.moment → Shows after (judged_at w k) → IsStill w k }
{}
