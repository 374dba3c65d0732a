// The laws of commands. These functions compute nothing.
ghost use Rattle.std.specs.Prelude.{◌≡◌, ◌⊎◌, ◌↔◌, ℕ, ℤ, List, Ok, Err, Result, true, false};
ghost use Rattle.std.specs.declared.option.Option.{Option};
ghost use Rattle.mesh_list.specs.Counts.{Rose};
ghost use Rattle.mesh_base.specs.declared.forgets.Restate.{Restate};
ghost use Rattle.mesh_house.specs.declared.world.Change.{Change};
ghost use Rattle.mesh_house.specs.declared.world.World.{World};
ghost use Rattle.mesh_house.specs.Runs.{IsRun};
ghost use Rattle.mesh_layer.specs.Shows.{Tells};
ghost use Rattle.mesh_cli_answer.specs.Answers.{IsAlone, is_early, is_fault};
ghost use Rattle.mesh_cli_print.specs.declared.printed.refusals.Refusal.{Refusal};
ghost use Rattle.mesh_cli_words.specs.declared.line.Command.{Command as Asked};
ghost use Rattle.mesh_cli_words.specs.declared.line.Command.TheVariants as asked;
ghost use Rattle.mesh_cli.specs.cli.Asked.{Gives, Makes};
ghost use Rattle.mesh_cli.specs.cli.Ends.{Ended};
ghost use Rattle.mesh_cli_print.specs.printed.Printing.{IsWritten, Sinks};
ghost use Rattle.mesh_cli.specs.cli.Sides.{Sides};

/// A command that ends with status 0 made exactly the changes that it has for the world that the house told, one call
/// each, and wrote the text that it gives there; nothing was written on the other sink.
#[tactic(auto, using(crate::proofs::cli::Ending::done_made, crate::proofs::cli::Ending::done_told))]
pub fn commands_that_are_done_made_their_changes()
    ensures made { (dir : List ℕ) (c : Asked) (old new : Sides) (sinks printed : Sinks) (w : World) → Ended dir c old new sinks printed 0 → Tells old.house w →
        (list : List Change) × Makes dir old c w list × IsRun list w old.house.calls new.house }
    ensures told { (dir : List ℕ) (c : Asked) (old new : Sides) (sinks printed : Sinks) (w : World) → Ended dir c old new sinks printed 0 → Tells old.house w →
        (text : List ℕ) × Gives dir old c w (Ok text) × IsWritten text sinks.out printed.out × (printed.err ≡ sinks.err) }
{}

/// A command that is refused before its changes leaves the house alone.
#[tactic(auto, using(crate::proofs::cli::Ending::refused_left_alone))]
pub fn commands_that_are_refused_change_nothing()
    ensures { (dir : List ℕ) (c : Asked) (old new : Sides) (sinks printed : Sinks) (s : ℕ) → (ended : Ended dir c old new sinks printed s) → (r : Refusal) → ended.answer ≡ Err r → is_early r ≡ true → IsAlone old.house new.house }
{}

/// A command for which nothing stands against it in the world that the house told, and during which nothing failed,
/// ends with status 0, or with 4 for want of memory.
#[tactic(auto, using(crate::proofs::cli::Ending::nothing_against_it))]
pub fn commands_without_a_refusal_are_done()
    ensures { (dir : List ℕ) (c : Asked) (old new : Sides) (sinks printed : Sinks) (w : World) (s : ℕ) → Ended dir c old new sinks printed s → Tells old.house w →
        ((r : Refusal) → is_fault r ≡ false → ¬ Gives dir old c w (Err r)) → ¬ Rose old.house.faults new.house.faults → ¬ Rose old.folder.faults new.folder.faults → ¬ Rose old.clock.faults new.clock.faults →
        ¬ Rose sinks.out.faults printed.out.faults → ¬ Rose sinks.err.faults printed.err.faults → (s ≡ 0) ⊎ (s ≡ 4) }
{}

/// What a command makes and gives is the same for every number of workers.
pub fn workers_change_nothing()
    ensures made { (dir env : List ℕ) (s : Sides) (few many : ℕ) (moment : Option ℤ) (again : Option Restate) (w : World) (list : List Change) → Makes dir s (asked.Apply env few moment again) w list → Makes dir s (asked.Apply env many moment again) w list }
    ensures given { (dir env : List ℕ) (s : Sides) (few many : ℕ) (moment : Option ℤ) (again : Option Restate) (w : World) (answer : Result (List ℕ) Refusal) → Gives dir s (asked.Apply env few moment again) w answer → Gives dir s (asked.Apply env many moment again) w answer }
    ensures run_made { (dir env : List ℕ) (s : Sides) (few many : ℕ) (moment : Option ℤ) (w : World) (list : List Change) → Makes dir s (asked.Run env few moment) w list → Makes dir s (asked.Run env many moment) w list }
    ensures demo_given { (dir : List ℕ) (s : Sides) (n few many : ℕ) (w : World) (answer : Result (List ℕ) Refusal) → Gives dir s (asked.Demo n few) w answer → Gives dir s (asked.Demo n many) w answer }
    ensures run_given { (dir env : List ℕ) (s : Sides) (few many : ℕ) (moment : Option ℤ) (w : World) (answer : Result (List ℕ) Refusal) → Gives dir s (asked.Run env few moment) w answer → Gives dir s (asked.Run env many moment) w answer }
{}

/// A plan that is applied at once makes and gives what an apply does.
pub fn plans_applied_at_once_are_applies()
    ensures made { (dir env : List ℕ) (s : Sides) (workers : ℕ) (moment : Option ℤ) (again : Option Restate) (w : World) (list : List Change) → Makes dir s (asked.Plan env true workers moment again) w list ↔ Makes dir s (asked.Apply env workers moment again) w list }
    ensures given { (dir env : List ℕ) (s : Sides) (workers : ℕ) (moment : Option ℤ) (again : Option Restate) (w : World) (answer : Result (List ℕ) Refusal) → Gives dir s (asked.Plan env true workers moment again) w answer ↔ Gives dir s (asked.Apply env workers moment again) w answer }
{}
