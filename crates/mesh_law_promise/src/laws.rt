// What the definitions give.
ghost use Rattle.mesh_spec_changes.specs.due.Parts.{Parts};
ghost use Rattle.mesh_house.specs.declared.world.World.{World};
ghost use Rattle.mesh_spec_promise.specs.Histories.{History, LeavesFinal, RunLeavesFinal, RunsShowRowsFromScratch, ShowsRowsFromScratch, StaysSound};
ghost use Rattle.mesh_spec_promise.specs.Sound.{Sound};

use mesh_spec_promise::the_empty_world_is_sound;

/// At every exit of a command that settles a world stays sound, but for the parts that were in doubt or move by the
/// command and which its changes have not taken out of doubt.
pub fn commands_keep_worlds_sound()
    ensures { StaysSound }
{}

/// An apply that isn't refused, settles, and whose changes are all made, leaves its environment final: each view
/// shows its model's rows from scratch, and no other view of it stands.
pub fn applies_leave_their_environment_final()
    ensures { LeavesFinal }
{}

/// So does a run.
pub fn runs_leave_their_environment_final()
    ensures { RunLeavesFinal }
{}

/// Any list of commands from the empty world, each of which settles and is made up to any of its changes, leaves a
/// world that is sound but for the parts still in doubt.
pub fn worlds_of_histories_are_sound()
    ensures { (w : World) (x : Parts) → History w x → Sound x w }
{
    the_empty_world_is_sound();
}

/// After such a history an apply or a run that isn't refused, settles, and whose changes are all made, shows each
/// model's rows from scratch.
pub fn histories_show_rows_from_scratch()
    ensures applies { ShowsRowsFromScratch }
    ensures runs { RunsShowRowsFromScratch }
{
    the_empty_world_is_sound();
}
