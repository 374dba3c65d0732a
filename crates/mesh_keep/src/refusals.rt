// Refusals that are counted.
ghost use Rattle.std.specs.Prelude.{◌≡◌, ◌≤◌};
ghost use Rattle.mesh_list.specs.Counts.{Rose};
ghost use Rattle.mesh_keep.specs.declared.keeper.KeepFail.TheVariants.{Failed};

use crate::keeper::KeepFail;

/// The same refusal, which is counted where it isn't want of memory.
pub fn counted(faults: &mut u64, fail: KeepFail) -> KeepFail
    ensures same { result ≡ fail }
    ensures kept { faults.old ≤ faults.new }
    ensures rose { result ≡ Failed → Rose faults.old faults.new }
{
    match fail {
        KeepFail::Failed => {
            *faults = faults.saturating_add(1);
            KeepFail::Failed
        }
        KeepFail::Memory => KeepFail::Memory,
    }
}
