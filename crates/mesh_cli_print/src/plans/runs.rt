// Runs of what is due.
ghost use Rattle.std.specs.Prelude.{◌≡◌, ◌<◌, ◌≤◌, ◌+◌, suc, drop, length, IsTrue, IsFalse};
ghost use Rattle.mesh_cli_print.specs.plans.Runs.{adjoin, first_run};

use mesh_base::Due;

fn adjoin(a: &Due, b: &Due) -> bool
    ensures { result ≡ adjoin a.now b.now }
{
    match a {
        Due::Whole { .. } => false,
        Due::Unit { node, end, .. } => match b {
            Due::Whole { .. } => false,
            Due::Unit {
                node: other,
                start,
                ..
            } => *node == *other && *end == *start,
        },
    }
}

// Whether the unit at a place is the last one of its run.
#[tactic(auto, using(crate::proofs::plans::Splits::ends_here, crate::proofs::plans::Splits::goes_on, crate::proofs::plans::Splits::last_one))]
fn is_last(dues: &[Due], i: usize) -> bool
    requires { i < length dues.now }
    ensures last { IsTrue result → first_run (drop i dues.now) ≡ 1 }
    ensures more { IsFalse result → first_run (drop i dues.now) ≡ suc (first_run (drop (i + 1) dues.now)) }
{
    if i + 1 < dues.len() {
        !adjoin(&dues[i], &dues[i + 1])
    } else {
        true
    }
}

/// How many of what is due the first run has.
pub(crate) fn first_run(dues: &[Due]) -> usize
    ensures value { result ≡ first_run dues.now }
    ensures bound { result ≤ length dues.now }
{
    for i in 0..dues.len() {
        if is_last(dues, i) {
            return i + 1;
        }
    }
    dues.len()
}
