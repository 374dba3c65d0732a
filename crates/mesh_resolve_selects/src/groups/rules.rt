// The rule on groups: the first place where it is broken.
ghost use Rattle.std.specs.Prelude.{◌≡◌, IfOk};
ghost use Rattle.mesh_resolve_selects.specs.groups.Grouping.{breaking, earlier, earliest, misplaced, ungrouped};

use crate::groups::barred::bar;
use crate::groups::places::place;
use mesh_base::Expr;
use mesh_list::{Memory, Seq};
use std::alloc::Global;

fn first_broken(marks: &[u64], breaches: &[bool]) -> Option<u64>
    ensures { result ≡ earliest (breaking marks.now breaches.now) }
{
    let mut found = None;
    let most = if marks.len() < breaches.len() {
        marks.len()
    } else {
        breaches.len()
    };
    let mut i = most;
    while i > 0 {
        i -= 1;
        if breaches[i] {
            found = Some(earlier(marks[i], found));
        }
    }
    found
}

fn earlier(mark: u64, found: Option<u64>) -> u64
    ensures { Some result ≡ earlier mark found }
{
    match found {
        Some(other) if other < mark => other,
        _ => mark,
    }
}

/// Where the first aggregate stands in an expression that may have none, as ON, WHERE and a key.
#[tactic(auto, unfolding(crate::specs::groups::Grouping::misplaced))]
pub fn misplaced(alloc: Global, marks: &[u64], e: &Expr) -> Result<Option<u64>, Memory>
    ensures { IfOk result (λ made. made ≡ misplaced marks.now e.now) }
{
    let mut breaches = Seq::new(alloc);
    bar(e, &mut breaches)?;
    Ok(first_broken(marks, breaches.as_slice()))
}

/// Where an item or HAVING breaks the rule first. `marks` are the places of its columns and aggregates, in their order.
#[tactic(auto, unfolding(crate::specs::groups::Grouping::ungrouped))]
pub fn ungrouped(
    alloc: Global,
    grouped: bool,
    keys: &[Expr],
    marks: &[u64],
    e: &Expr,
) -> Result<Option<u64>, Memory>
    ensures { IfOk result (λ made. made ≡ ungrouped grouped keys.now marks.now e.now) }
{
    let mut breaches = Seq::new(alloc);
    place(e, keys, !grouped, &mut breaches)?;
    Ok(first_broken(marks, breaches.as_slice()))
}
