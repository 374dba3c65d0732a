// Which places reach themselves.
ghost use Rattle.std.specs.Prelude.{◌≡◌, ◌<◌, IsTrue, ◌↔◌, [], ◌∷◌, false, length, replicate, All, IfOk, OnOk};
ghost use Rattle.mesh_project.specs.order.Order.{Reaches};
ghost use Rattle.mesh_project.specs.order.Links.{AreWithin, leads};
ghost use Rattle.mesh_project.specs.order.Seen.{AreMarks, AreSeen, IsGrown, some_lead_to};

use crate::order::links::links_at;
use mesh_list::{Memory, Seq};
use std::alloc::Global;

/// Places, and for each place whether it is one of them.
#[derive(Drop)]
struct Seen {
    marks: Vec<bool>,
    list: Vec<u32>,
}

fn mark(seen: &mut Seen, at: u32) -> Result<(), Memory>
    requires marks { AreMarks seen.old.marks.items seen.old.list.items }
    requires within { at < length seen.old.marks.items }
    ensures marks { OnOk result (AreMarks seen.new.marks.items seen.new.list.items) }
    ensures grown { OnOk result (IsGrown seen.old.list.items seen.new.list.items (at ∷ [])) }
    ensures as_many { OnOk result (length seen.new.marks.items ≡ length seen.old.marks.items) }
{
    if !seen.marks[at as usize] {
        seen.marks[at as usize] = true;
        seen.list.push(at)?;
    }
    Ok(())
}

fn mark_all(seen: &mut Seen, places: &[u32]) -> Result<(), Memory>
    requires marks { AreMarks seen.old.marks.items seen.old.list.items }
    requires within { All (λ at. at < length seen.old.marks.items) places.now }
    ensures marks { OnOk result (AreMarks seen.new.marks.items seen.new.list.items) }
    ensures grown { OnOk result (IsGrown seen.old.list.items seen.new.list.items places.now) }
    ensures as_many { OnOk result (length seen.new.marks.items ≡ length seen.old.marks.items) }
{
    for at in places {
        mark(seen, *at)?;
    }
    Ok(())
}

fn no_marks(alloc: Global, count: usize) -> Result<Vec<bool>, Memory>
    ensures { IfOk result (λ made. made.items ≡ replicate count false) }
{
    let mut marks = Vec::new(alloc);
    marks.resize(count, false)?;
    Ok(marks)
}

// This place alone.
fn seen_first(alloc: Global, count: usize, at: u32) -> Result<Seen, Memory>
    requires { at < count }
    ensures marks { IfOk result (λ seen. AreMarks seen.marks.items seen.list.items) }
    ensures list { IfOk result (λ seen. seen.list.items ≡ at ∷ []) }
    ensures as_many { IfOk result (λ seen. length seen.marks.items ≡ count) }
{
    let mut marks = no_marks(alloc, count)?;
    marks[at as usize] = true;
    let mut list = Vec::new(alloc);
    list.push(at)?;
    Ok(Seen { marks, list })
}

// This place and all that are reached from it.
fn seen_from(alloc: Global, links: &[Seq<u32>], at: u32) -> Result<Vec<u32>, Memory>
    requires within { AreWithin links.now }
    requires place { at < length links.now }
    ensures { IfOk result (λ seen. AreSeen links.now at seen.items (length seen.items)) }
{
    let mut seen = seen_first(alloc, links.len(), at)?;
    let mut next = 0;
    while next < seen.list.len() {
        let place = seen.list[next];
        mark_all(&mut seen, links_at(links, place))?;
        next += 1;
    }
    let Seen { marks: _, list } = seen;
    Ok(list)
}

fn leads_to(links: &[Seq<u32>], from: u32, to: u32) -> bool
    ensures { result ≡ leads links.now from to }
{
    for at in links_at(links, from) {
        if to == *at {
            return true;
        }
    }
    false
}

fn some_lead_to(links: &[Seq<u32>], seen: &[u32], to: u32) -> bool
    ensures { result ≡ some_lead_to links.now seen.now to }
{
    for from in seen {
        if leads_to(links, *from, to) {
            return true;
        }
    }
    false
}

/// Whether a place reaches itself.
pub(crate) fn reaches_itself(alloc: Global, links: &[Seq<u32>], at: u32) -> Result<bool, Memory>
    requires within { AreWithin links.now }
    requires place { at < length links.now }
    ensures { IfOk result (λ does. IsTrue does ↔ Reaches (leads links.now) at at) }
{
    let seen = seen_from(alloc, links, at)?;
    Ok(some_lead_to(links, seen.as_slice(), at))
}
