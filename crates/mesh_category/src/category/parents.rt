// Whether the parents of two models are compatible, pair by pair.
ghost use Rattle.std.specs.Prelude.{◌≡◌, false, slice_index_or};
ghost use Rattle.std.specs.List.{slice_get};
ghost use Rattle.std.specs.Option.{option_copied};
ghost use Rattle.mesh_category.specs.category.Alike.{are_alike, have_one_name, is_alike};

use mesh_base::Node;

/// The model at a place.
pub(crate) fn node_at<'a>(nodes: &'a [Node], place: u32) -> Option<&'a Node>
    ensures { option_copied result ≡ slice_get nodes.now place }
{
    nodes.get(place as usize)
}

fn have_one_name(old: Option<&Node>, new: Option<&Node>) -> bool
    ensures { result ≡ have_one_name (option_copied old.entry) (option_copied new.entry) }
{
    match old {
        None => false,
        Some(old) => match new {
            None => false,
            Some(new) => old.own.name.compare(&new.own.name).is_eq(),
        },
    }
}

fn is_set(bits: &[bool], at: u32) -> bool
    ensures { result ≡ slice_index_or bits.now at false }
{
    match bits.get(at as usize) {
        None => false,
        Some(bit) => *bit,
    }
}

fn is_alike(olds: &[Node], news: &[Node], adds: &[bool], p: u32, q: u32) -> bool
    ensures { result ≡ is_alike olds.now news.now adds.now p q }
{
    have_one_name(node_at(olds, p), node_at(news, q)) && is_set(adds, q)
}

/// Whether the old and the new parents have the same names, one beside the other, and each new one only adds columns to
/// the old one of its name, which `adds` tells.
#[tactic(auto, using(crate::proofs::category::Alike::not_long, crate::proofs::category::Alike::alike_more))]
pub(crate) fn are_alike(olds: &[Node], news: &[Node], adds: &[bool], ps: &[u32], qs: &[u32]) -> bool
    ensures { result ≡ are_alike olds.now news.now adds.now ps.now qs.now }
{
    if ps.len() != qs.len() {
        return false;
    }
    let mut each = true;
    for (i, p) in ps.iter().enumerate() {
        each = each && is_alike(olds, news, adds, *p, qs[i]);
    }
    each
}
