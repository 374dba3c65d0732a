// The names that break the rule of an incremental model.
ghost use Rattle.std.specs.Prelude.{◌≡◌, ◌++◌, ℕ, IfOk, OnOk, map};
ghost use Rattle.std.specs.List.{flat_map, slice_get};
ghost use Rattle.std.specs.Option.{option_copied, option_to_list};
ghost use Rattle.mesh_lineage.specs.Unsteady.{defn_breakers, item_breakers, least, select_breakers, selects_breakers};
ghost use Rattle.mesh_lineage.specs.Bound.{AreBound};
ghost use Rattle.mesh_lineage.specs.Reaches.{bound_test, link_named, link_test, may_read_links, near_links, or_link, parent_links, reaches_at, source_link};

use crate::bounds::{Filtered, bound_by, is_bound};
use crate::reaches::{Bound, Link, Near, Reach, lesser, reach_at};
use mesh_base::{Decl, Defn, FromItem, Own, Rel, Select, Selects};
use mesh_base_values::Name;
use mesh_list::{Duplicate, Memory, Register, together};
use std::alloc::Global;

/// What a query may name.
pub struct Links<'a> {
    pub sources: Register<Link>,
    pub parents: Register<Near<'a>>,
}

impl<'a> Drop for Links<'a> {
    fn drop(self) {
        let Links {
            sources: _,
            parents: _,
        } = self;
    }
}

fn source_link(d: &Decl) -> Result<Link, Memory>
    ensures { IfOk result (λ made. made ≡ source_link d.now) }
{
    let bound = match &d.time {
        None => Bound::Free,
        Some(time) => Bound::By(time.copy()?),
    };
    let name = d.name.copy()?;
    Ok(Link { name, bound })
}

fn source_links(alloc: Global, sources: &[Decl]) -> Result<Vec<Link>, Memory>
    ensures { IfOk result (λ made. made.items ≡ map source_link sources.now) }
{
    let mut made = Vec::new(alloc);
    for d in sources {
        made.push(source_link(d)?)?;
    }
    Ok(made)
}

fn add_link<'a>(made: &mut Vec<Near<'a>>, reaches: &'a [Reach], place: u32) -> Result<(), Memory>
    ensures { OnOk result (near_links made.new.items ≡ near_links made.old.items ++ parent_links (option_to_list (slice_get reaches.now place))) }
{
    match reach_at(reaches, place) {
        None => Ok(()),
        Some(r) => {
            made.push(Near { link: &r.link })?;
            Ok(())
        }
    }
}

fn parent_links<'a>(
    alloc: Global,
    reaches: &'a [Reach],
    places: &[u32],
) -> Result<Vec<Near<'a>>, Memory>
    ensures { IfOk result (λ made. near_links made.items ≡ parent_links (reaches_at reaches.now places.now)) }
{
    let mut made = Vec::new(alloc);
    for place in places {
        add_link(&mut made, reaches, *place)?;
    }
    Ok(made)
}

/// What the query of a model may name, whose parents stand at these places.
pub(crate) fn links_of<'a>(
    alloc: Global,
    own: &Own,
    reaches: &'a [Reach],
    places: &[u32],
) -> Result<Links<'a>, Memory>
    ensures sources { IfOk result (λ made. made.sources ≡ map source_link own.now.sources) }
    ensures parents { IfOk result (λ made. near_links made.parents ≡ parent_links (reaches_at reaches.now places.now)) }
{
    let (sources, parents) = together(
        source_links(alloc, own.sources.as_slice()),
        parent_links(alloc, reaches, places),
    )?;
    Ok(Links {
        sources: Register::from_vec(sources),
        parents: Register::from_vec(parents),
    })
}

#[tactic(auto, using(crate::proofs::Places::near_found))]
fn parent_of<'a>(parents: &Register<Near<'a>>, name: &Name) -> Option<&'a Link>
    ensures { option_copied result ≡ link_named (near_links parents.now) name.now }
{
    match parents.find(name) {
        Some(n) => Some(n.link),
        None => None,
    }
}

fn link_of<'a>(links: &'a Links, name: &Name) -> Option<&'a Link>
    ensures { option_copied result ≡ or_link (link_named links.now.sources name.now) (link_named (near_links links.now.parents) name.now) }
{
    match links.sources.find(name) {
        Some(l) => Some(l),
        None => parent_of(&links.parents, name),
    }
}

fn may_read(links: &Links, s: &Filtered, place: usize, f: &FromItem, name: &Name) -> bool
    requires { AreBound s.now.bound s.now.select.now.filter }
    ensures { result ≡ may_read_links links.now.sources (near_links links.now.parents) s.now.select.now place f.now name.now }
{
    match link_of(links, name) {
        None => false,
        Some(l) => match &l.bound {
            Bound::Free => true,
            Bound::Never => false,
            Bound::By(time) => is_bound(s, place, f, time),
        },
    }
}

fn item_breaker<'a>(links: &Links, s: &Filtered, place: usize, f: &'a FromItem) -> Option<&'a Name>
    requires { AreBound s.now.bound s.now.select.now.filter }
    ensures { option_copied result ≡ least (item_breakers (may_read_links links.now.sources (near_links links.now.parents)) s.now.select.now place f.now f.now.rel) }
{
    match &f.rel {
        Rel::Cte(_) => None,
        Rel::Named(name) => {
            if may_read(links, s, place, f, name) {
                None
            } else {
                Some(name)
            }
        }
    }
}

#[tactic(auto, using(crate::proofs::Broken::items_more))]
fn items_breaker<'a>(links: &Links, s: &Filtered<'a>) -> Option<&'a Name>
    requires { AreBound s.now.bound s.now.select.now.filter }
    ensures { option_copied result ≡ least (select_breakers (may_read_links links.now.sources (near_links links.now.parents)) s.now.select.now) }
{
    let mut found = None;
    for (i, f) in s.select.from.as_slice().iter().enumerate() {
        found = lesser(found, item_breaker(links, s, i, f));
    }
    found
}

fn select_breaker<'a>(links: &Links, s: &'a Select) -> Result<Option<&'a Name>, Memory>
    ensures { IfOk result (λ found. option_copied found ≡ least (select_breakers (may_read_links links.now.sources (near_links links.now.parents)) s.now)) }
{
    let bound = bound_by(links.parents.alloc(), &s.filter)?;
    let filtered = Filtered { select: s, bound };
    Ok(items_breaker(links, &filtered))
}

#[tactic(auto, using(crate::proofs::Broken::selects_more))]
fn selects_breaker<'a>(links: &Links, selects: &'a [Select]) -> Result<Option<&'a Name>, Memory>
    ensures { IfOk result (λ found. option_copied found ≡ least (selects_breakers (may_read_links links.now.sources (near_links links.now.parents)) selects.now)) }
{
    let mut found = None;
    for s in selects {
        found = lesser(found, select_breaker(links, s)?);
    }
    Ok(found)
}

#[tactic(auto, using(crate::proofs::Broken::ctes_more))]
fn ctes_breaker<'a>(links: &Links, ctes: &'a [Selects]) -> Result<Option<&'a Name>, Memory>
    ensures { IfOk result (λ found. option_copied found ≡ least (flat_map (selects_breakers (may_read_links links.now.sources (near_links links.now.parents))) ctes.now)) }
{
    let mut found = None;
    for c in ctes {
        found = lesser(found, selects_breaker(links, c.as_slice())?);
    }
    Ok(found)
}

/// The least relation of a FROM item that may not read it as it does.
#[tactic(auto, using(crate::proofs::Least::least_append))]
pub(crate) fn defn_breaker<'a>(links: &Links, defn: &'a Defn) -> Result<Option<&'a Name>, Memory>
    ensures { IfOk result (λ found. option_copied found ≡ least (defn_breakers (may_read_links links.now.sources (near_links links.now.parents)) defn.now)) }
{
    match defn {
        Defn::Seed { .. } => Ok(None),
        Defn::Sql(q) => {
            let (first, second) = together(
                ctes_breaker(links, q.ctes.as_slice()),
                selects_breaker(links, q.selects.as_slice()),
            )?;
            Ok(lesser(first, second))
        }
    }
}
