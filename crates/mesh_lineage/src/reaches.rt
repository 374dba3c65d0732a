// What those that read a model need to know of it, one model at a time.
ghost use Rattle.std.specs.Prelude.{◌≡◌, ◌&&◌, ◌∷◌, [], IfOk};
ghost use Rattle.std.specs.List.{slice_get};
ghost use Rattle.std.specs.Option.{option_copied, option_to_list};
ghost use Rattle.mesh_base_values.specs.Names.{name_cmp};
ghost use Rattle.mesh_base_values.specs.NameOrder.{names_total, names_exact};
ghost use Rattle.mesh_spec_changes.specs.steady.Steady.{has_timed_source};
ghost use Rattle.mesh_lineage.specs.Unsteady.{least, lesser, timed_names, timed_names_of};
ghost use Rattle.mesh_lineage.specs.Reaches.{are_timeless, least_reached, model_bound, reach_over, reaches_at, timed_over, timeless_over};

use mesh_base::{Decl, Own};
use mesh_base_values::{Kind, Name, Str, is_incremental};
use mesh_list::{Duplicate, Keyed, Memory, together};
use std::cmp::Ordering;

/// How an incremental model may read a relation: as it is, not at all, or bound to the unit by this column.
pub enum Bound {
    Free,
    Never,
    By(Str),
}

impl Drop for Bound {
    fn drop(self) {
        match self {
            Bound::Free | Bound::Never | Bound::By(_) => {}
        }
    }
}

/// A relation that a query may name.
pub struct Link {
    pub name: Name,
    pub bound: Bound,
}

impl Drop for Link {
    fn drop(self) {
        let Link { name: _, bound: _ } = self;
    }
}

/// `timed` is the least timed source that is reached through the model.
pub struct Reach {
    pub link: Link,
    pub timeless: bool,
    pub timed: Option<Name>,
}

impl Drop for Reach {
    fn drop(self) {
        let Reach {
            link: _,
            timeless: _,
            timed: _,
        } = self;
    }
}

impl Keyed for Link {
    type Key = Name;

    ghost key = { λ l. l.name };

    ghost order = { name_cmp };

    fn compare(&self, other: &Name) -> Ordering {
        self.name.compare(other)
    }

    fn against(&self, other: &Link) -> Ordering {
        self.name.compare(&other.name)
    }

    ghost total = { names_total };

    ghost exact = { names_exact };
}

/// A link that lies elsewhere.
#[derive(Drop)]
pub struct Near<'a> {
    pub link: &'a Link,
}

impl<'a> Keyed for Near<'a> {
    type Key = Name;

    ghost key = { λ n. n.link.now.name };

    ghost order = { name_cmp };

    fn compare(&self, other: &Name) -> Ordering {
        self.link.name.compare(other)
    }

    fn against(&self, other: &Near<'a>) -> Ordering {
        self.link.name.compare(&other.link.name)
    }

    ghost total = { names_total };

    ghost exact = { names_exact };
}

fn has_timed_source(own: &Own) -> bool
    ensures { result ≡ has_timed_source own.now }
{
    let mut found = false;
    for d in own.sources.as_slice() {
        found = found || d.time.is_some();
    }
    found
}

/// What is known of the model at a place.
pub(crate) fn reach_at<'a>(reaches: &'a [Reach], place: u32) -> Option<&'a Reach>
    ensures { option_copied result ≡ slice_get reaches.now place }
{
    reaches.get(place as usize)
}

fn is_timeless_at(reaches: &[Reach], place: u32) -> bool
    ensures { result ≡ are_timeless (option_to_list (slice_get reaches.now place)) }
{
    match reach_at(reaches, place) {
        None => true,
        Some(r) => r.timeless,
    }
}

// Both, with no branch in its caller.
fn both_hold(a: bool, b: bool) -> bool
    ensures { result ≡ (a && b) }
{
    a && b
}

#[tactic(auto, using(crate::proofs::Places::timeless_more))]
fn are_timeless(reaches: &[Reach], places: &[u32]) -> bool
    ensures { result ≡ are_timeless (reaches_at reaches.now places.now) }
{
    let mut each = true;
    for place in places {
        each = both_hold(each, is_timeless_at(reaches, *place));
    }
    each
}

fn is_timeless(own: &Own, reaches: &[Reach], places: &[u32]) -> bool
    ensures { result ≡ timeless_over own.now (reaches_at reaches.now places.now) }
{
    !has_timed_source(own) && !is_incremental(&own.kind) && are_timeless(reaches, places)
}

/// The lesser of two names, where there are both.
pub(crate) fn lesser<'a>(a: Option<&'a Name>, b: Option<&'a Name>) -> Option<&'a Name>
    ensures { option_copied result ≡ lesser (option_copied a.entry) (option_copied b.entry) }
{
    match a {
        None => b,
        Some(x) => match b {
            None => a,
            Some(y) => match x.compare(y) {
                Ordering::Less | Ordering::Equal => a,
                Ordering::Greater => b,
            },
        },
    }
}

fn timed_name<'a>(d: &'a Decl) -> Option<&'a Name>
    ensures { option_copied result ≡ least (timed_names_of (d.now ∷ [])) }
{
    if d.time.is_some() {
        Some(&d.name)
    } else {
        None
    }
}

#[tactic(auto, using(crate::proofs::Places::timed_more))]
fn least_timed<'a>(own: &'a Own) -> Option<&'a Name>
    ensures { option_copied result ≡ least (timed_names own.now) }
{
    let mut found = None;
    for d in own.sources.as_slice() {
        found = lesser(found, timed_name(d));
    }
    found
}

fn timed_at<'a>(reaches: &'a [Reach], place: u32) -> Option<&'a Name>
    ensures { option_copied result ≡ least_reached (option_to_list (slice_get reaches.now place)) }
{
    match reach_at(reaches, place) {
        None => None,
        Some(r) => r.timed.as_ref(),
    }
}

#[tactic(auto, using(crate::proofs::Places::reached_more))]
fn least_reached<'a>(reaches: &'a [Reach], places: &[u32]) -> Option<&'a Name>
    ensures { option_copied result ≡ least_reached (reaches_at reaches.now places.now) }
{
    let mut found = None;
    for place in places {
        found = lesser(found, timed_at(reaches, *place));
    }
    found
}

/// A copy of the name.
pub(crate) fn copied(name: Option<&Name>) -> Result<Option<Name>, Memory>
    ensures { IfOk result (λ made. made ≡ option_copied name.entry) }
{
    match name {
        None => Ok(None),
        Some(name) => Ok(Some(name.copy()?)),
    }
}

/// The least timed source that is reached through a model whose parents stand at these places.
pub(crate) fn timed_of(own: &Own, reaches: &[Reach], places: &[u32]) -> Result<Option<Name>, Memory>
    ensures { IfOk result (λ made. made ≡ timed_over own.now (reaches_at reaches.now places.now)) }
{
    if is_incremental(&own.kind) {
        return Ok(None);
    }
    copied(lesser(least_timed(own), least_reached(reaches, places)))
}

fn model_bound(timeless: bool, kind: &Kind) -> Result<Bound, Memory>
    ensures { IfOk result (λ made. made ≡ model_bound timeless kind.now) }
{
    match kind {
        Kind::Seed => Ok(Bound::Free),
        Kind::Full | Kind::View => Ok(if timeless { Bound::Free } else { Bound::Never }),
        Kind::Incremental { time, .. } => Ok(Bound::By(time.copy()?)),
    }
}

/// What is to be known of a model whose parents stand at these places.
pub(crate) fn reach_of(own: &Own, reaches: &[Reach], places: &[u32]) -> Result<Reach, Memory>
    ensures { IfOk result (λ made. made ≡ reach_over own.now (reaches_at reaches.now places.now)) }
{
    let timeless = is_timeless(own, reaches, places);
    let link = together(own.name.copy(), model_bound(timeless, &own.kind));
    let ((name, bound), timed) = together(link, timed_of(own, reaches, places))?;
    Ok(Reach {
        link: Link { name, bound },
        timeless,
        timed,
    })
}
