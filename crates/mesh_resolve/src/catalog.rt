// What a query may read, found by halves where it stands in the order of its names.
ghost use Rattle.std.specs.Prelude.{◌≡◌, ◌≤◌, length, true, IsTrue};
ghost use Rattle.std.specs.Option.{option_copied};
ghost use Rattle.mesh_base.specs.Keys.{input_name};
ghost use Rattle.mesh_list.specs.Keyed.{ascends, found, place_of};
ghost use Rattle.mesh_base_values.specs.Names.{name_cmp};
ghost use Rattle.mesh_base_values.specs.declared.values.Name.{Name};
ghost use Rattle.mesh_resolve.specs.Relations.{columns_named, decl_name};

use crate::known::Known;
use mesh_base::{Decl, Input};
use mesh_base_values::{Columns, Name};
use std::marker::Model;

/// What has a name of two parts.
pub(crate) trait Named {
    ghost called: { Self → Name };

    fn called(&self) -> &Name
        ensures { result.now ≡ called self.now };
}

impl Named for Input {
    ghost called = { input_name };

    fn called(&self) -> &Name {
        &self.name
    }
}

impl Named for Decl {
    ghost called = { decl_name };

    fn called(&self) -> &Name {
        &self.name
    }
}

/// Whether each name is below the next.
pub(crate) fn is_ascending<T: Named>(items: &[T]) -> bool
    ensures { IsTrue result → ascends name_cmp T.called items.now ≡ true }
{
    for i in 1..items.len() {
        if !items[i - 1].called().compare(items[i].called()).is_lt() {
            return false;
        }
    }
    true
}

// The number of items in front of the first whose name is not below this one, by halves.
fn seek<T: Named>(items: &[T], name: &Name) -> usize
    requires { ascends name_cmp T.called items.now ≡ true }
    ensures place { result ≡ place_of name_cmp T.called name.now items.now }
    ensures within { result ≤ length items.now }
{
    let mut low = 0;
    let mut high = items.len();
    while low < high {
        let middle = low + (high - low) / 2;
        if items[middle].called().compare(name).is_lt() {
            low = middle + 1;
        } else {
            high = middle;
        }
    }
    low
}

// The item of that name, by halves.
fn sought<'a, T: Named>(items: &'a [T], name: &Name) -> Option<&'a T>
    requires { ascends name_cmp T.called items.now ≡ true }
    ensures { option_copied result ≡ found name_cmp T.called name.now items.now }
{
    let at = seek(items, name);
    if at == items.len() {
        return None;
    }
    if items[at].called().compare(name).is_eq() {
        return Some(&items[at]);
    }
    None
}

/// The first item of that name, from the front.
pub(crate) fn met<'a, T: Named>(items: &'a [T], name: &Name) -> Option<&'a T>
    ensures { option_copied result ≡ found name_cmp T.called name.now items.now }
{
    for item in items {
        if item.called().compare(name).is_eq() {
            return Some(item);
        }
    }
    None
}

// The first item of that name.
fn find<'a, T: Named>(items: &'a [T], ascending: bool, name: &Name) -> Option<&'a T>
    requires { IsTrue ascending → ascends name_cmp T.called items.now ≡ true }
    ensures { option_copied result ≡ found name_cmp T.called name.now items.now }
{
    if ascending {
        sought(items, name)
    } else {
        met(items, name)
    }
}

/// What a query may read, and whether its models and its sources stand in the order of their names.
pub(crate) struct Catalog<'a> {
    known: &'a Known,
    models_ascend: bool,
    sources_ascend: bool,
}

impl Drop for Catalog<'_> {
    fn drop(self) {
        let Catalog {
            known: _,
            models_ascend: _,
            sources_ascend: _,
        } = self;
    }
}

impl<'a> Model for Catalog<'a> {
    ghost use Rattle.std.specs.Prelude.{◌≡◌, true, IsTrue};
    ghost use Rattle.mesh_base.specs.Keys.{input_name};
    ghost use Rattle.mesh_list.specs.Keyed.{ascends};
    ghost use Rattle.mesh_base_values.specs.Names.{name_cmp};
    ghost use Rattle.mesh_resolve.specs.declared.known.Known.{Known};
    ghost use Rattle.mesh_resolve.specs.Relations.{decl_name};

    ghost Value = { Known };

    ghost view = { λ s. s.known.now };

    ghost invariant = { λ s. (IsTrue s.models_ascend → ascends name_cmp input_name s.known.now.models ≡ true) × (IsTrue s.sources_ascend → ascends name_cmp decl_name s.known.now.sources ≡ true) };
}

impl<'a> Catalog<'a> {
    pub(crate) fn new(known: &'a Known) -> Catalog<'a>
        ensures { result ≡ known.now }
    {
        let models_ascend = is_ascending(known.models.as_slice());
        let sources_ascend = is_ascending(known.sources.as_slice());
        Catalog {
            known,
            models_ascend,
            sources_ascend,
        }
    }

    /// The columns of a model or a source, the models coming first.
    pub(crate) fn columns(&self, name: &Name) -> Option<&Columns>
        ensures { option_copied result ≡ columns_named self.now name.now }
    {
        let known = self.known;
        match find(known.models.as_slice(), self.models_ascend, name) {
            Some(model) => Some(&model.columns),
            None => match find(known.sources.as_slice(), self.sources_ascend, name) {
                Some(source) => Some(&source.columns),
                None => None,
            },
        }
    }

    /// Whether macros may stand in the query.
    pub(crate) fn macros(&self) -> bool
        ensures { result ≡ self.now.macros }
    {
        self.known.macros
    }
}
