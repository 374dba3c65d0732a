// The category of each model of a project.
ghost use Rattle.std.specs.Prelude.{◌≡◌, ◌↔◌, ◌<◌, ◌++◌, ◌∷◌, [], ℕ, length, take, IsTrue, IfOk, OnOk, Some};
ghost use Rattle.std.specs.BTreeMap.{get};
ghost use Rattle.std.specs.List.{AllZip, slice_get};
ghost use Rattle.std.specs.Option.{option_copied};
ghost use Rattle.mesh_base.specs.declared.snapshots.Node.{Node};
ghost use Rattle.mesh_base_values.specs.Names.{name_cmp};
ghost use Rattle.mesh_base_values.specs.declared.values.Name.{Name};
ghost use Rattle.mesh_base.specs.rules.Proper.{is_proper};
ghost use Rattle.mesh_spec_model.specs.Closures.{Closures};
ghost use Rattle.mesh_spec_changes.specs.reuse.Categories.{AddsOnly};
ghost use Rattle.mesh_spec_changes.specs.reuse.Compatible.{AreCompatible};
ghost use Rattle.mesh_category.specs.category.Gone.{AreGone, IsPlaceOf};
ghost use Rattle.mesh_category.specs.category.Stated.{AddsAmong, HaveCategories, IsCategory, IsCategoryAmong, category_of, nodes_of, stated, stated_after, stated_over};

use crate::category::additive::is_additive;
use crate::category::named::{place_of, places_of, removed};
use crate::category::parents::are_alike;
use mesh_base::rules::Project;
use mesh_base::{Categories, Category, CategoryList, Node};
use mesh_base_values::Name;
use mesh_list::{Memory, Same, Seq, together};
use std::alloc::Global;
use std::collections::BTreeMap;

fn category_of(unchanged: bool, same: bool, adds: bool) -> Category
    ensures { result ≡ category_of unchanged same adds }
{
    if unchanged {
        return Category::Unchanged;
    }
    if same && adds {
        return Category::IndirectNonBreaking;
    }
    if same {
        return Category::IndirectBreaking;
    }
    if adds {
        return Category::NonBreaking;
    }
    Category::Breaking
}

fn is_unchanged(old: &Node, new: &Node) -> bool
    ensures { IsTrue result ↔ (old.now.fingerprint ≡ new.now.fingerprint) }
{
    old.fingerprint == new.fingerprint
}

/// Whether a model only adds columns to another, and its category beside it. `alike` tells whether their parents are
/// compatible.
fn beside(old: &Node, new: &Node, alike: bool) -> (bool, Category)
    ensures adds { (ps qs : Closures) → (IsTrue alike ↔ AreCompatible ps qs)
        → (IsTrue result.0 ↔ AddsOnly (stated_over ps old.now) (stated_over qs new.now)) }
    ensures category { (ps qs : Closures) → (IsTrue alike ↔ AreCompatible ps qs)
        → IsCategory (Some (stated_over ps old.now)) (stated_over qs new.now) result.1 }
{
    let same = old.own.same(&new.own);
    let additive = same || is_additive(&old.own, &new.own);
    let adds = additive && alike;
    (adds, category_of(is_unchanged(old, new), same, adds))
}

/// The same for the model at a place, beside the old one of its name.
fn category_at(
    olds: &[Node],
    news: &[Node],
    places: &BTreeMap<Name, usize>,
    adds: &[bool],
    at: usize,
) -> (bool, Category)
    requires old { IsTrue (is_proper olds.now) }
    requires new { IsTrue (is_proper news.now) }
    requires places { (name : Name) → IsPlaceOf olds.now name (get name_cmp places.now name) }
    requires at { at < length news.now }
    requires adds { AllZip (AddsAmong (stated olds.now)) (stated (take at news.now)) adds.now }
    ensures adds { (n : Node) → slice_get news.now at ≡ Some n
        → AddsAmong (stated olds.now) (stated_after (take at news.now) n) result.0 }
    ensures category { (n : Node) → slice_get news.now at ≡ Some n
        → IsCategoryAmong (stated olds.now) (stated_after (take at news.now) n) result.1 }
{
    let new = &news[at];
    match place_of(places, &new.own.name) {
        None => (false, Category::Added),
        Some(place) => {
            let old = &olds[place];
            let alike = are_alike(
                olds,
                news,
                adds,
                old.parents.as_slice(),
                new.parents.as_slice(),
            );
            beside(old, new, alike)
        }
    }
}

// What a model's answers are comes behind those of the models before it.
fn push_answers(
    adds: &mut Vec<bool>,
    made: &mut CategoryList,
    is: bool,
    category: Category,
) -> Result<(), Memory>
    ensures { OnOk result ((adds.new.items ≡ adds.old.items ++ is ∷ []) × (made.new ≡ made.old ++ category ∷ [])) }
{
    adds.push(is)?;
    made.push(category)
}

fn categories(alloc: Global, olds: &[Node], news: &[Node]) -> Result<CategoryList, Memory>
    requires old { IsTrue (is_proper olds.now) }
    requires new { IsTrue (is_proper news.now) }
    ensures { IfOk result (λ made. HaveCategories olds.now news.now made) }
{
    let places = places_of(alloc, olds)?;
    let mut adds = Vec::new(alloc);
    let mut made = Seq::new(alloc);
    for at in 0..news.len() {
        let (is, category) = category_at(olds, news, &places, adds.as_slice(), at);
        push_answers(&mut adds, &mut made, is, category)?;
    }
    Ok(made)
}

fn compared(alloc: Global, olds: &[Node], news: &[Node]) -> Result<Categories, Memory>
    requires old { IsTrue (is_proper olds.now) }
    requires new { IsTrue (is_proper news.now) }
    ensures of { IfOk result (λ made. HaveCategories olds.now news.now made.of) }
    ensures removed { IfOk result (λ made. AreGone olds.now news.now made.removed) }
{
    let (of, removed) = together(categories(alloc, olds, news), removed(alloc, olds, news))?;
    Ok(Categories { of, removed })
}

fn nodes_of<'a>(base: Option<&'a Project>) -> &'a [Node]
    ensures nodes { result.now ≡ nodes_of (option_copied base.entry) }
    ensures proper { IsTrue (is_proper result.now) }
{
    match base {
        None => &[],
        Some(project) => project.as_slice(),
    }
}

/// How each model of a project stands to that of its name in the project that it is compared with, which is empty where
/// there is none, and the models that are gone.
pub fn categorize(p: &Project, base: Option<&Project>) -> Result<Categories, Memory>
    ensures of { IfOk result (λ made. HaveCategories (nodes_of (option_copied base.entry)) p.now.nodes made.of) }
    ensures removed { IfOk result (λ made. AreGone (nodes_of (option_copied base.entry)) p.now.nodes made.removed) }
{
    compared(p.nodes.alloc(), nodes_of(base), p.as_slice())
}

/// The categories alone, beside a project that there is.
pub fn categories_beside(p: &Project, base: &Project) -> Result<CategoryList, Memory>
    ensures { IfOk result (λ made. HaveCategories base.now.nodes p.now.nodes made) }
{
    categories(p.nodes.alloc(), base.as_slice(), p.as_slice())
}
