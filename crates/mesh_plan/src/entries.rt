// The entries of a project's models.
ghost use Rattle.std.specs.Prelude.{◌≡◌, ◌<◌, true, length, map, IfOk, IfErr, OnOk, Some};
ghost use Rattle.std.specs.List.{All, slice_get};
ghost use Rattle.mesh_house_book.specs.WellFormed.{is_well_formed_book};
ghost use Rattle.mesh_house.specs.World.{version_of};
ghost use Rattle.mesh_category.specs.category.Stated.{HaveCategories};
ghost use Rattle.mesh_spec_changes.specs.listed.Listed.{is_list_fit, listed};
ghost use Rattle.mesh_spec_changes.specs.due.Plans.{is_made};
ghost use Rattle.mesh_category.specs.versions.Clashes.{IsAlone, versions};
ghost use Rattle.mesh_plan.specs.Entries.{entries_of, entry_of};
ghost use Rattle.mesh_plan.specs.Plans.{RefusesEntries, Unclashed};

use mesh_base::rules::Project;
use mesh_base::{Categories, Category, Entries, Entry, Refs};
use mesh_base_values::{Name, Names};
use mesh_category::category::categories_beside;
use mesh_category::versions::{PlanFault, project_of, versions};
use mesh_house_book::Book;
use mesh_list::{Duplicate, Memory, Seq};
use std::alloc::Global;

fn is_made(b: &Book, object: &Name) -> bool
    ensures { result ≡ is_made (version_of b.now object.now) }
{
    match b.versions.find(object) {
        None => false,
        Some(version) => version.made,
    }
}

/// A model's category and its object, and whether that is made.
pub(crate) fn entry_of(b: &Book, category: Category, object: &Name) -> Result<Entry, Memory>
    ensures { IfOk result (λ entry. entry ≡ entry_of b.now category object.now) }
{
    let made = is_made(b, object);
    Ok(Entry {
        category,
        object: object.copy()?,
        made,
    })
}

fn category_at(categories: &[Category], at: usize) -> Category
    requires { at < length categories.now }
    ensures { slice_get categories.now at ≡ Some result }
{
    categories[at]
}

fn entries_of(
    alloc: Global,
    b: &Book,
    categories: &[Category],
    objects: &[Name],
) -> Result<Entries, Memory>
    requires { length categories.now ≡ length objects.now }
    ensures { IfOk result (λ entries. entries ≡ entries_of b.now categories.now objects.now) }
{
    let mut entries = Seq::new(alloc);
    for (at, object) in objects.iter().enumerate() {
        let category = category_at(categories, at);
        entries.push(entry_of(b, category, object)?)?;
    }
    Ok(entries)
}

// The objects of the models that have these categories.
fn named(
    alloc: Global,
    p: &Project,
    b: &Book,
    base: &Refs,
) -> Result<(Categories, Names), PlanFault>
    requires book { is_well_formed_book b.now ≡ true }
    requires base { is_list_fit b.now.snapshots base.now ≡ true }
    ensures have { IfOk result (λ made. HaveCategories (listed b.now.snapshots base.now) p.now.nodes made.0.of) }
    ensures named { IfOk result (λ made. map Some made.1 ≡ versions b.now.snapshots base.now p.now.nodes made.0.of) }
    ensures alone { OnOk result (All (IsAlone b.now.snapshots p.now.nodes) p.now.nodes) }
    ensures refused { IfErr result (λ fault. RefusesEntries b.now base.now p.now.nodes fault) }
{
    let compared = project_of(alloc, b, base)?;
    // Objects are found by the categories alone, so that no names that are gone are looked for.
    let categories = Categories {
        of: categories_beside(p, &compared)?,
        removed: Seq::new(alloc),
    };
    match versions(alloc, p, &categories, base, b) {
        Ok(names) => Ok((categories, names)),
        Err(fault) => Err(fault),
    }
}

/// The entries of a project's models beside a list that an environment of the book may have, or the first clash.
pub(crate) fn entries(
    alloc: Global,
    p: &Project,
    b: &Book,
    base: &Refs,
) -> Result<Entries, PlanFault>
    requires book { is_well_formed_book b.now ≡ true }
    requires base { is_list_fit b.now.snapshots base.now ≡ true }
    ensures ok { IfOk result (λ entries. Unclashed b.now base.now p.now.nodes entries) }
    ensures refused { IfErr result (λ fault. RefusesEntries b.now base.now p.now.nodes fault) }
{
    match named(alloc, p, b, base) {
        Ok((categories, names)) => {
            let made = entries_of(alloc, b, categories.of.as_slice(), names.as_slice())?;
            Ok(made)
        }
        Err(fault) => Err(fault),
    }
}
