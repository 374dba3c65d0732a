// What each name means, by indexes: for a name none, the only one, or `None` for several.
ghost use Rattle.std.specs.Prelude.{◌≡◌, ℕ, List, [], ◌∷◌, ◌++◌, Some, None, IsTrue, OnOk, length, if◌then◌else◌};
ghost use Rattle.std.specs.BTreeMap.{get};
ghost use Rattle.mesh_base_values.specs.Names.{text_cmp};
ghost use Rattle.mesh_base_values.specs.Picked.{same_text};
ghost use Rattle.mesh_resolve_scope.specs.sight.Sight.{meant_in};
ghost use Rattle.mesh_resolve_scope.specs.sight.Sole.{sole, sole_of_both, IsIndexed};

use crate::sight::sight::{Meant, Seen};
use mesh_base_values::Str;
use mesh_list::{Duplicate, Memory};
use std::collections::BTreeMap;

/// For each name the only thing that it may mean, or `None` where it may mean several.
pub(crate) type Index<T> = BTreeMap<Str, Option<T>>;

/// The only one of two lists together, by those of each.
pub(crate) fn sole_of_both<T: Copy>(
    one: Option<Option<T>>,
    more: Option<Option<T>>,
) -> Option<Option<T>>
    ensures { result ≡ sole_of_both one more }
{
    match one {
        None => more,
        Some(_) => match more {
            None => one,
            Some(_) => Some(None),
        },
    }
}

fn with_one<T: Copy>(had: Option<Option<T>>, value: T) -> Option<T>
    ensures { Some result ≡ sole_of_both had (Some (Some value)) }
{
    match had {
        None => Some(value),
        Some(_) => None,
    }
}

fn is_several<T: Copy>(had: Option<Option<T>>) -> bool
    ensures { IsTrue result → had ≡ Some None }
{
    match had {
        None => false,
        Some(one) => one.is_none(),
    }
}

// One more of a name. A name that has several keeps them.
fn add<T: Copy>(index: &mut Index<T>, name: &Str, value: T) -> Result<(), Memory>
    ensures { OnOk result ((q : List ℕ) → get text_cmp index.new q ≡ (if same_text name.now q then sole_of_both (get text_cmp index.old q) (Some (Some value)) else get text_cmp index.old q)) }
{
    let had = index.get(name).copied();
    if is_several(had) {
        return Ok(());
    }
    let key = name.copy()?;
    index.insert(key, with_one(had, value))?;
    Ok(())
}

// The columns of one more FROM item.
fn add_columns(index: &mut Index<Meant>, seen: &Seen) -> Result<(), Memory>
    ensures { OnOk result ((name : List ℕ) → get text_cmp index.new name ≡ sole_of_both (get text_cmp index.old name) (sole (meant_in name seen.now))) }
{
    for c in seen.columns.as_slice() {
        let value = Meant {
            item: seen.place,
            kind: c.kind,
        };
        add(index, &c.name, value)?;
    }
    Ok(())
}

/// One more FROM item behind the others.
pub(crate) fn add_seen(
    from: &mut Vec<Seen>,
    columns: &mut Index<Meant>,
    places: &mut Index<usize>,
    seen: Seen,
) -> Result<(), Memory>
    requires { IsIndexed from.old.items columns.old places.old }
    ensures all { OnOk result (from.new.items ≡ from.old.items ++ seen ∷ []) }
    ensures indexed { OnOk result (IsIndexed from.new.items columns.new places.new) }
{
    add_columns(columns, &seen)?;
    add(places, &seen.name, from.len())?;
    from.push(seen)?;
    Ok(())
}
