// Lists of parts of tables as sets.
ghost use Rattle.std.specs.Prelude.{◌≡◌, ◌||◌, ◌∷◌, [], IfOk, OnOk};
ghost use Rattle.std.specs.BTreeSet.{contains};
ghost use Rattle.mesh_base_values.specs.Names.{name_cmp};
ghost use Rattle.mesh_base_values.specs.declared.times.Bounds.{Bounds};
ghost use Rattle.mesh_base_values.specs.declared.values.Name.{Name};
ghost use Rattle.mesh_base.specs.declared.forgets.Forget.TheVariants.{Marks as MarksOf};
ghost use Rattle.mesh_spec_changes.specs.due.Parts.{is_among, unit_of};
ghost use Rattle.mesh_plan_due.specs.Sets.{part_cmp};

use mesh_base::Forget;
use mesh_base_values::Name;
use mesh_list::{Duplicate, Memory};
use std::alloc::Global;
use std::collections::BTreeSet;

fn add_unit(set: &mut BTreeSet<(i64, i64, Name)>, part: &Forget) -> Result<(), Memory>
    ensures { OnOk result ((object : Name) (u : Bounds) → contains part_cmp set.new (u.start, u.end, object) ≡
        (contains part_cmp set.old (u.start, u.end, object) || is_among (part.now ∷ []) (unit_of object u))) }
{
    match part {
        Forget::Range { object, start, end } => {
            let object = object.copy()?;
            set.insert((*start, *end, object))?;
            Ok(())
        }
        Forget::Marks { .. } => Ok(()),
    }
}

fn add_table(set: &mut BTreeSet<Name>, part: &Forget) -> Result<(), Memory>
    ensures { OnOk result ((object : Name) → contains name_cmp set.new object ≡
        (contains name_cmp set.old object || is_among (part.now ∷ []) (MarksOf object))) }
{
    match part {
        Forget::Range { .. } => Ok(()),
        Forget::Marks { object } => {
            let object = object.copy()?;
            set.insert(object)?;
            Ok(())
        }
    }
}

/// The units among some parts.
pub(crate) fn units_among(
    alloc: Global,
    parts: &[Forget],
) -> Result<BTreeSet<(i64, i64, Name)>, Memory>
    ensures { IfOk result (λ set. (object : Name) (u : Bounds) → contains part_cmp set (u.start, u.end, object) ≡ is_among parts.now (unit_of object u)) }
{
    let mut set = BTreeSet::new(alloc);
    for part in parts {
        add_unit(&mut set, part)?;
    }
    Ok(set)
}

/// The tables whose marks are among some parts.
pub(crate) fn tables_among(alloc: Global, parts: &[Forget]) -> Result<BTreeSet<Name>, Memory>
    ensures { IfOk result (λ set. (object : Name) → contains name_cmp set object ≡ is_among parts.now (MarksOf object)) }
{
    let mut set = BTreeSet::new(alloc);
    for part in parts {
        add_table(&mut set, part)?;
    }
    Ok(set)
}
