// What the definitions give.
ghost use Rattle.std.specs.Prelude.{◌≡◌, List};
ghost use Rattle.mesh_base_values.specs.declared.values.Name.{Name};
ghost use Rattle.mesh_house_book.specs.declared.book.Book.{Book};
ghost use Rattle.mesh_spec_changes.specs.Changes.{Plan, objects_by_name, promotes, refs_by_name};
ghost use Rattle.mesh_janitor.specs.promote.Promotion.{paired, promotion};

/// With the list of a plan's models and their objects, both by name, the changes are the last ones of that plan.
pub fn a_plan_promotes_its_models()
    ensures { (b : Book) (plan : Plan) (objects : List Name) → paired (refs_by_name plan.models) objects ≡ objects_by_name plan.models →
        promotion b plan.env (refs_by_name plan.models) objects plan.moment ≡ promotes b plan }
{}
