// What the definitions give.
ghost use Rattle.std.specs.Prelude.{◌≡◌, false, ℕ, suc, List, [], map, Some, None, if◌then◌else◌};
ghost use Rattle.std.specs.Option.{option_map};
ghost use Rattle.std.specs.declared.option.Option.{Option};
ghost use Rattle.mesh_base_values.specs.declared.values.Cell.{Cell};
ghost use Rattle.mesh_base_values.specs.declared.values.Name.{Name};
ghost use Rattle.mesh_base_values.specs.declared.values.Pair.{Pair};
ghost use Rattle.mesh_base.specs.declared.definitions.Defn.TheVariants as defn;
ghost use Rattle.mesh_base.specs.declared.definitions.Own.{Own};
ghost use Rattle.mesh_base.specs.declared.jobs.Input.{Input};
ghost use Rattle.mesh_base.specs.declared.queries.Query.{Query};
ghost use Rattle.mesh_spec_query.specs.Sel.{Sel};
ghost use Rattle.mesh_spec_model.specs.Sources.{inputs};
ghost use Rattle.mesh_spec_model.specs.Scratch.{no_bounds};
ghost use Rattle.mesh_house.specs.declared.objects.Body.TheVariants as body;
ghost use Rattle.mesh_house.specs.declared.world.World.{World};
ghost use Rattle.mesh_house.specs.Objects.{is_physical};
ghost use Rattle.mesh_house.specs.World.{body_of, object_at, view};
ghost use Rattle.mesh_spec_changes.specs.shown.Shown.{each_there, is_query_there, object_rows, rows_through, stored_relations, target_table, view_rows};

/// A view shows what the object shows that it points at, and nothing where no such view stands.
pub fn views_show_their_targets()
    ensures target { (w : World) (name target : Name) → view w name ≡ Some target → view_rows w name ≡ object_rows w target }
    ensures none { (w : World) (name : Name) → view w name ≡ None → view_rows w name ≡ None }
{}

/// A table shows its rows. An object that stores a query shows the query's rows over what its targets show and the
/// sources that it declares, where all that it names is there and each target shows rows; one that stores no query
/// shows nothing.
pub fn tables_and_stored_queries_show_their_rows()
    ensures table { (w : World) (name : Name) (rows : List (List Cell)) → body_of (object_at w name) ≡ Some (body.Rows rows) → object_rows w name ≡ Some rows }
    ensures stored { (depth : ℕ) (w : World) (name : Name) (own : Own) (targets : List Pair) (q : Query) → body_of (object_at w name) ≡ Some (body.Stored own targets) → own.defn ≡ defn.Sql q →
        rows_through (suc depth) w name ≡ (if is_query_there (stored_relations own targets) q
        then option_map (λ (ts : List Input). Sel q (inputs w.sources own ts) no_bounds) (each_there (map (target_table (rows_through depth w) w) targets)) else None) }
{}

/// A name in whose schema no two underscores adjoin is no object's, so nothing is shown there, whatever the sources
/// are.
pub fn objects_alone_are_shown()
    ensures object { (w : World) (name : Name) → is_physical name ≡ false → object_rows w name ≡ None }
    ensures view { (w : World) (name target : Name) → view w name ≡ Some target → is_physical target ≡ false → view_rows w name ≡ None }
{}
