// Values have the types that were found for them.
ghost use Rattle.std.specs.Prelude.{◌≡◌, true, List, Ok};
ghost use Rattle.std.specs.List.{All};
ghost use Rattle.std.specs.Option.{ForSome};
ghost use Rattle.std.specs.declared.option.Option.{Option};
ghost use Rattle.mesh_base_values.specs.declared.times.Bounds.{Bounds};
ghost use Rattle.mesh_base_values.specs.declared.values.Column.{Column};
ghost use Rattle.mesh_base_values.specs.declared.values.Seed.{Seed};
ghost use Rattle.mesh_base.specs.declared.definitions.Own.{Own};
ghost use Rattle.mesh_base.specs.declared.jobs.Input.{Input};
ghost use Rattle.mesh_base.specs.declared.queries.Query.{Query};
ghost use Rattle.mesh_base.specs.Outputs.{columns_of, select_columns};
ghost use Rattle.mesh_query_grammar.specs.declared.surface.expressions.OrExpr.{OrExpr};
ghost use Rattle.mesh_query_grammar.specs.declared.surface.queries.Surface.{Surface};
ghost use Rattle.mesh_model_statement.specs.declared.model.model.ModelText.{ModelText};
ghost use Rattle.mesh_model_csv.specs.seeds.Fits.{fits};
ghost use Rattle.mesh_spec_query.specs.Ev.{Scope};
ghost use Rattle.mesh_spec_query.specs.Sel.{Sel};
ghost use Rattle.mesh_spec_model.specs.Scratch.{rows_over, table_of};
ghost use Rattle.mesh_resolve_types.specs.declared.typed.Typed.{Typed};
ghost use Rattle.mesh_resolve_scope.specs.declared.sight.sight.Sight.{Sight};
ghost use Rattle.mesh_resolve_scope.specs.Expressions.{typed};
ghost use Rattle.mesh_resolve.specs.declared.known.Known.{Known};
ghost use Rattle.mesh_resolve.specs.Owns.{own};
ghost use Rattle.mesh_resolve.specs.Queries.{resolved};
ghost use Rattle.mesh_law_reading.specs.Evaluated.{query_operands_fit};
ghost use Rattle.mesh_law_reading.specs.Operands.{operands_fit};
ghost use Rattle.mesh_law_reading.specs.Typed.{Fills, HasColumns, HasTypeOver, ScopeFits, Suits};

/// Over all rows and groups whose cells are of their columns' types, the value of an expression is NULL or of the type
/// that was found for it, and NULL where none was found. All operands within it are of types that their operator takes.
pub fn values_have_their_types()
    ensures values { (columns : List (List Column)) (sight : Sight) → HasColumns columns sight → (e : OrExpr) (t : Typed) → typed sight e ≡ Ok t → HasTypeOver columns t.kind t.expr }
    ensures operands { (columns : List (List Column)) (sight : Sight) → HasColumns columns sight → (e : OrExpr) (t : Typed) → typed sight e ≡ Ok t →
        (s : Scope) → ScopeFits columns s → operands_fit t.expr s ≡ true }
{}

/// Over tables that have the columns that a query was resolved by, and rows that fit these, the query's rows fit its
/// own columns: as many cells, each NULL or of its column's type.
pub fn resolved_rows_fit_columns()
    ensures { (known : Known) (surface : Surface) (query : Query) (inputs : List Input) (bounds : Bounds) → resolved known surface ≡ Ok query → Suits known inputs →
        All (λ row. fits (select_columns query.selects) row ≡ true) (Sel query inputs bounds) }
{}

/// Over such tables no expression of a resolved query meets an operand of a type that its operator or function doesn't
/// take: no ON, WHERE, key, HAVING or item, of the query itself or of a CTE, for any row or group.
pub fn resolved_operands_fit()
    ensures { (known : Known) (surface : Surface) (query : Query) (inputs : List Input) (bounds : Bounds) → resolved known surface ≡ Ok query → Suits known inputs →
        query_operands_fit query inputs bounds ≡ true }
{}

/// A model's table fills the columns that are found for it, where a seed's rows fit its columns and the tables that the
/// query reads fill theirs: so it is one that the models above it may read.
pub fn models_fill_their_columns()
    ensures { (text : ModelText) (seed : Option Seed) (known : Known) (model : Own) (inputs : List Input) (units : List Bounds) → own text seed known ≡ Ok model → Suits known inputs →
        ForSome seed (λ (s : Seed). All (λ row. fits s.columns row ≡ true) s.rows) → Fills (columns_of model) (table_of model (rows_over model inputs units)) }
{}
