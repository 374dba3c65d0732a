// What a query's rows hang on, and what not.
ghost use Rattle.std.specs.Prelude.{◌≡◌, true, ◌↔◌, ◌<◌, ◌++◌, ℕ, List, ◌∷◌, map, length, Some};
ghost use Rattle.std.specs.List.{All, Contains, flat_map, slice_get};
ghost use Rattle.std.specs.Option.{option_to_list};
ghost use Rattle.mesh_list.specs.Keyed.{ascends};
ghost use Rattle.mesh_base_values.specs.Bag.{IsSameBag};
ghost use Rattle.mesh_base_values.specs.declared.values.Name.{Name};
ghost use Rattle.mesh_base.specs.declared.jobs.Input.{Input};
ghost use Rattle.mesh_base.specs.declared.definitions.Defn.{Defn};
ghost use Rattle.mesh_base.specs.declared.definitions.Own.{Own};
ghost use Rattle.mesh_base.specs.declared.definitions.Reading.{Reading};
ghost use Rattle.mesh_base.specs.declared.queries.Query.{Query};
ghost use Rattle.mesh_base.specs.declared.snapshots.Node.{Node};
ghost use Rattle.mesh_base_values.specs.declared.times.Bounds.{Bounds};
ghost use Rattle.mesh_base.specs.declared.rules.relations.Parent.{Parent};
ghost use Rattle.mesh_base.specs.declared.rules.relations.Relation.{Relation};
ghost use Rattle.mesh_base.specs.rules.Proper.{defn_names, is_proper, is_well_formed};
ghost use Rattle.mesh_base.specs.rules.Relations.{parent_relation};
ghost use Rattle.mesh_base.specs.rules.Seen.{is_query_seen};
ghost use Rattle.mesh_spec_query.specs.Sel.{Sel};
ghost use Rattle.mesh_spec_model.specs.Closures.{Closure, Closures, Model, closures, each_of, own_of};
ghost use Rattle.mesh_spec_model.specs.Horizons.{Clock, HasCrons};
ghost use Rattle.mesh_spec_model.specs.Scratch.{defn_rows, from_scratch, inputs_of, piece, piece_over, rows_over};
ghost use Rattle.mesh_spec_model.specs.Sources.{inputs};
ghost use Rattle.mesh_law_query.specs.Alike.{AreSameTables, HaveSameBags};
ghost use Rattle.mesh_law_query.specs.Found.{DefnFindsAll, QueryFindsAll, input_relation, model_relation};
ghost use Rattle.mesh_law_query.specs.Loads.{HasSameSources, HaveSameSources};
ghost use Rattle.mesh_law_query.specs.Cuts.{AgreeAsBags, AgreeOnReads, cut_inputs};
ghost use Rattle.mesh_law_query.specs.Reads.{IsRead, reading_cmp, reading_itself, readings, reads};

/// Where the tables that a query names have the same columns and the same rows, in whatever order, its rows are the
/// same but for their order.
pub fn rows_respect_bags()
    ensures { (q : Query) (a b : List Input) → HaveSameBags q a b → (u : Bounds) → IsSameBag (Sel q a u) (Sel q b u) }
{}

/// A definition reads exactly the columns that some column of some SELECT names at a FROM item of their relation: in
/// an item, an ON condition, WHERE, a key or HAVING, of the query itself or of a CTE. They stand by relation and
/// column, each once. A seed reads none.
pub fn definitions_read_what_they_name()
    ensures exactly { (own : Own) (r : Reading) → Contains (readings own) r ↔ IsRead own.defn r }
    ensures once { (own : Own) → ascends reading_cmp reading_itself (readings own) ≡ true }
    ensures of_one { (own : Own) (name : Name) (column : List ℕ) → Contains (reads own name) column ↔ IsRead own.defn (record { relation = name; column = column }) }
{}

/// Where the tables that a definition names have the same rows as far as it reads their columns, its rows are the
/// same list, whatever other columns the tables have. So it has the same rows over tables without those other
/// columns. It is the same of a model's rows, and of those of a unit.
pub fn rows_hang_on_read_columns()
    ensures agree { (d : Defn) (a b : List Input) → AgreeOnReads d a b → (u : Bounds) → defn_rows d a u ≡ defn_rows d b u }
    ensures cut { (d : Defn) (inputs : List Input) (u : Bounds) → defn_rows d (cut_inputs d inputs) u ≡ defn_rows d inputs u }
    ensures rows { (own : Own) (a b : List Input) → AgreeOnReads own.defn a b → (units : List Bounds) → rows_over own a units ≡ rows_over own b units }
    ensures pieces { (own : Own) (a b : List Input) → AgreeOnReads own.defn a b → (u : Bounds) → piece_over own a u ≡ piece_over own b u }
{}

/// Where these rows, as far as the definition reads their columns, are the same but for their order, so are
/// its rows, a model's rows, and those of a unit.
pub fn rows_respect_bags_of_read_columns()
    ensures definition { (d : Defn) (a b : List Input) → AgreeAsBags d a b → (u : Bounds) → IsSameBag (defn_rows d a u) (defn_rows d b u) }
    ensures rows { (own : Own) (a b : List Input) → AgreeAsBags own.defn a b → (units : List Bounds) → IsSameBag (rows_over own a units) (rows_over own b units) }
    ensures pieces { (own : Own) (a b : List Input) → AgreeAsBags own.defn a b → (u : Bounds) → IsSameBag (piece_over own a u) (piece_over own b u) }
{}

/// Where each source that a model and its ancestors declare has the same rows when it is cut to the declared columns,
/// in whatever order the rows and the columns stand, and whatever other columns it has, the model's rows from scratch
/// are the same but for their order, and so are those of each unit. So it is of one model over the tables that it
/// names, and of each of its units.
pub fn models_respect_bags()
    ensures scratch { (a b : List Input) (c : Closure) → HaveSameSources a b c → (clock : Clock) → IsSameBag (from_scratch a clock c) (from_scratch b clock c) }
    ensures units { (a b : List Input) (c : Closure) → HaveSameSources a b c → (clock : Clock) (u : Bounds) → IsSameBag (piece a clock c u) (piece b clock c u) }
    ensures inputs { (a b : List Input) (own : Own) → HasSameSources a b own → (ts us : List Input) → AreSameTables (defn_names own.defn) ts us → AreSameTables (defn_names own.defn) (inputs a own ts) (inputs b own us) }
    ensures rows { (a b : List Input) (own : Own) → AreSameTables (defn_names own.defn) a b → (units : List Bounds) → IsSameBag (rows_over own a units) (rows_over own b units) }
    ensures pieces { (a b : List Input) (own : Own) → AreSameTables (defn_names own.defn) a b → (u : Bounds) → IsSameBag (piece_over own a u) (piece_over own b u) }
{}

/// What a query that is seen names is found among tables of the names and columns that it was seen over: what each
/// FROM item reads is there, a CTE among those before, and each column that a SELECT names is one of what its FROM
/// item reads. So it is for a well-formed definition over its declared sources and its parents, also from scratch.
pub fn well_formed_definitions_find_all()
    ensures query { (relations : List Relation) (q : Query) (tables : List Input) → is_query_seen relations q ≡ true → map input_relation tables ≡ relations → (u : Bounds) → QueryFindsAll q tables u }
    ensures definition { (parents : List Parent) (own : Own) → is_well_formed parents own ≡ true → (tables : List Input) → map input_relation tables ≡ map parent_relation parents →
        (sources : List Input) (u : Bounds) → DefnFindsAll own.defn (inputs sources own tables) u }
    ensures closure { (parents : List Parent) (own : Own) (cs : Closures) → is_well_formed parents own ≡ true → map model_relation (each_of cs) ≡ map parent_relation parents →
        (sources : List Input) (clock : Clock) (u : Bounds) → DefnFindsAll own.defn (inputs_of sources clock (Model own cs)) u }
{}

/// Each model of a proper project, and each of its ancestors, has a cron that reading can give, and so a last tick at
/// each moment. And each finds all that it names, from scratch.
pub fn proper_projects_find_all()
    ensures crons { (nodes : List Node) → is_proper nodes ≡ true → All HasCrons (closures nodes) }
    ensures found { (nodes : List Node) → is_proper nodes ≡ true → (sources : List Input) (clock : Clock) (u : Bounds) →
        All (λ c. DefnFindsAll (own_of c).defn (inputs_of sources clock c) u) (closures nodes) }
{}

/// In a proper project the parents of each model stand at places before it, and have lower ranks. So its closure has
/// theirs as parents, in the order of their places.
pub fn parents_stand_before_their_models()
    ensures earlier { (nodes : List Node) → is_proper nodes ≡ true → (before after : List Node) (n : Node) → before ++ n ∷ after ≡ nodes →
        All (λ i. (m : Node) × (slice_get before i ≡ Some m) × (m.rank < n.rank)) n.parents }
    ensures closures { (nodes : List Node) → is_proper nodes ≡ true → (before after : List Node) (n : Node) → before ++ n ∷ after ≡ nodes →
        (parents : Closures) × (slice_get (closures nodes) (length before) ≡ Some (Model n.own parents))
        × (each_of parents ≡ flat_map (λ i. option_to_list (slice_get (closures nodes) i)) n.parents) }
{}
