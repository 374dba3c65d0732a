// What the definitions give.
ghost use Rattle.std.specs.Prelude.{◌≡◌, true, false, ℕ, ℤ, pos, ◌+ℤ◌, ◌*ℤ◌, ◌↔◌, IsTrue, List, [], ◌∷◌, ◌++◌, map, length, nat_lt, Some, None};
ghost use Rattle.std.specs.List.{All, Contains, filter, find, flat_map, list_all, list_any, slice_get};
ghost use Rattle.std.specs.Option.{option_to_list};
ghost use Rattle.std.specs.declared.option.Option.{Option};
ghost use Rattle.mesh_base_values.specs.Picked.{cell_of, same_text};
ghost use Rattle.mesh_base_values.specs.declared.times.Bounds.{Bounds};
ghost use Rattle.mesh_base_values.specs.declared.times.Schedule.{Schedule};
ghost use Rattle.mesh_base_values.specs.declared.times.Unit.{Unit as TimeUnit};
ghost use Rattle.mesh_base_values.specs.Crons.{CronSets, is_cron};
ghost use Rattle.mesh_base_values.specs.Kinds.{is_incremental, time_column};
ghost use Rattle.mesh_base.specs.declared.jobs.Input.{Input};
ghost use Rattle.mesh_base_values.specs.declared.values.Cell.{Cell};
ghost use Rattle.mesh_base_values.specs.declared.values.Column.{Column};
ghost use Rattle.mesh_base.specs.declared.definitions.Own.{Own};
ghost use Rattle.mesh_base_values.specs.declared.kinds.Kind.TheVariants as kind;
ghost use Rattle.mesh_base.specs.declared.definitions.Defn.TheVariants as defn;
ghost use Rattle.mesh_base.specs.declared.queries.Query.{Query};
ghost use Rattle.mesh_base.specs.declared.snapshots.Node.{Node};
ghost use Rattle.mesh_base.specs.Outputs.{columns_of};
ghost use Rattle.mesh_time_days.specs.Moments.{IsMoment};
ghost use Rattle.mesh_time.specs.Ranges.{IsWithin, unit_at, unit_size, units};
ghost use Rattle.mesh_time.specs.Ticks.{IsFloor};
ghost use Rattle.mesh_spec_query.specs.Sel.{Sel};
ghost use Rattle.mesh_spec_model.specs.Closures.{Closure, Closures, Model, Alone, With, own_of, parents_of, each_of, ancestors, closures};
ghost use Rattle.mesh_spec_model.specs.Horizons.{Clock, Shows, HasCrons, floored, is_timed, last_tick, least_of, horizon, schedule};
ghost use Rattle.mesh_spec_model.specs.Sources.{declared_rows};
ghost use Rattle.mesh_time_days.specs.seconds.Times.{lies_in, time_of};
ghost use Rattle.mesh_spec_model.specs.Scratch.{from_scratch, inputs_of, no_bounds, defn_rows, piece};

/// The closures of a project are one for each model, and the parents of each are among them. Where a model's parents
/// stand before it, its closure has theirs as parents, in the order of their places.
pub fn projects_are_closed_under_parents()
    ensures one_each { (nodes : List Node) → map own_of (closures nodes) ≡ map (λ (n : Node). n.own) nodes }
    ensures closed { (nodes : List Node) → All (λ c. All (Contains (closures nodes)) (each_of (parents_of c))) (closures nodes) }
    ensures places { (before after : List Node) (n : Node) → list_all (λ i. nat_lt i (length before)) n.parents ≡ true →
        (parents : Closures) × (slice_get (closures (before ++ n ∷ after)) (length before) ≡ Some (Model n.own parents))
        × (each_of parents ≡ flat_map (λ i. option_to_list (slice_get (closures (before ++ n ∷ after)) i)) n.parents) }
{}

/// The rows of a seed are its file's, and those of a view or a FULL model its query's. An incremental model's are taken
/// unit by unit of its schedule: what its query gives for the unit and lies in it by its time column. A model without a
/// time column has no rows of a unit.
pub fn rows_go_by_the_kind()
    ensures seed { (sources : List Input) (clock : Clock) (own : Own) (parents : Closures) (columns : List Column) (rows : List (List Cell)) → own.kind ≡ kind.Seed → own.defn ≡ defn.Seed columns rows →
        from_scratch sources clock (Model own parents) ≡ rows }
    ensures view { (sources : List Input) (clock : Clock) (own : Own) (parents : Closures) (q : Query) → own.kind ≡ kind.View → own.defn ≡ defn.Sql q →
        from_scratch sources clock (Model own parents) ≡ Sel q (inputs_of sources clock (Model own parents)) no_bounds }
    ensures full { (sources : List Input) (clock : Clock) (own : Own) (parents : Closures) (q : Query) → own.kind ≡ kind.Full → own.defn ≡ defn.Sql q →
        from_scratch sources clock (Model own parents) ≡ Sel q (inputs_of sources clock (Model own parents)) no_bounds }
    ensures incremental { (sources : List Input) (clock : Clock) (own : Own) (parents : Closures) (time : List ℕ) → time_column own.kind ≡ Some time →
        from_scratch sources clock (Model own parents) ≡ flat_map (piece sources clock (Model own parents)) (schedule clock (Model own parents)) }
    ensures piece { (sources : List Input) (clock : Clock) (c : Closure) (u : Bounds) (time : List ℕ) → time_column (own_of c).kind ≡ Some time →
        piece sources clock c u ≡ filter (lies_in (columns_of (own_of c)) time u) (defn_rows (own_of c).defn (inputs_of sources clock c) u) }
    ensures none { (sources : List Input) (clock : Clock) (c : Closure) (u : Bounds) → time_column (own_of c).kind ≡ None → piece sources clock c u ≡ [] }
{}

/// A FULL model of one seed has the rows of its query over the seed's rows.
pub fn full_models_read_their_seed()
    ensures { (sources : List Input) (clock : Clock) (own seed : Own) (q : Query) (columns : List Column) (rows : List (List Cell)) →
        own.kind ≡ kind.Full → own.defn ≡ defn.Sql q → own.sources ≡ [] → seed.kind ≡ kind.Seed → seed.defn ≡ defn.Seed columns rows →
        from_scratch sources clock (Model own (With (Model seed Alone) Alone)) ≡ Sel q (record { name = seed.name; columns = columns; rows = rows } ∷ []) no_bounds }
{}

/// Each row of an incremental model lies in a unit of its schedule.
pub fn rows_lie_in_the_schedule()
    ensures { (sources : List Input) (clock : Clock) (own : Own) (parents : Closures) (time : List ℕ) → time_column own.kind ≡ Some time →
        All (λ row. list_any (λ u. lies_in (columns_of own) time u row) (schedule clock (Model own parents)) ≡ true) (from_scratch sources clock (Model own parents)) }
{}

/// The horizon of an incremental model is the earliest of these: its own last tick, and its incremental ancestors'
/// horizons. Any other model's is its own last tick.
pub fn horizons_go_by_ancestors()
    ensures incremental { (clock : Clock) (own : Own) (parents : Closures) → is_incremental own.kind ≡ true →
        horizon clock (Model own parents) ≡ least_of (last_tick clock own) (map (horizon clock) (filter is_timed (ancestors parents))) }
    ensures other { (clock : Clock) (own : Own) (parents : Closures) → is_incremental own.kind ≡ false → horizon clock (Model own parents) ≡ last_tick clock own }
{}

/// The schedule of a model with a start has the units of its size from the first second of that day on that end by its
/// horizon. That of a model without one is empty.
pub fn schedules_go_from_the_start_to_the_horizon()
    ensures start { (clock : Clock) (own : Own) (parents : Closures) (day : ℤ) → own.start ≡ Some day →
        schedule clock (Model own parents) ≡ units (record { start = day *ℤ pos 86_400; end = horizon clock (Model own parents); unit = own.unit }) }
    ensures none { (clock : Clock) (own : Own) (parents : Closures) → own.start ≡ None → schedule clock (Model own parents) ≡ [] }
{}

/// A row lies in a unit where its time column has a second, and that is at least the unit's start and below its end. So
/// it lies in one unit of a schedule at most.
pub fn rows_lie_in_a_unit_by_their_second()
    ensures lies { (columns : List Column) (time : List ℕ) (u : Bounds) (row : List Cell) →
        (lies_in columns time u row ≡ true) ↔ ((t : ℤ) × (time_of (cell_of columns row time) ≡ Some t) × IsWithin u.start u.end t) }
    ensures one { (columns : List Column) (time : List ℕ) (s : Schedule) (i j : ℕ) (row : List Cell) →
        lies_in columns time (unit_at s i) row ≡ true → lies_in columns time (unit_at s j) row ≡ true → i ≡ j }
{}

/// A declared source has a row only where each declared column is there with its type, and its rows have one cell for
/// each declared column.
pub fn sources_have_the_declared_shape()
    ensures types { (columns : List Column) (s : Input) (row : List Cell) → Contains (declared_rows columns (Some s)) row → (c : Column) → Contains columns c →
        (head : Column) × (find (λ h. same_text h.name c.name) s.columns ≡ Some head) × (head.kind ≡ c.kind) }
    ensures cells { (columns : List Column) (o : Option Input) → All (λ row. length row ≡ length columns) (declared_rows columns o) }
{}

/// Each cron that reading can give has one last tick at each moment. So each moment has a clock that shows it.
pub fn moments_have_clocks()
    ensures ticks { (t : ℤ) → IsMoment t → (cron : CronSets) → IsTrue (is_cron cron) → (tick : ℤ) × IsFloor cron t tick }
    ensures one { (cron : CronSets) (t a b : ℤ) → IsFloor cron t a → IsFloor cron t b → a ≡ b }
    ensures clocks { (t : ℤ) → IsMoment t → (clock : Clock) × Shows clock t }
{}

/// A tick is floored to the start of the unit that it lies in: that start is a multiple of the unit's size, and no
/// other multiple begins a unit with the tick.
pub fn ticks_are_floored_to_their_unit()
    ensures within { (unit : TimeUnit) (t : ℤ) → IsWithin (floored unit t) (floored unit t +ℤ pos (unit_size unit)) t }
    ensures multiple { (unit : TimeUnit) (t : ℤ) → (k : ℤ) × (floored unit t ≡ k *ℤ pos (unit_size unit)) }
    ensures one { (unit : TimeUnit) (t k : ℤ) → IsWithin (k *ℤ pos (unit_size unit)) (k *ℤ pos (unit_size unit) +ℤ pos (unit_size unit)) t → floored unit t ≡ k *ℤ pos (unit_size unit) }
{}

/// A moment decides the horizon and the rows of a closure, whichever clock shows it.
pub fn moments_decide_rows()
    ensures horizons { (t : ℤ) (clock other : Clock) → Shows clock t → Shows other t → (c : Closure) → HasCrons c → horizon clock c ≡ horizon other c }
    ensures rows { (t : ℤ) (clock other : Clock) → Shows clock t → Shows other t → (c : Closure) → HasCrons c → (sources : List Input) → from_scratch sources clock c ≡ from_scratch sources other c }
{}
