// Closures of snapshots, and projects of lists.
ghost use Rattle.std.specs.Prelude.{◌≡◌, ◌↔◌, true, List, map, length, Some};
ghost use Rattle.std.specs.List.{All, Contains};
ghost use Rattle.mesh_list.specs.Keyed.{ascends};
ghost use Rattle.mesh_base.specs.Keys.{snapshot_ref};
ghost use Rattle.mesh_base.specs.declared.snapshots.Env.{Env};
ghost use Rattle.mesh_base.specs.declared.snapshots.Ref.{Ref};
ghost use Rattle.mesh_base.specs.declared.snapshots.Snapshot.{Snapshot};
ghost use Rattle.mesh_base.specs.rules.Proper.{is_proper};
ghost use Rattle.mesh_spec_model.specs.Closures.{Closures, Model, closures, each_of};
ghost use Rattle.mesh_house_book.specs.declared.book.Book.{Book};
ghost use Rattle.mesh_house_book.specs.WellFormed.{is_well_formed_book, snapshot_at};
ghost use Rattle.mesh_spec_changes.specs.listed.Closing.{IsAlike, IsSnapshot, closing, closure_at, parents_by};
ghost use Rattle.mesh_spec_changes.specs.listed.Listed.{entries, is_list_fit, listed, rank_cmp, snapshot_itself};

/// In a well-formed book the closure of a snapshot is its definition with the closures of its parents, of which none is
/// missing.
pub fn snapshots_stand_on_their_parents_closures()
    ensures closure { (b : Book) → is_well_formed_book b ≡ true → (s : Snapshot) → IsSnapshot b.snapshots s → closing b.snapshots s ≡ Model s.own (parents_by (closing b.snapshots) b.snapshots s.parents) }
    ensures reference { (b : Book) → is_well_formed_book b ≡ true → (r : Ref) (s : Snapshot) → snapshot_at b.snapshots r ≡ Some s →
        (parents : Closures) × (closure_at b.snapshots r ≡ Some (Model s.own parents)) × (map Some (each_of parents) ≡ map (closure_at b.snapshots) s.parents) }
{}

/// A snapshot has one closure in two lists of snapshots where each of the first is in the second, with its
/// definition, its parents and its rank. So a closure stays where others are put.
pub fn closures_stay_where_snapshots_are_put()
    ensures { (b : Book) → is_well_formed_book b ≡ true → (all : List Snapshot) → ((r : Ref) (p : Snapshot) → snapshot_at b.snapshots r ≡ Some p → IsAlike all r p) →
        (p q : Snapshot) → IsSnapshot b.snapshots p → q.own ≡ p.own → q.parents ≡ p.parents → q.rank ≡ p.rank → closing all q ≡ closing b.snapshots p }
{}

/// Each environment of a well-formed book has a list that one may have.
pub fn environments_have_fit_lists()
    ensures { (b : Book) → is_well_formed_book b ≡ true → All (λ (e : Env). is_list_fit b.snapshots e.list ≡ true) b.environments }
{}

/// The entries of such a list are just the snapshots of the book that it names, by rank and name, and a model of its
/// project stands for each. It is a proper project.
pub fn lists_are_projects()
    ensures entries { (b : Book) (list : List Ref) → is_well_formed_book b ≡ true → is_list_fit b.snapshots list ≡ true →
        (s : Snapshot) → Contains (entries b.snapshots list) s ↔ (Contains list (snapshot_ref s) × IsSnapshot b.snapshots s) }
    ensures order { (b : Book) (list : List Ref) → is_well_formed_book b ≡ true → is_list_fit b.snapshots list ≡ true → ascends rank_cmp snapshot_itself (entries b.snapshots list) ≡ true }
    ensures each { (b : Book) (list : List Ref) → is_well_formed_book b ≡ true → is_list_fit b.snapshots list ≡ true → length (entries b.snapshots list) ≡ length list }
    ensures proper { (b : Book) (list : List Ref) → is_well_formed_book b ≡ true → is_list_fit b.snapshots list ≡ true → is_proper (listed b.snapshots list) ≡ true }
{}

/// The closures of that project are those that the book has of its entries.
pub fn projects_of_lists_have_the_closures_of_the_book()
    ensures snapshots { (b : Book) (list : List Ref) → is_well_formed_book b ≡ true → is_list_fit b.snapshots list ≡ true → closures (listed b.snapshots list) ≡ map (closing b.snapshots) (entries b.snapshots list) }
    ensures references { (b : Book) (list : List Ref) → is_well_formed_book b ≡ true → is_list_fit b.snapshots list ≡ true →
        map Some (closures (listed b.snapshots list)) ≡ map (closure_at b.snapshots) (map snapshot_ref (entries b.snapshots list)) }
{}
