// What goes, and what stays.
ghost use Rattle.std.specs.Prelude.{◌≡◌, ◌↔◌, ℤ, true, false, Some};
ghost use Rattle.std.specs.List.{Contains};
ghost use Rattle.mesh_base_values.specs.declared.values.Name.{Name};
ghost use Rattle.mesh_base.specs.declared.snapshots.Ref.{Ref};
ghost use Rattle.mesh_base.specs.declared.snapshots.Snapshot.{Snapshot};
ghost use Rattle.mesh_house_book.specs.declared.book.Book.{Book};
ghost use Rattle.mesh_house_book.specs.WellFormed.{is_well_formed_book, snapshot_at};
ghost use Rattle.mesh_spec_changes.specs.Kept.{gone_snapshots, gone_tables, is_kept};

/// In a book that breaks no rule, what a snapshot stands on stays where the snapshot does. The snapshots that go are
/// just those that don't stay, and no table goes that one uses that stays.
pub fn what_is_used_stays()
    ensures parents { (b : Book) (t : ℤ) → is_well_formed_book b ≡ true → (s p : Snapshot) (r : Ref) → Contains b.snapshots s → is_kept b t s ≡ true →
        Contains s.parents r → snapshot_at b.snapshots r ≡ Some p → is_kept b t p ≡ true }
    ensures snapshots { (b : Book) (t : ℤ) → is_well_formed_book b ≡ true → (s : Snapshot) →
        Contains (gone_snapshots b t) s ↔ (Contains b.snapshots s × (is_kept b t s ≡ false)) }
    ensures tables { (b : Book) (t : ℤ) (s : Snapshot) → Contains b.snapshots s → is_kept b t s ≡ true → Contains (gone_tables b t) s.object → ⊥ }
{}
