// What is read of a body.
ghost use Rattle.std.specs.Prelude.{◌≡◌, ◌↔◌, true, ℕ, List, Some};
ghost use Rattle.mesh_base.specs.declared.jobs.Input.{Input};
ghost use Rattle.mesh_base.specs.declared.snapshots.Env.{Env};
ghost use Rattle.mesh_base.specs.declared.snapshots.Snapshot.{Snapshot};
ghost use Rattle.mesh_house_book.specs.declared.versions.Version.{Version};
ghost use Rattle.mesh_house.specs.declared.objects.Object.{Object};
ghost use Rattle.mesh_house.specs.declared.world.ViewOf.{ViewOf};
ghost use Rattle.mesh_canon_reading.specs.Fits.{text_fits};
ghost use Rattle.mesh_keep_records.specs.declared.book_records.BookHead.{BookHead};
ghost use Rattle.mesh_keep_records.specs.Records.{IsObjectText, IsSnapshotText, env_fits, env_text, head_fits, head_text, object_fits, snapshot_fits, source_fits, source_text, version_fits, version_text, view_text};
ghost use Rattle.mesh_keep_records.specs.reading.Reading.{env_in, head_in, object_in, snapshot_in, source_in, version_in, view_in};

/// A body says exactly the thing that a program can hold and that has this body.
pub fn bodies_are_read()
    ensures heads { (t : List ℕ) (x : BookHead) → (head_in t ≡ Some x) ↔ ((text_fits t ≡ true) × (head_fits x ≡ true) × (t ≡ head_text x)) }
    ensures snapshots { (t : List ℕ) (x : Snapshot) → (snapshot_in t ≡ Some x) ↔ ((text_fits t ≡ true) × (snapshot_fits x ≡ true) × IsSnapshotText t x) }
    ensures versions { (t : List ℕ) (x : Version) → (version_in t ≡ Some x) ↔ ((text_fits t ≡ true) × (version_fits x ≡ true) × (t ≡ version_text x)) }
    ensures environments { (t : List ℕ) (x : Env) → (env_in t ≡ Some x) ↔ ((text_fits t ≡ true) × (env_fits x ≡ true) × (t ≡ env_text x)) }
    ensures views { (t : List ℕ) (x : ViewOf) → (view_in t ≡ Some x) ↔ ((text_fits t ≡ true) × (t ≡ view_text x)) }
    ensures objects { (t : List ℕ) (x : Object) → (object_in t ≡ Some x) ↔ ((text_fits t ≡ true) × (object_fits x ≡ true) × IsObjectText t x) }
    ensures sources { (t : List ℕ) (x : Input) → (source_in t ≡ Some x) ↔ ((text_fits t ≡ true) × (source_fits x ≡ true) × (t ≡ source_text x)) }
{}
