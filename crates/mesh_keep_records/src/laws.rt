// What holds of all bodies.
ghost use Rattle.std.specs.Prelude.{◌≡◌, true, ℕ, List};
ghost use Rattle.mesh_base.specs.declared.jobs.Input.{Input};
ghost use Rattle.mesh_base.specs.declared.snapshots.Env.{Env};
ghost use Rattle.mesh_base.specs.declared.snapshots.Snapshot.{Snapshot};
ghost use Rattle.mesh_house_book.specs.declared.versions.Version.{Version};
ghost use Rattle.mesh_house.specs.declared.objects.Object.{Object};
ghost use Rattle.mesh_house.specs.declared.world.ViewOf.{ViewOf};
ghost use Rattle.mesh_canon_reading.specs.Fits.{text_fits};
ghost use Rattle.mesh_keep_records.specs.declared.book_records.BookHead.{BookHead};
ghost use Rattle.mesh_keep_records.specs.Records.{IsObjectText, IsSnapshotText, env_fits, env_text, head_fits, head_text, object_fits, snapshot_fits, source_fits, source_text, version_fits, version_text, view_text};

/// Two things of one kind that have one body are equal.
pub fn one_body_one_thing()
    ensures heads { (t : List ℕ) (a b : BookHead) → text_fits t ≡ true → head_fits a ≡ true → head_fits b ≡ true →
        t ≡ head_text a → t ≡ head_text b → a ≡ b }
    ensures snapshots { (t : List ℕ) (a b : Snapshot) → text_fits t ≡ true → snapshot_fits a ≡ true → snapshot_fits b ≡ true →
        IsSnapshotText t a → IsSnapshotText t b → a ≡ b }
    ensures versions { (t : List ℕ) (a b : Version) → text_fits t ≡ true → version_fits a ≡ true → version_fits b ≡ true →
        t ≡ version_text a → t ≡ version_text b → a ≡ b }
    ensures environments { (t : List ℕ) (a b : Env) → text_fits t ≡ true → env_fits a ≡ true → env_fits b ≡ true →
        t ≡ env_text a → t ≡ env_text b → a ≡ b }
    ensures views { (t : List ℕ) (a b : ViewOf) → text_fits t ≡ true → t ≡ view_text a → t ≡ view_text b → a ≡ b }
    ensures objects { (t : List ℕ) (a b : Object) → text_fits t ≡ true → object_fits a ≡ true → object_fits b ≡ true →
        IsObjectText t a → IsObjectText t b → a ≡ b }
    ensures sources { (t : List ℕ) (a b : Input) → text_fits t ≡ true → source_fits a ≡ true → source_fits b ≡ true →
        t ≡ source_text a → t ≡ source_text b → a ≡ b }
{}
