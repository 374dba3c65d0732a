// A law of objects. Its function computes nothing.
ghost use Rattle.std.specs.Prelude.{◌≡◌, List, map};
ghost use Rattle.std.specs.List.{All, AllByRecursion};
ghost use Rattle.mesh_base.specs.declared.snapshots.Node.{Node};
ghost use Rattle.mesh_house_book.specs.declared.book.Book.{Book};
ghost use Rattle.mesh_spec_changes.specs.due.Plans.{Planned};
ghost use Rattle.mesh_spec_changes.specs.Planning.{HasNoClash};
ghost use Rattle.mesh_category.specs.versions.Clashes.{IsAlone};

/// Where each model's fingerprint stands for it alone, a plan of these models has no clash.
pub fn what_is_alone_has_no_clash()
    ensures { (b : Book) (models : List Planned) (nodes : List Node) → map (λ (p : Planned). p.node) models ≡ nodes → All (IsAlone b.snapshots nodes) nodes → AllByRecursion (HasNoClash b models) models }
{}
