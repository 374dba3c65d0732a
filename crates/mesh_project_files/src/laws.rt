// What the files of a project say is one thing.
ghost use Rattle.std.specs.Prelude.{◌≡◌, ℕ, List, Ok, Err};
ghost use Rattle.mesh_io.specs.declared.files.File.{File as Files};
ghost use Rattle.mesh_query_tokens.specs.declared.faults.FaultKind.{FaultKind as Kinds};
ghost use Rattle.mesh_project_files.specs.declared.faults.LoadFault.TheVariants as fault;
ghost use Rattle.mesh_project_files.specs.declared.project.ProjectFiles.{ProjectFiles};
ghost use Rattle.mesh_project_files.specs.Project.{AreFiles};

/// The same files in the same place have the same sources and models or the same first fault, and never both.
pub fn files_say_one_thing()
    ensures one { (files : List Files) (dir : List ℕ) (a b : ProjectFiles) → AreFiles files dir (Ok a) → AreFiles files dir (Ok b) → a ≡ b }
    ensures one_fault { (files : List Files) (dir : List ℕ) (file other : List ℕ) (at to : ℕ) (kind what : Kinds) → AreFiles files dir (Err (fault.Fault file at kind)) → AreFiles files dir (Err (fault.Fault other to what)) → (file ≡ other) × (at ≡ to) × (kind ≡ what) }
    ensures never_both { (files : List Files) (dir : List ℕ) (a : ProjectFiles) (file : List ℕ) (at : ℕ) (kind : Kinds) → AreFiles files dir (Ok a) → AreFiles files dir (Err (fault.Fault file at kind)) → ⊥ }
{}
