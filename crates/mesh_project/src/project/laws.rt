// The laws of projects. These functions compute nothing.
ghost use Rattle.std.specs.Prelude.{◌≡◌, ◌≤◌, ℕ, List, length, map, Ok, true};
ghost use Rattle.std.specs.List.{AllByRecursion};
ghost use Rattle.mesh_base.specs.declared.definitions.Decl.{Decl};
ghost use Rattle.mesh_base.specs.declared.definitions.Defn.TheVariants as body;
ghost use Rattle.mesh_base.specs.declared.queries.Query.{Query};
ghost use Rattle.mesh_base.specs.declared.snapshots.Node.{Node};
ghost use Rattle.mesh_io.specs.declared.files.File.{File as Files};
ghost use Rattle.mesh_query_tokens.specs.declared.faults.FaultKind.{FaultKind as Kinds};
ghost use Rattle.mesh_base.specs.rules.Proper.{ProjectNodes, defn_names, is_proper};
ghost use Rattle.mesh_query_grammar.specs.declared.surface.queries.Surface.{Surface};
ghost use Rattle.mesh_resolve.specs.declared.known.Known.{Known};
ghost use Rattle.mesh_resolve.specs.Owns.{own};
ghost use Rattle.mesh_resolve.specs.Queries.{resolved};
ghost use Rattle.mesh_project.specs.declared.order.readers.Ranked.{Ranked};
ghost use Rattle.mesh_project.specs.order.Order.{AreApart, IsOrder};
ghost use Rattle.mesh_project_files.specs.declared.project.ModelFile.{ModelFile};
ghost use Rattle.mesh_project_files.specs.declared.project.ProjectFiles.{ProjectFiles};
ghost use Rattle.mesh_project.specs.nodes.Nodes.{IsWhole, known_before, known_to, nodes_of, parents_of};
ghost use Rattle.mesh_project.specs.project.Project.{IsFirstFault, Loads, reader_of};
ghost use Rattle.mesh_project.specs.nodes.Reads.{query_reads};

/// A resolved query names the relations of two parts that its text names, as often and in the same order.
#[tactic(auto, using(crate::proofs::nodes::Agree::names_agree))]
pub fn resolved_names_are_those_of_the_text()
    ensures { (known : Known) (surface : Surface) (query : Query) → resolved known surface ≡ Ok query → defn_names (body.Sql query) ≡ query_reads surface }
{}

/// A model's definition over the models that its query names is that over all models before it.
#[tactic(auto, using(crate::proofs::nodes::Tables::named_suffice))]
pub fn models_that_are_named_suffice()
    ensures { (sources : List Decl) (nodes : List Node) (f : ModelFile) → own f.text f.seed (known_to sources nodes (parents_of nodes f) f.text.kind) ≡ own f.text f.seed (known_before sources nodes f.text.kind) }
{}

/// The models of files whose names differ, by rank and name, each over those before it, are a proper project.
#[tactic(auto, using(crate::proofs::project::Whole::proper))]
pub fn models_in_order_are_a_project()
    ensures { (files : ProjectFiles) (order : List Ranked) (nodes : List Node) → AllByRecursion IsWhole files.models → AreApart (map reader_of files.models) → IsOrder (map reader_of files.models) order → nodes_of files.sources files.models order ≡ Ok nodes → length files.models ≤ 4096 → is_proper nodes ≡ true }
{}

/// The same files in the same place are one project or have one first fault, and never both.
pub fn files_are_one_project()
    ensures one { (files : List Files) (dir : List ℕ) (a b : ProjectNodes) → Loads files dir a → Loads files dir b → a ≡ b }
    ensures one_fault { (files : List Files) (dir : List ℕ) (file other : List ℕ) (at to : ℕ) (kind what : Kinds) → IsFirstFault files dir file at kind → IsFirstFault files dir other to what → (file ≡ other) × (at ≡ to) × (kind ≡ what) }
    ensures never_both { (files : List Files) (dir : List ℕ) (a : ProjectNodes) (file : List ℕ) (at : ℕ) (kind : Kinds) → Loads files dir a → IsFirstFault files dir file at kind → ⊥ }
{}
