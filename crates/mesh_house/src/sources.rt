// The sources of a warehouse: tables that are loaded, and that no model makes.
ghost use Rattle.std.specs.Prelude.{◌≡◌, [], true, false, OnOk, OnErr};
ghost use Rattle.std.specs.Option.{option_copied};
ghost use Rattle.mesh_base_values.specs.Names.{name_cmp};
ghost use Rattle.mesh_list.specs.Keyed.{found, placed, ascends};
ghost use Rattle.mesh_base.specs.Keys.{input_name};
ghost use Rattle.mesh_house.specs.Objects.{is_physical};
ghost use Rattle.mesh_house.specs.Sources.{are_plain};

use mesh_base::Input;
use mesh_base_values::Name;
use mesh_list::{Duplicate, Memory, Same, Sorted};
use std::alloc::Global;
use std::marker::Model;

/// Sources in strictly ascending order of their names, each of a schema where no two underscores adjoin.
pub struct SourceTables {
    list: Sorted<Input>,
}

impl Drop for SourceTables {
    fn drop(self) {
        let SourceTables { list: _ } = self;
    }
}

impl Model for SourceTables {
    ghost use Rattle.std.specs.Prelude.{List, true, ◌≡◌};
    ghost use Rattle.mesh_base.specs.declared.jobs.Input.{Input};
    ghost use Rattle.mesh_house.specs.Sources.{are_plain};

    ghost Value = { List Input };

    ghost view = { λ a. a.list };

    ghost invariant = { λ a. are_plain a.list ≡ true };
}

impl SourceTables {
    /// No sources, which take no memory.
    pub fn new(alloc: Global) -> SourceTables
        ensures { result ≡ [] }
    {
        SourceTables {
            list: Sorted::new(alloc),
        }
    }

    /// The sources, which stay where they lie.
    pub fn as_slice(&self) -> &[Input]
        ensures items { result.now ≡ self.now }
        ensures ascending { ascends name_cmp input_name self.now ≡ true }
        ensures plain { are_plain self.now ≡ true }
    {
        self.list.as_slice()
    }

    /// The source of that name.
    pub fn find(&self, name: &Name) -> Option<&Input>
        ensures { option_copied result ≡ found name_cmp input_name name.now self.now }
    {
        self.list.find(name)
    }

    /// Puts a source at its place, instead of the one that had its name. At `Err` nothing has changed.
    pub fn place(&mut self, source: Input) -> Result<(), Memory>
        requires { is_physical source.name ≡ false }
        ensures ok { OnOk result (self.new ≡ placed name_cmp input_name source self.old) }
        ensures err { OnErr result (self.new ≡ self.old) }
    {
        self.list.place(source)?;
        Ok(())
    }
}

impl Duplicate for SourceTables {
    fn copy(&self) -> Result<SourceTables, Memory> {
        Ok(SourceTables {
            list: self.list.copy()?,
        })
    }
}

impl Same for SourceTables {
    fn same(&self, other: &SourceTables) -> bool {
        self.list.same(&other.list)
    }
}
