// A warehouse as the program sees it.
ghost use Rattle.std.specs.Prelude.{◌≡◌};
ghost use Rattle.mesh_house.specs.declared.house.WhFail.TheVariants.{Memory};
ghost use Rattle.mesh_house.specs.World.{head, body, view, book};
ghost use Rattle.mesh_house.specs.House.{Told, Changes, Reads};

use crate::objects::Body;
use crate::world::Change;
use mesh_base_values::{Columns, Name};
use mesh_house_book::Book;
use mesh_list::Memory;
use std::alloc::Global;
use thiserror::Error;

/// Why a call of a warehouse stopped.
#[derive(Clone, Copy, Debug, PartialEq, Eq, Error)]
pub enum WhFail {
    /// The count of faults rose.
    #[error("the warehouse failed")]
    Failed,
    /// There was not enough memory, and no change was made.
    #[error("out of memory")]
    Memory,
}

impl From<Memory> for WhFail {
    ghost from_gives = { λ _ e. e ≡ Memory };

    fn from(_error: Memory) -> WhFail {
        WhFail::Memory
    }
}

/// What keeps a world.
pub trait Warehouse {
    /// Its world, where it tells one, and how many changes were called for and how many faults came.
    ghost told: { Self → Told };

    /// Makes a change. Where it failed, the change may have taken effect or not.
    fn change(&mut self, alloc: Global, change: &Change) -> Result<(), WhFail>
        ensures { Changes change.now (told self.old) (told self.new) result };

    /// The columns of the object of that name where two underscores adjoin in its schema, and else of the source.
    fn head(&mut self, alloc: Global, name: &Name) -> Result<Option<Columns>, WhFail>
        ensures { Reads (λ w. head w name.now) (told self.old) (told self.new) result };

    /// What the object of that name keeps where two underscores adjoin in its schema, and else the source's rows.
    fn body(&mut self, alloc: Global, name: &Name) -> Result<Option<Body>, WhFail>
        ensures { Reads (λ w. body w name.now) (told self.old) (told self.new) result };

    /// The object that the view of that name points at.
    fn view(&mut self, alloc: Global, name: &Name) -> Result<Option<Name>, WhFail>
        ensures { Reads (λ w. view w name.now) (told self.old) (told self.new) result };

    /// What is recorded beside the tables and views.
    fn book(&mut self, alloc: Global) -> Result<Book, WhFail>
        ensures { Reads book (told self.old) (told self.new) result };

    /// How many faults came so far, which never falls.
    fn faults(&self) -> u64
        ensures { result ≡ (told self.now).faults };

    /// How many changes were called for so far, whatever came of them.
    fn calls(&self) -> u64
        ensures { result ≡ (told self.now).calls };
}
