// Models as they read one another, and what comes of it.
use mesh_base_values::{Name, Names};
use mesh_list::Seq;

/// A model, and the relations that its query names, in any order, some of them perhaps no models.
pub struct Reader {
    pub name: Name,
    pub reads: Names,
}

impl Drop for Reader {
    fn drop(self) {
        let Reader { name: _, reads: _ } = self;
    }
}

/// A model's place in the list that was given, and its rank.
#[derive(Clone, Copy)]
pub struct Ranked {
    pub at: u32,
    pub rank: u32,
}

pub type Order = Seq<Ranked>;

/// Why there is no order: the names of all models that reach themselves, or want of memory.
#[derive(Drop)]
pub enum OrderFault {
    Cycle { names: Names },
    Memory,
}

/// An order, or the names of all models that reach themselves.
#[derive(Drop)]
pub(crate) enum Outcome {
    Ordered(Order),
    Cyclic(Names),
}
