// The head of the book, before there is a world.
ghost use Rattle.std.specs.Prelude.{◌≡◌, [], ◌∷◌, OnOk};
ghost use Rattle.mesh_keep.specs.Places.{write_one};
ghost use Rattle.mesh_keep_house.specs.stored.Begun.{Makes, begun, first_write};

use crate::bodies::head_body;
use mesh_house_book::BOOK_VERSION;
use mesh_keep::{KeepFail, Keeper, Write, Writes};
use mesh_keep_records::{BookHead, head_key};
use mesh_list::{Memory, Seq, together};
use std::alloc::Global;

// The write of the record of an empty book's head.
#[tactic(auto, unfolding(crate::specs::stored::Begun::first_write))]
fn list_first(alloc: Global, writes: &mut Writes) -> Result<(), Memory>
    requires { writes.old ≡ [] }
    ensures { OnOk result (writes.new ≡ first_write ∷ []) }
{
    let head = BookHead {
        version: BOOK_VERSION,
        moment: 0,
    };
    let (name, body) = together(head_key(alloc), head_body(alloc, &head))?;
    writes.push(Write {
        kind: 0,
        name,
        body: Some(body),
    })
}

// Puts the head of an empty book.
fn put_first<K: Keeper>(alloc: Global, keeper: &mut K) -> Result<(), KeepFail>
    ensures { Makes (λ kept. write_one kept first_write) (K.told keeper.old) (K.told keeper.new) result }
{
    let mut writes = Seq::new(alloc);
    list_first(alloc, &mut writes)?;
    keeper.write(alloc, &writes)
}

/// Where there is no record of the moment, puts that of an empty book.
pub fn begin<K: Keeper>(alloc: Global, keeper: &mut K) -> Result<(), KeepFail>
    ensures { Makes begun (K.told keeper.old) (K.told keeper.new) result }
{
    let name = head_key(alloc)?;
    match keeper.get(alloc, 0, &name)? {
        Some(_) => Ok(()),
        None => put_first(alloc, keeper),
    }
}
