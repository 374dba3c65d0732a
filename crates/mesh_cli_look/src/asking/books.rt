// The book, and the environment that a command looks at.
ghost use Rattle.std.specs.Prelude.{◌≡◌, List, Ok, Err};
ghost use Rattle.mesh_base.specs.declared.snapshots.Ref.{Ref};
ghost use Rattle.mesh_spec_changes.specs.Environments.{env_at};
ghost use Rattle.mesh_cli_print.specs.declared.printed.refusals.Refusal.TheVariants.{EnvUnknown, EnvPending};
ghost use Rattle.mesh_cli_look.specs.asking.Looks.{Gives, Looks, final_list, list_of};

use mesh_base::Refs;
use mesh_base_values::Str;
use mesh_cli_print::printed::Refusal;
use mesh_house::{Warehouse, WhFail};
use mesh_house_book::{BOOK_VERSION, Book, book_fault};
use mesh_list::Duplicate;
use std::alloc::Global;

/// The book, as it is read.
pub(crate) fn book_of<W: Warehouse>(alloc: Global, house: &mut W) -> Result<Book, Refusal>
    ensures { Looks (λ w. Ok w.book) (W.told house.old) (W.told house.new) result }
{
    match house.book(alloc) {
        Ok(book) => Ok(book),
        Err(WhFail::Failed) => Err(Refusal::Warehouse),
        Err(WhFail::Memory) => Err(Refusal::Memory),
    }
}

fn unknown(env: &Str) -> Refusal
    ensures { Gives {T = List Ref} (Err result) (Err (EnvUnknown env.now)) }
{
    match env.copy() {
        Ok(env) => Refusal::EnvUnknown { env },
        Err(_) => Refusal::Memory,
    }
}

fn pending(env: &Str) -> Refusal
    ensures { Gives {T = List Ref} (Err result) (Err (EnvPending env.now)) }
{
    match env.copy() {
        Ok(env) => Refusal::EnvPending { env },
        Err(_) => Refusal::Memory,
    }
}

fn final_list(b: &Book, env: &Str) -> Result<Refs, Refusal>
    ensures { Gives result (final_list env.now (env_at b.now env.now)) }
{
    match b.environments.find(env) {
        None => Err(unknown(env)),
        Some(e) => {
            if e.pending {
                return Err(pending(env));
            }
            let list = e.list.copy()?;
            Ok(list)
        }
    }
}

/// The list of an environment that is there and isn't pending, by a book that breaks no rule and is of the present
/// version.
pub(crate) fn list_of(b: &Book, env: &Str) -> Result<Refs, Refusal>
    ensures { Gives result (list_of b.now env.now) }
{
    match book_fault(b) {
        Some(fault) => Err(Refusal::BookBroken {
            part: fault.part,
            place: fault.place,
        }),
        None => {
            if b.version == BOOK_VERSION {
                final_list(b, env)
            } else {
                Err(Refusal::StateOld { version: b.version })
            }
        }
    }
}
