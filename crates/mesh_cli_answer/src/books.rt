// The book of a warehouse, and whether it is as a command needs it.
ghost use Rattle.std.specs.Prelude.{◌≡◌, true, false, IfOk, IfErr};
ghost use Rattle.mesh_spec_changes.specs.Commands.{is_present};
ghost use Rattle.mesh_cli_answer.specs.Answers.{as_refusal, is_fault};
ghost use Rattle.mesh_cli_answer.specs.Present.{IsNotPresent, ReadsPresent};

use mesh_cli_print::printed::Refusal;
use mesh_house::{Warehouse, WhFail};
use mesh_house_book::{BOOK_VERSION, Book, book_fault};
use std::alloc::Global;

/// What a command tells where a warehouse's call stopped.
pub fn as_refusal(fail: WhFail) -> Refusal
    ensures { result ≡ as_refusal fail }
{
    match fail {
        WhFail::Failed => Refusal::Warehouse,
        WhFail::Memory => Refusal::Memory,
    }
}

/// Whether the book breaks no rule and is of the present version.
pub fn present(b: &Book) -> Result<(), Refusal>
    ensures ok { IfOk result (λ _. is_present b.now ≡ true) }
    ensures err { IfErr result (IsNotPresent b.now) }
    ensures told { IfErr result (λ r. is_fault r ≡ false) }
{
    match book_fault(b) {
        Some(fault) => Err(Refusal::BookBroken {
            part: fault.part,
            place: fault.place,
        }),
        None => {
            if b.version == BOOK_VERSION {
                Ok(())
            } else {
                Err(Refusal::StateOld { version: b.version })
            }
        }
    }
}

/// The book of a warehouse, which breaks no rule and is of the present version.
pub fn present_book<W: Warehouse>(alloc: Global, house: &mut W) -> Result<Book, Refusal>
    ensures { ReadsPresent (W.told house.old) (W.told house.new) result }
{
    match house.book(alloc) {
        Err(fail) => Err(as_refusal(fail)),
        Ok(b) => match present(&b) {
            Err(refusal) => Err(refusal),
            Ok(()) => Ok(b),
        },
    }
}
