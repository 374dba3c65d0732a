// Rows in the order in which they are written and printed.
ghost use Rattle.std.specs.Prelude.{IfOk};
ghost use Rattle.mesh_base_values.specs.Bag.{HasOneOrder, IsAscending, IsSameBag};

use crate::values::Rows;
use mesh_list::{Memory, Seq};

/// The rows in ascending order, each as often as before.
pub fn sort_rows(rows: Rows) -> Result<Rows, Memory>
    ensures bag { IfOk result (λ sorted. IsSameBag rows sorted) }
    ensures ascending { IfOk result (λ sorted. IsAscending sorted) }
{
    let mut items = rows.into_vec();
    match items.sort() {
        Ok(()) => Ok(Seq::from_vec(items)),
        Err(_) => Err(Memory),
    }
}

/// The law that a bag of rows has one ascending list. It computes nothing.
#[tactic(auto, using(crate::proofs::Unique::unique))]
pub fn one_ascending_list()
    ensures { HasOneOrder }
{}
