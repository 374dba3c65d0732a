// The order in which cells and rows stand.
ghost use Rattle.std.specs.Prelude.{◌≡◌};
ghost use Rattle.std.specs.Cmp.{IsTotalOrder};
ghost use Rattle.mesh_base_values.specs.Order.{cell_order, row_order};

use crate::values::{Cell, Row};
use std::cmp::Ordering;

/// NULL first, then numbers, texts by their bytes, days, and false before true.
#[tactic(auto, using(crate::proofs::Total::cell_total, crate::proofs::Total::cell_exact))]
pub fn cell_cmp(a: &Cell, b: &Cell) -> Ordering
    ensures order { result ≡ cell_order a.now b.now }
    ensures tie { result ≡ Ordering.Equal → a.now ≡ b.now }
    ensures total { IsTotalOrder cell_order }
{
    a.cmp(b)
}

/// The first place where the cells differ decides. A row that the other one continues is less.
#[tactic(auto, using(crate::proofs::Total::row_exact, crate::proofs::Total::row_total))]
pub fn row_cmp(a: &Row, b: &Row) -> Ordering
    ensures order { result ≡ row_order a.now b.now }
    ensures tie { result ≡ Ordering.Equal → a.now ≡ b.now }
    ensures total { IsTotalOrder row_order }
{
    a.as_slice().cmp(&b.as_slice())
}
