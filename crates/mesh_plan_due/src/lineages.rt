// Which models each model stands on, itself among them: a row of bits, one for the place of each.
ghost use Rattle.std.specs.Prelude.{◌≡◌, ◌||◌, ◌<◌, ◌/◌, ◌+◌, ℕ, nat_eq, false, length, IsTrue, IfOk};
ghost use Rattle.std.specs.List.{All, AllZip};
ghost use Rattle.mesh_base.specs.rules.Proper.{is_proper};
ghost use Rattle.mesh_spec_model.specs.Closures.{closures};
ghost use Rattle.mesh_plan_due.specs.Lineages.{HaveLineages, any_row, has_bit, row_has};

use mesh_base::Node;
use mesh_list::{Memory, Seq};
use std::alloc::Global;

/// Whether a row has the bit of a place.
#[tactic(auto, using(crate::proofs::Bits::no_word))]
pub(crate) fn has_bit(row: &[u64], place: usize) -> bool
    ensures { result ≡ has_bit row.now place }
{
    match row.get(place / 64) {
        None => false,
        Some(word) => (*word >> (place % 64)) % 2 == 1,
    }
}

/// A row with no bits.
pub(crate) fn no_bits(alloc: Global, words: usize) -> Result<Vec<u64>, Memory>
    ensures length { IfOk result (λ row. length row.items ≡ words) }
    ensures none { IfOk result (λ row. (p : ℕ) → has_bit row.items p ≡ false) }
{
    let mut row = Vec::with_capacity(alloc, words)?;
    for at in 0..words {
        row.push(0)?;
    }
    Ok(row)
}

/// Sets the bit of a place.
pub(crate) fn set_bit(row: &mut Vec<u64>, place: usize)
    requires { place / 64 < length row.old.items }
    ensures length { length row.new.items ≡ length row.old.items }
    ensures bits { (p : ℕ) → has_bit row.new.items p ≡ (nat_eq p place || has_bit row.old.items p) }
{
    row[place / 64] |= 1 << (place % 64);
}

fn add_bits(row: &mut Vec<u64>, other: &[u64])
    requires { length other.now ≡ length row.old.items }
    ensures length { length row.new.items ≡ length row.old.items }
    ensures bits { (p : ℕ) → has_bit row.new.items p ≡ (has_bit row.old.items p || has_bit other.now p) }
{
    for at in 0..other.len() {
        row[at] |= other[at];
    }
}

fn add_row(row: &mut Vec<u64>, rows: &[Seq<u64>], place: u32)
    requires { All (λ r. length r ≡ length row.old.items) rows.now }
    ensures length { length row.new.items ≡ length row.old.items }
    ensures bits { (p : ℕ) → has_bit row.new.items p ≡ (has_bit row.old.items p || row_has rows.now p place) }
{
    if let Some(other) = rows.get(place as usize) {
        add_bits(row, other.as_slice());
    }
}

/// The row of a model whose parents stand at these places.
fn row_over(
    alloc: Global,
    rows: &[Seq<u64>],
    parents: &[u32],
    words: usize,
    place: usize,
) -> Result<Vec<u64>, Memory>
    requires rows { All (λ r. length r ≡ words) rows.now }
    requires place { place / 64 < words }
    ensures length { IfOk result (λ row. length row.items ≡ words) }
    ensures bits { IfOk result (λ row. (p : ℕ) → has_bit row.items p ≡ (nat_eq p place || any_row rows.now p parents.now)) }
{
    let mut row = no_bits(alloc, words)?;
    for parent in parents {
        add_row(&mut row, rows, *parent);
    }
    set_bit(&mut row, place);
    Ok(row)
}

/// The row of each model.
pub(crate) fn lineages(alloc: Global, nodes: &[Node]) -> Result<Vec<Seq<u64>>, Memory>
    requires { IsTrue (is_proper nodes.now) }
    ensures rows { IfOk result (λ rows. HaveLineages nodes.now (closures nodes.now) rows.items) }
    ensures length { IfOk result (λ rows. length rows.items ≡ length nodes.now) }
{
    let words = nodes.len() / 64 + 1;
    let mut rows = Vec::new(alloc);
    for (at, node) in nodes.iter().enumerate() {
        let row = row_over(alloc, &rows, node.parents.as_slice(), words, at)?;
        rows.push(Seq::from_vec(row))?;
    }
    Ok(rows)
}
