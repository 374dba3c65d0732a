// The numbers that models have by name, and rows of bits by these numbers in place of the models' places.
ghost use Rattle.std.specs.Prelude.{◌≡◌, ◌≤◌, ◌<◌, ◌+◌, ◌*◌, ◌/◌, ℕ, true, length, slice_index_or, IfOk};
ghost use Rattle.std.specs.Int.{bit_at};
ghost use Rattle.mesh_plan_due.specs.Lineages.{has_bit};
ghost use Rattle.mesh_plan_due.specs.Numbered.{ArePlaced, HasNumber, IsLowest, IsNumbering, IsWithout, KeepsBits};

use crate::lineages::{no_bits, set_bit};
use crate::marks::Spot;
use mesh_list::Memory;
use std::alloc::Global;

fn zeros(alloc: Global, count: usize) -> Result<Vec<usize>, Memory>
    ensures length { IfOk result (λ numbers. length numbers.items ≡ count) }
    ensures none { IfOk result (λ numbers. (p : ℕ) → slice_index_or numbers.items p 0 ≡ 0) }
{
    let mut numbers = Vec::with_capacity(alloc, count)?;
    for at in 0..count {
        numbers.push(0)?;
    }
    Ok(numbers)
}

/// The number of each model, at its place.
pub(crate) fn numbers_of(alloc: Global, spots: &[Spot], count: usize) -> Result<Vec<usize>, Memory>
    requires { ArePlaced count spots.now }
    ensures { IfOk result (λ numbers. IsNumbering spots.now numbers.items) }
{
    let mut numbers = zeros(alloc, count)?;
    for (at, spot) in spots.iter().enumerate() {
        numbers[spot.place] = at;
    }
    Ok(numbers)
}

fn word_at(row: &[u64], at: usize) -> u64
    ensures { result ≡ slice_index_or row.now at 0 }
{
    match row.get(at) {
        None => 0,
        Some(word) => *word,
    }
}

/// Takes the lowest bit of a word away, and says its place.
pub(crate) fn take_bit(word: &mut u64) -> usize
    requires { 0 < word.old }
    ensures few { result < 64 }
    ensures less { word.new < word.old }
    ensures lowest { IsLowest word.old result }
    ensures rest { IsWithout word.old result word.new }
{
    let all = *word;
    *word = all & (all - 1);
    all.trailing_zeros() as usize
}

fn add_number(made: &mut Vec<u64>, numbers: &[usize], place: usize)
    requires { (p : ℕ) → slice_index_or numbers.now p 0 / 64 < length made.old.items }
    ensures length { length made.new.items ≡ length made.old.items }
    ensures kept { KeepsBits made.old.items made.new.items }
    ensures found { HasNumber numbers.now made.new.items place }
{
    if let Some(number) = numbers.get(place) {
        set_bit(made, *number);
    }
}

/// Adds the numbers of the models at the 64 places from the first, as far as a word has their bits.
fn add_word(made: &mut Vec<u64>, numbers: &[usize], word: u64, first: usize)
    requires first { first ≤ length numbers.now }
    requires few { (p : ℕ) → slice_index_or numbers.now p 0 / 64 < length made.old.items }
    ensures length { length made.new.items ≡ length made.old.items }
    ensures kept { KeepsBits made.old.items made.new.items }
    ensures found { (b : ℕ) → b < 64 → bit_at word b ≡ 1 → HasNumber numbers.now made.new.items (first + b) }
{
    let mut rest = word;
    while rest != 0 {
        let bit = take_bit(&mut rest);
        add_number(made, numbers, first + bit);
    }
}

/// A row with the bit of each model's number, for a row with those of their places.
pub(crate) fn renumbered(
    alloc: Global,
    numbers: &[usize],
    row: &[u64],
    words: usize,
) -> Result<Vec<u64>, Memory>
    requires { (p : ℕ) → slice_index_or numbers.now p 0 / 64 < words }
    ensures length { IfOk result (λ made. length made.items ≡ words) }
    ensures found { IfOk result (λ made. (p : ℕ) → has_bit row.now p ≡ true → HasNumber numbers.now made.items p) }
{
    let mut made = no_bits(alloc, words)?;
    for at in 0..numbers.len() / 64 + 1 {
        add_word(&mut made, numbers, word_at(row, at), 64 * at);
    }
    Ok(made)
}
