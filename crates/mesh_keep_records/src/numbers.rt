// Numbers and fingerprints as whole texts.
ghost use Rattle.std.specs.Prelude.{◌≡◌, ◌↔◌, ◌-◌, ◌^◌, IsTrue, true, ℕ, ℤ, List, IfOk, Some};
ghost use Rattle.std.specs.Fmt.{decimal, signed_decimal};
ghost use Rattle.hex.specs.Hex.{encode_lower};
ghost use Rattle.mesh_canon_reading.specs.Fits.{signed_fits};
ghost use Rattle.mesh_canon_words.specs.Words.{Gives};
ghost use Rattle.mesh_keep_records.specs.Parts.{digits_in, is_count, is_digest, number_in, signed_in};

use mesh_base_values::Str;
use mesh_canon_words::{CanonFault, number, signed};
use mesh_list::{Memory, Seq};
use std::alloc::Global;

/// The greatest number of 64 bits with a sign.
const MOST_SIGNED: u64 = 0x7fff_ffff_ffff_ffff;

/// The greatest number of 32 bits.
const MOST_COUNT: u64 = 0xffff_ffff;

/// Whether these are the same bytes.
pub(crate) fn is_same(left: &[u8], right: &[u8]) -> bool
    ensures { IsTrue result ↔ (left.now ≡ right.now) }
{
    left == right
}

/// These bytes as a text.
pub fn bytes_text(alloc: Global, bytes: &[u8]) -> Result<Str, Memory>
    ensures { IfOk result (λ made. made ≡ bytes.now) }
{
    match Vec::from_slice(alloc, bytes) {
        Ok(made) => Ok(Seq::from_vec(made)),
        Err(_) => Err(Memory),
    }
}

/// A number with its sign, in decimal.
pub(crate) fn signed_text(alloc: Global, value: &i64) -> Result<Str, Memory>
    ensures { IfOk result (λ made. made ≡ signed_decimal value.now) }
{
    let mut buffer = itoa::Buffer::new();
    bytes_text(alloc, buffer.format(*value).as_bytes())
}

/// A number in decimal.
pub(crate) fn count_text(alloc: Global, value: &u32) -> Result<Str, Memory>
    ensures { IfOk result (λ made. made ≡ decimal value.now) }
{
    let mut buffer = itoa::Buffer::new();
    bytes_text(alloc, buffer.format(*value).as_bytes())
}

/// The digits of a fingerprint.
pub(crate) fn digits_text(alloc: Global, value: &[u8; 32]) -> Result<Str, Memory>
    ensures { IfOk result (λ made. made ≡ encode_lower value.now) }
{
    let mut digits = [0u8; 64];
    match hex::encode_to_slice(*value, &mut digits) {
        Ok(()) => bytes_text(alloc, &digits),
        Err(_) => Err(Memory),
    }
}

/// A fingerprint has 32 bytes.
pub(crate) fn digest_rule(digest: &[u8; 32])
    ensures { is_digest digest.now ≡ true }
{
    for byte in digest {
        let _byte = *byte;
    }
}

// The number that is all of these bytes.
#[tactic(auto, unfolding(crate::specs::Parts::signed_in))]
fn whole_signed(bytes: &[u8]) -> Result<i64, CanonFault>
    ensures { Gives (λ x. x) result (signed_in bytes.now) }
{
    let (value, rest) = signed(bytes, MOST_SIGNED)?;
    match rest {
        [] => Ok(value),
        [_, ..] => Err(CanonFault::NotCanonical),
    }
}

// The same without a sign.
#[tactic(auto, unfolding(crate::specs::Parts::number_in))]
fn whole_count(bytes: &[u8]) -> Result<u32, CanonFault>
    ensures { Gives (λ x. x) result (number_in bytes.now) }
{
    let (value, rest) = number(bytes, MOST_COUNT)?;
    match rest {
        [] => Ok(value as u32),
        [_, ..] => Err(CanonFault::NotCanonical),
    }
}

// The fingerprint whose digits, in either case, are all of these bytes.
fn whole_digits(bytes: &[u8]) -> Result<[u8; 32], CanonFault>
    ensures { Gives (λ x. x) result (digits_in bytes.now) }
{
    let mut made = [0u8; 32];
    match hex::decode_to_slice(bytes, &mut made) {
        Ok(()) => Ok(made),
        Err(_) => Err(CanonFault::NotCanonical),
    }
}

/// The number that has this text.
pub(crate) fn read_signed(alloc: Global, bytes: &[u8]) -> Result<i64, CanonFault>
    ensures found { IfOk result (λ x. bytes.now ≡ signed_decimal x) }
    ensures only { (x : ℤ) → signed_fits (2 ^ 63 - 1) x ≡ true → bytes.now ≡ signed_decimal x → Gives (λ y. y) result (Some x) }
{
    let made = whole_signed(bytes)?;
    let again = signed_text(alloc, &made)?;
    if is_same(again.as_slice(), bytes) {
        Ok(made)
    } else {
        Err(CanonFault::NotCanonical)
    }
}

/// The number without a sign that has this text.
pub(crate) fn read_count(alloc: Global, bytes: &[u8]) -> Result<u32, CanonFault>
    ensures found { IfOk result (λ x. bytes.now ≡ decimal x) }
    ensures only { (x : ℕ) → is_count x ≡ true → bytes.now ≡ decimal x → Gives (λ y. y) result (Some x) }
{
    let made = whole_count(bytes)?;
    let again = count_text(alloc, &made)?;
    if is_same(again.as_slice(), bytes) {
        Ok(made)
    } else {
        Err(CanonFault::NotCanonical)
    }
}

/// The fingerprint that has these digits.
pub(crate) fn read_digits(alloc: Global, bytes: &[u8]) -> Result<[u8; 32], CanonFault>
    ensures found { IfOk result (λ x. bytes.now ≡ encode_lower x) }
    ensures only { (x : List ℕ) → is_digest x ≡ true → bytes.now ≡ encode_lower x → Gives (λ y. y) result (Some x) }
{
    let made = whole_digits(bytes)?;
    let again = digits_text(alloc, &made)?;
    if is_same(again.as_slice(), bytes) {
        Ok(made)
    } else {
        Err(CanonFault::NotCanonical)
    }
}
