// Numbers and texts, written at the end of what is written so far.
ghost use Rattle.std.specs.Prelude.{◌≡◌, ◌++◌, OnOk};
ghost use Rattle.std.specs.Fmt.{decimal, signed_decimal};
ghost use Rattle.mesh_canon_text.specs.Text.{text_of};

use mesh_list::Memory;

/// These bytes.
pub(crate) fn put(out: &mut Vec<u8>, bytes: &[u8]) -> Result<(), Memory>
    ensures { OnOk result (out.new.items ≡ out.old.items ++ bytes.now) }
{
    match out.extend_from_slice(bytes) {
        Ok(()) => Ok(()),
        Err(_) => Err(Memory),
    }
}

/// These bytes, and those behind them.
pub(crate) fn put_pair(out: &mut Vec<u8>, first: &[u8], second: &[u8]) -> Result<(), Memory>
    ensures { OnOk result (out.new.items ≡ out.old.items ++ (first.now ++ second.now)) }
{
    put(out, first)?;
    put(out, second)
}

/// These bytes between two others.
pub(crate) fn put_between(
    out: &mut Vec<u8>,
    before: &[u8],
    bytes: &[u8],
    behind: &[u8],
) -> Result<(), Memory>
    ensures { OnOk result (out.new.items ≡ out.old.items ++ (before.now ++ (bytes.now ++ behind.now))) }
{
    put(out, before)?;
    put_pair(out, bytes, behind)
}

/// Decimal, without leading zeros.
#[tactic(auto, using(crate::proofs::Digits::one_digit, crate::proofs::Digits::last_digit))]
pub(crate) fn put_number(out: &mut Vec<u8>, number: u64) -> Result<(), Memory>
    ensures { OnOk result (out.new.items ≡ out.old.items ++ decimal number) }
{
    if number < 10 {
        out.push(b'0' + number as u8)?;
        return Ok(());
    }
    put_number(out, number / 10)?;
    out.push(b'0' + (number % 10) as u8)?;
    Ok(())
}

/// Decimal, with `-` before a negative number.
pub(crate) fn put_signed(out: &mut Vec<u8>, number: i64) -> Result<(), Memory>
    ensures { OnOk result (out.new.items ≡ out.old.items ++ signed_decimal number) }
{
    if number < 0 {
        out.push(b'-')?;
    }
    put_number(out, number.unsigned_abs())
}

/// The length in bytes, a colon and the bytes.
#[tactic(auto, unfolding(crate::specs::Text::text_of))]
pub(crate) fn put_text(out: &mut Vec<u8>, bytes: &[u8]) -> Result<(), Memory>
    ensures { OnOk result (out.new.items ≡ out.old.items ++ text_of bytes.now) }
{
    put_number(out, bytes.len() as u64)?;
    put_pair(out, b":", bytes)
}

/// A text behind these bytes.
pub(crate) fn put_text_behind(out: &mut Vec<u8>, before: &[u8], bytes: &[u8]) -> Result<(), Memory>
    ensures { OnOk result (out.new.items ≡ out.old.items ++ (before.now ++ text_of bytes.now)) }
{
    put(out, before)?;
    put_text(out, bytes)
}

/// A text between these bytes.
pub(crate) fn put_text_between(
    out: &mut Vec<u8>,
    before: &[u8],
    bytes: &[u8],
    behind: &[u8],
) -> Result<(), Memory>
    ensures { OnOk result (out.new.items ≡ out.old.items ++ (before.now ++ (text_of bytes.now ++ behind.now))) }
{
    put_text_behind(out, before, bytes)?;
    put(out, behind)
}

/// A number of either sign between these bytes.
pub(crate) fn put_signed_between(
    out: &mut Vec<u8>,
    before: &[u8],
    number: i64,
    behind: &[u8],
) -> Result<(), Memory>
    ensures { OnOk result (out.new.items ≡ out.old.items ++ (before.now ++ (signed_decimal number ++ behind.now))) }
{
    put(out, before)?;
    put_signed(out, number)?;
    put(out, behind)
}
