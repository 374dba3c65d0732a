// Words, numbers, names and fingerprints, written at the end of what is written so far.
ghost use Rattle.std.specs.Prelude.{◌≡◌, ◌++◌, codes, IfOk, OnOk};
ghost use Rattle.std.specs.Fmt.{decimal};
ghost use Rattle.hex.specs.Hex.{encode_lower};
ghost use Rattle.mesh_cli_print.specs.faults.Lines.{◌·◌, name_text, names_text};

use mesh_base_values::{Name, Str};
use mesh_list::{Memory, Seq};
use std::alloc::Global;

/// These bytes, at the end of what is written so far.
pub fn put(out: &mut Vec<u8>, bytes: &[u8]) -> Result<(), Memory>
    ensures { OnOk result (out.new.items ≡ out.old.items ++ bytes.now) }
{
    out.extend_from_slice(bytes)?;
    Ok(())
}

/// A number in decimal, without leading zeros.
pub fn put_number(out: &mut Vec<u8>, number: u64) -> Result<(), Memory>
    ensures { OnOk result (out.new.items ≡ out.old.items ++ decimal number) }
{
    let mut buffer = itoa::Buffer::new();
    put(out, buffer.format(number).as_bytes())
}

/// A word and the bytes behind it.
pub(crate) fn put_both(out: &mut Vec<u8>, word: &[u8], bytes: &[u8]) -> Result<(), Memory>
    ensures { OnOk result (out.new.items ≡ out.old.items ++ (word.now · bytes.now)) }
{
    put(out, word)?;
    put(out, bytes)
}

/// A schema, a point and a model.
pub fn put_name(out: &mut Vec<u8>, name: &Name) -> Result<(), Memory>
    ensures { OnOk result (out.new.items ≡ out.old.items ++ name_text name.now) }
{
    put(out, name.schema.as_slice())?;
    put(out, b".")?;
    put(out, name.model.as_slice())
}

/// The same as a text of its own.
pub fn name_text(alloc: Global, name: &Name) -> Result<Str, Memory>
    ensures { IfOk result (λ text. text ≡ name_text name.now) }
{
    let mut out = Vec::new(alloc);
    put_name(&mut out, name)?;
    Ok(Seq::from_vec(out))
}

/// Each name behind a space.
pub(crate) fn put_names(out: &mut Vec<u8>, names: &[Name]) -> Result<(), Memory>
    ensures { OnOk result (out.new.items ≡ out.old.items ++ names_text names.now) }
{
    for name in names {
        put_behind_space(out, name)?;
    }
    Ok(())
}

fn put_behind_space(out: &mut Vec<u8>, name: &Name) -> Result<(), Memory>
    ensures { OnOk result (out.new.items ≡ out.old.items ++ (codes " " · name_text name.now)) }
{
    put(out, b" ")?;
    put_name(out, name)
}

/// A fingerprint as 64 hexadecimal digits of lower case.
pub(crate) fn put_fingerprint(out: &mut Vec<u8>, fingerprint: &[u8; 32]) -> Result<(), Memory>
    ensures { OnOk result (out.new.items ≡ out.old.items ++ encode_lower fingerprint.now) }
{
    let mut digits = [0u8; 64];
    if let Ok(()) = hex::encode_to_slice(*fingerprint, &mut digits) {
        out.extend_from_slice(&digits)?;
    }
    Ok(())
}
