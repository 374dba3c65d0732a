// The names that a model's table may have.
ghost use Rattle.std.specs.Prelude.{◌≡◌, ◌<◌, ◌++◌, codes, IfOk, OnOk};
ghost use Rattle.hex.specs.Hex.{encode_lower};
ghost use Rattle.mesh_spec_changes.specs.due.Versions.{group, table_name};

use mesh_base_values::{Name, Str};
use mesh_list::{Memory, Seq, together};
use std::alloc::Global;

// Sixteen of the digits of a fingerprint.
fn put_group(out: &mut Vec<u8>, print: &[u8; 32], k: usize) -> Result<(), Memory>
    requires { k < 4 }
    ensures { OnOk result (out.new.items ≡ out.old.items ++ group print.now k) }
{
    let mut digits = [0u8; 64];
    if let Ok(()) = hex::encode_to_slice(*print, &mut digits) {
        out.extend_from_slice(&digits[16 * k..16 * k + 16])?;
    }
    Ok(())
}

fn schema_of(alloc: Global, schema: &Str) -> Result<Str, Memory>
    ensures { IfOk result (λ made. made ≡ codes "sqlmesh__" ++ schema.now) }
{
    let mut made = Vec::from_slice(alloc, b"sqlmesh__")?;
    made.extend_from_slice(schema.as_slice())?;
    Ok(Seq::from_vec(made))
}

fn put_model(out: &mut Vec<u8>, m: &Name) -> Result<(), Memory>
    ensures { OnOk result (out.new.items ≡ out.old.items ++ (m.now.schema ++ (codes "__" ++ (m.now.model ++ codes "__")))) }
{
    out.extend_from_slice(m.schema.as_slice())?;
    out.extend_from_slice(b"__")?;
    out.extend_from_slice(m.model.as_slice())?;
    out.extend_from_slice(b"__")?;
    Ok(())
}

fn model_of(alloc: Global, m: &Name, print: &[u8; 32], k: usize) -> Result<Str, Memory>
    requires { k < 4 }
    ensures { IfOk result (λ made. made ≡ m.now.schema ++ (codes "__" ++ (m.now.model ++ (codes "__" ++ group print.now k)))) }
{
    let mut made = Vec::new(alloc);
    put_model(&mut made, m)?;
    put_group(&mut made, print, k)?;
    Ok(Seq::from_vec(made))
}

/// The name of a model's table by one of the four groups of its fingerprint's digits.
pub(crate) fn table_name(
    alloc: Global,
    m: &Name,
    print: &[u8; 32],
    k: usize,
) -> Result<Name, Memory>
    requires { k < 4 }
    ensures { IfOk result (λ name. name ≡ table_name m.now print.now k) }
{
    let (schema, model) = together(schema_of(alloc, &m.schema), model_of(alloc, m, print, k))?;
    Ok(Name { schema, model })
}
