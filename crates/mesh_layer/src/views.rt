// The names of an environment's views.
ghost use Rattle.std.specs.Prelude.{◌≡◌, ◌++◌, codes, IfOk};
ghost use Rattle.mesh_spec_changes.specs.Environments.{view_in};

use mesh_base_values::{Name, Str, same_text};
use mesh_list::{Duplicate, Memory, Seq};
use std::alloc::Global;

fn schema_in(alloc: Global, env: &Str, schema: &Str) -> Result<Str, Memory>
    ensures { IfOk result (λ made. made ≡ (schema.now ++ codes "__") ++ env.now) }
{
    let mut made = Vec::from_slice(alloc, schema.as_slice())?;
    made.extend_from_slice(b"__")?;
    made.extend_from_slice(env.as_slice())?;
    Ok(Seq::from_vec(made))
}

/// The name of a model's view in an environment: production's is the model's own.
pub fn view_in(alloc: Global, env: &Str, name: &Name) -> Result<Name, Memory>
    ensures { IfOk result (λ view. view ≡ view_in env.now name.now) }
{
    if same_text(env.as_slice(), b"prod") {
        return name.copy();
    }
    let schema = schema_in(alloc, env, &name.schema)?;
    let model = name.model.copy()?;
    Ok(Name { schema, model })
}
