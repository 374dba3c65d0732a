// From which type to which there is a cast.
ghost use Rattle.std.specs.Prelude.{◌≡◌};
ghost use Rattle.mesh_resolve_types.specs.rules.Kinds.{casts, may_cast};

use mesh_base_values::ColType;

fn casts(from: ColType, to: ColType) -> bool
    ensures { result ≡ casts from to }
{
    match (from, to) {
        (ColType::Text, _) => true,
        (_, ColType::Text) => true,
        (ColType::Int, ColType::Bool) => true,
        (ColType::Bool, ColType::Int) => true,
        _ => from == to,
    }
}

/// Whether there is a cast to this type from that one; there is one from NULL to each.
pub fn may_cast(to: ColType, kind: Option<ColType>) -> bool
    ensures { result ≡ may_cast to kind }
{
    match kind {
        None => true,
        Some(from) => casts(from, to),
    }
}
