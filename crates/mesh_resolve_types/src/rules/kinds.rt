// The types of expressions. A NULL has none until its place decides it.
ghost use Rattle.std.specs.Prelude.{◌≡◌};
ghost use Rattle.mesh_resolve_types.specs.rules.Kinds.{may_be, are_alike, first_kind, are_one_kind};

use mesh_base_values::ColType;

/// Whether a place that needs this type can have that one; NULL takes the type that its place needs.
pub fn may_be(wanted: ColType, kind: Option<ColType>) -> bool
    ensures { result ≡ may_be wanted kind }
{
    match kind {
        None => true,
        Some(kind) => wanted == kind,
    }
}

/// Whether two types can stand beside each other, as the sides of a comparison do.
pub fn are_alike(a: Option<ColType>, b: Option<ColType>) -> bool
    ensures { result ≡ are_alike a b }
{
    match a {
        None => true,
        Some(kind) => may_be(kind, b),
    }
}

/// The first type that is decided.
pub fn first_kind(kinds: &[Option<ColType>]) -> Option<ColType>
    ensures { result ≡ first_kind kinds.now }
{
    match kinds {
        [] => None,
        [Some(kind), ..] => Some(*kind),
        [None, rest @ ..] => first_kind(rest),
    }
}

/// Whether all that are decided are of one type.
pub fn are_one_kind(kinds: &[Option<ColType>]) -> bool
    ensures { result ≡ are_one_kind kinds.now }
{
    let first = first_kind(kinds);
    kinds.iter().all(|kind| are_alike(first, *kind))
}
