// Which parts of an item equal a key.
ghost use Rattle.std.specs.Prelude.{◌≡◌};
ghost use Rattle.mesh_base.specs.contracts.expressions.ExprPartialEq.TheImpl.{eq-value};
ghost use Rattle.mesh_resolve_selects.specs.groups.Grouping.{is_key};
ghost use Rattle.mesh_resolve_selects.specs.groups.Sizes.{counted, size, sizes_of};

use mesh_base::Expr;

/// Whether an expression equals a key. `before` nodes were walked before it, and `after` when it had been walked.
/// Only keys of its size are compared with it: parts of one size are apart, so a key is compared with each node of an
/// item at most once.
pub(crate) fn is_key(e: &Expr, keys: &[Expr], sizes: &[u64], before: u64, after: u64) -> bool
    requires sizes { sizes.now ≡ sizes_of keys.now }
    requires after { after ≡ counted before (size e.now) }
    ensures { result ≡ is_key keys.now e.now }
{
    let mut found = false;
    for i in 0..keys.len() {
        found = found || equals(e, &keys[i], sizes[i], before, after);
    }
    found
}

#[tactic(auto, using(mesh_base::proofs::Equal::exact))]
fn equals(e: &Expr, key: &Expr, nodes: u64, before: u64, after: u64) -> bool
    requires nodes { nodes ≡ counted 0 (size key.now) }
    requires after { after ≡ counted before (size e.now) }
    ensures { result ≡ eq-value.it key.now e.now }
{
    before.saturating_add(nodes) == after && key == e
}
