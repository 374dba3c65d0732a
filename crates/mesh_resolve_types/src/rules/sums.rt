// The types of sums and differences.
ghost use Rattle.std.specs.Prelude.{◌≡◌};
ghost use Rattle.mesh_resolve_types.specs.rules.Kinds.{sum_kind};

use crate::rules::kinds::may_be;
use mesh_base_values::ColType;
use mesh_query_grammar::surface::AddSign;

/// The type of `+` or `-` between two operands of these types, or none where their types don't fit.
pub fn sum_kind(sign: AddSign, left: Option<ColType>, right: Option<ColType>) -> Option<ColType>
    ensures { result ≡ sum_kind sign left right }
{
    match (sign, left, right) {
        (AddSign::Plus, Some(ColType::Date), b) => {
            if may_be(ColType::Int, b) {
                Some(ColType::Date)
            } else {
                None
            }
        }
        (AddSign::Minus, a, Some(ColType::Date)) => {
            if may_be(ColType::Date, a) {
                Some(ColType::Int)
            } else {
                None
            }
        }
        (AddSign::Minus, Some(ColType::Date), b) => {
            if may_be(ColType::Int, b) {
                Some(ColType::Date)
            } else {
                None
            }
        }
        (_, a, b) => {
            if may_be(ColType::Int, a) && may_be(ColType::Int, b) {
                Some(ColType::Int)
            } else {
                None
            }
        }
    }
}
