// Tests that two expressions are the same.
use crate::expressions::{Expr, When};
use mesh_list::Same;

impl Same for Expr {
    #[tactic(auto, using(crate::proofs::Equal::is_equality))]
    fn same(&self, other: &Expr) -> bool {
        self == other
    }
}

impl Same for When {
    #[tactic(auto, using(crate::proofs::Equal::is_equality_of_whens))]
    fn same(&self, other: &When) -> bool {
        self == other
    }
}
