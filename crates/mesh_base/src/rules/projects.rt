// Projects: the models of a folder, each after its parents.
ghost use Rattle.std.specs.Prelude.{◌≡◌, IsTrue};
ghost use Rattle.mesh_base.specs.rules.Proper.{is_proper};

use crate::{Node, Nodes};
use mesh_list::{Duplicate, Memory};
use std::marker::Model;

/// The models of a project by rank and then by name, each with its parents' places. Each has what a model needs to be
/// planned: its names are there, its rank is 1 above its highest parent's, and no two have one name.
pub struct Project {
    pub nodes: Nodes,
}

impl Drop for Project {
    fn drop(self) {
        let Project { nodes: _ } = self;
    }
}

impl Model for Project {
    ghost use Rattle.std.specs.Prelude.{IsTrue};
    ghost use Rattle.std.specs.Coded.{codes};
    ghost use Rattle.mesh_base.specs.contracts.expressions.Expr as expr;
    ghost use Rattle.mesh_base.specs.rules.Proper.{ProjectNodes, is_proper};

    ghost Value = { ProjectNodes };

    ghost coded = { Prim.hlevel (codes, expr.the_row.coded) };

    ghost view = { λ a. record { nodes = a.nodes } };

    ghost inverse = { λ d. record { nodes = d.nodes } };

    ghost invariant = { λ a. IsTrue (is_proper a.nodes) };
}

impl Project {
    /// Each project is proper.
    pub fn as_slice(&self) -> &[Node]
        ensures nodes { result.now ≡ self.now.nodes }
        ensures proper { IsTrue (is_proper self.now.nodes) }
    {
        self.nodes.as_slice()
    }
}

impl Duplicate for Project {
    fn copy(&self) -> Result<Project, Memory> {
        Ok(Project {
            nodes: self.nodes.copy()?,
        })
    }
}
