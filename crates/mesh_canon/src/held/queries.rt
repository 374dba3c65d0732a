// Queries.
ghost use Rattle.std.specs.Prelude.{◌≡◌, true};
ghost use Rattle.mesh_canon_reading.specs.Fits.{cte_fits, from_fits, item_fits, query_fits, rel_fits, select_fits};

use crate::held::expressions::option_rule;
use crate::held::held::{Held, all_rule};
use crate::held::values::{name_rule, text_rule};
use mesh_base::{FromItem, Item, Query, Rel, Select, Selects};

impl Held for Item {
    ghost fits = { item_fits };

    fn rule(&self) {
        text_rule(self.name.as_slice());
        self.expr.rule()
    }
}

fn rel_rule(rel: &Rel)
    ensures { rel_fits rel.now ≡ true }
{
    match rel {
        Rel::Named(name) => name_rule(name),
        Rel::Cte(at) => {
            let _at = *at;
        }
    }
}

impl Held for FromItem {
    ghost fits = { from_fits };

    fn rule(&self) {
        rel_rule(&self.rel);
        option_rule(&self.on)
    }
}

impl Held for Select {
    ghost fits = { select_fits };

    #[tactic(auto, unfolding(mesh_canon_reading::specs::Fits::select_fits))]
    fn rule(&self) {
        all_rule(self.items.as_slice());
        all_rule(self.from.as_slice());
        option_rule(&self.filter);
        all_rule(self.keys.as_slice());
        option_rule(&self.having)
    }
}

pub(crate) fn query_rule(query: &Query)
    ensures { query_fits query.now ≡ true }
{
    all_rule(query.ctes.as_slice());
    all_rule(query.selects.as_slice())
}
