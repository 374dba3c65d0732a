// Definitions.
ghost use Rattle.std.specs.Prelude.{◌≡◌, true};
ghost use Rattle.mesh_canon_reading.specs.Fits.{body_fits, is_own, kind_fits, source_fits, start_fits, time_fits};

use crate::held::held::{Held, all_rule};
use crate::held::queries::query_rule;
use crate::held::values::{day_rule, name_rule, text_rule};
use mesh_base::{Decl, Defn, Own};
use mesh_base_values::{Kind, Str};

// A text lies in memory, where there is one.
fn time_rule(time: &Option<Str>)
    ensures { time_fits time.now ≡ true }
{
    match time {
        None => {}
        Some(time) => text_rule(time.as_slice()),
    }
}

impl Held for Decl {
    ghost fits = { source_fits };

    fn rule(&self) {
        name_rule(&self.name);
        all_rule(self.columns.as_slice());
        time_rule(&self.time)
    }
}

fn body_rule(body: &Defn)
    ensures { body_fits body.now ≡ true }
{
    match body {
        Defn::Seed { columns, rows } => {
            all_rule(columns.as_slice());
            all_rule(rows.as_slice())
        }
        Defn::Sql(query) => query_rule(query),
    }
}

fn kind_rule(kind: &Kind)
    ensures { kind_fits kind.now ≡ true }
{
    match kind {
        Kind::Full | Kind::View | Kind::Seed => {}
        Kind::Incremental { time, lookback } => {
            let _lookback = *lookback;
            text_rule(time.as_slice())
        }
    }
}

// A day has its type's range, where there is one.
fn start_rule(start: Option<i32>)
    ensures { start_fits start ≡ true }
{
    match start {
        None => {}
        Some(day) => day_rule(day),
    }
}

/// A definition fits.
#[tactic(auto, unfolding(mesh_canon_reading::specs::Fits::is_own))]
pub fn own_rule(m: &Own)
    ensures { is_own m.now ≡ true }
{
    name_rule(&m.name);
    kind_rule(&m.kind);
    m.cron.rule();
    start_rule(m.start);
    all_rule(m.sources.as_slice());
    body_rule(&m.defn)
}
