// What the items of a book and the tables of a source are found by.
ghost use Rattle.std.specs.Prelude.{◌≡◌};
ghost use Rattle.std.proofs.lemmas.Map.Lookups.{exact_bytes};
ghost use Rattle.mesh_base_values.specs.Names.{name_cmp, text_cmp};
ghost use Rattle.mesh_base_values.specs.NameOrder.{names_exact, names_total, texts_total};
ghost use Rattle.mesh_base.specs.Keys.{env_name, input_name, ref_cmp, ref_itself, refs_exact, refs_total, snapshot_ref};

use crate::jobs::Input;
use crate::snapshots::{Env, Ref, Snapshot};
use mesh_base_values::{Name, Str};
use mesh_list::Keyed;
use std::cmp::Ordering;

impl Keyed for Ref {
    type Key = Ref;

    ghost key = { ref_itself };

    ghost order = { ref_cmp };

    fn compare(&self, other: &Ref) -> Ordering {
        self.name
            .compare(&other.name)
            .then(self.fingerprint.cmp(&other.fingerprint))
    }

    fn against(&self, other: &Ref) -> Ordering {
        self.name
            .compare(&other.name)
            .then(self.fingerprint.cmp(&other.fingerprint))
    }

    ghost total = { refs_total };

    ghost exact = { refs_exact };
}

impl Keyed for Snapshot {
    type Key = Ref;

    ghost key = { snapshot_ref };

    ghost order = { ref_cmp };

    fn compare(&self, other: &Ref) -> Ordering {
        self.name
            .compare(&other.name)
            .then(self.fingerprint.cmp(&other.fingerprint))
    }

    fn against(&self, other: &Snapshot) -> Ordering {
        self.name
            .compare(&other.name)
            .then(self.fingerprint.cmp(&other.fingerprint))
    }

    ghost total = { refs_total };

    ghost exact = { refs_exact };
}

impl Keyed for Env {
    type Key = Str;

    ghost key = { env_name };

    ghost order = { text_cmp };

    fn compare(&self, other: &Str) -> Ordering {
        self.name.as_slice().cmp(&other.as_slice())
    }

    fn against(&self, other: &Env) -> Ordering {
        self.name.as_slice().cmp(&other.name.as_slice())
    }

    ghost total = { texts_total };

    ghost exact = { exact_bytes };
}

impl Keyed for Input {
    type Key = Name;

    ghost key = { input_name };

    ghost order = { name_cmp };

    fn compare(&self, other: &Name) -> Ordering {
        self.name.compare(other)
    }

    fn against(&self, other: &Input) -> Ordering {
        self.name.compare(&other.name)
    }

    ghost total = { names_total };

    ghost exact = { names_exact };
}
