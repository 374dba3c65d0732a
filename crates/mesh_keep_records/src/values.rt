// Names, columns, pairs, spans and references, whose parts are their fields.
ghost use Rattle.std.specs.Prelude.{true};
ghost use Rattle.mesh_canon_reading.specs.Fits.{column_fits};
ghost use Rattle.mesh_keep_records.specs.Records.{bounds_fits, bounds_list, bounds_parts, column_list, column_parts, name_list, name_parts, pair_fits, pair_list, pair_parts, ref_fits, ref_list, ref_parts};

use crate::part::{Listed, Part, add_both, read_as_list, write_as_list};
use mesh_base::Ref;
use mesh_base_values::{Bounds, ColType, Column, Name, Pair, Str, Strs};
use mesh_canon::held::{name_rule, text_rule};
use mesh_canon_words::CanonFault;
use mesh_list::Memory;
use std::alloc::Global;

impl Listed for Name {
    ghost parts = { name_parts };

    ghost fit = { λ _. true };

    fn put(&self, out: &mut Strs) -> Result<(), Memory> {
        add_both(out, &self.schema, &self.model)
    }

    fn take(alloc: Global, texts: &[Str]) -> Result<Name, CanonFault> {
        let (schema, (model, ())) = <(Str, (Str, ()))>::take(alloc, texts)?;
        Ok(Name { schema, model })
    }
}

impl Part for Name {
    ghost text = { name_list };

    ghost fits = { λ _. true };

    fn rule(&self) {}

    fn write(&self, alloc: Global) -> Result<Str, Memory> {
        write_as_list(alloc, self)
    }

    fn read(alloc: Global, bytes: &[u8]) -> Result<Name, CanonFault> {
        read_as_list(alloc, bytes)
    }
}

impl Listed for Column {
    ghost parts = { column_parts };

    ghost fit = { λ _. true };

    fn put(&self, out: &mut Strs) -> Result<(), Memory> {
        add_both(out, &self.name, &self.kind)
    }

    fn take(alloc: Global, texts: &[Str]) -> Result<Column, CanonFault> {
        let (name, (kind, ())) = <(Str, (ColType, ()))>::take(alloc, texts)?;
        Ok(Column { name, kind })
    }
}

impl Part for Column {
    ghost text = { column_list };

    ghost fits = { column_fits };

    fn rule(&self) {
        text_rule(self.name.as_slice())
    }

    fn write(&self, alloc: Global) -> Result<Str, Memory> {
        write_as_list(alloc, self)
    }

    fn read(alloc: Global, bytes: &[u8]) -> Result<Column, CanonFault> {
        read_as_list(alloc, bytes)
    }
}

impl Listed for Pair {
    ghost parts = { pair_parts };

    ghost fit = { λ _. true };

    fn put(&self, out: &mut Strs) -> Result<(), Memory> {
        add_both(out, &self.first, &self.second)
    }

    fn take(alloc: Global, texts: &[Str]) -> Result<Pair, CanonFault> {
        let (first, (second, ())) = <(Name, (Name, ()))>::take(alloc, texts)?;
        Ok(Pair { first, second })
    }
}

impl Part for Pair {
    ghost text = { pair_list };

    ghost fits = { pair_fits };

    fn rule(&self) {
        name_rule(&self.first);
        name_rule(&self.second)
    }

    fn write(&self, alloc: Global) -> Result<Str, Memory> {
        write_as_list(alloc, self)
    }

    fn read(alloc: Global, bytes: &[u8]) -> Result<Pair, CanonFault> {
        read_as_list(alloc, bytes)
    }
}

impl Listed for Bounds {
    ghost parts = { bounds_parts };

    ghost fit = { bounds_fits };

    fn put(&self, out: &mut Strs) -> Result<(), Memory> {
        add_both(out, &self.start, &self.end)
    }

    fn take(alloc: Global, texts: &[Str]) -> Result<Bounds, CanonFault> {
        let (start, (end, ())) = <(i64, (i64, ()))>::take(alloc, texts)?;
        Ok(Bounds { start, end })
    }
}

impl Part for Bounds {
    ghost text = { bounds_list };

    ghost fits = { bounds_fits };

    fn rule(&self) {
        self.start.rule();
        self.end.rule()
    }

    fn write(&self, alloc: Global) -> Result<Str, Memory> {
        write_as_list(alloc, self)
    }

    fn read(alloc: Global, bytes: &[u8]) -> Result<Bounds, CanonFault> {
        read_as_list(alloc, bytes)
    }
}

impl Listed for Ref {
    ghost parts = { ref_parts };

    ghost fit = { ref_fits };

    fn put(&self, out: &mut Strs) -> Result<(), Memory> {
        add_both(out, &self.name, &self.fingerprint)
    }

    fn take(alloc: Global, texts: &[Str]) -> Result<Ref, CanonFault> {
        let (name, (fingerprint, ())) = <(Name, ([u8; 32], ()))>::take(alloc, texts)?;
        Ok(Ref { name, fingerprint })
    }
}

impl Part for Ref {
    ghost text = { ref_list };

    ghost fits = { ref_fits };

    fn rule(&self) {
        self.fingerprint.rule()
    }

    fn write(&self, alloc: Global) -> Result<Str, Memory> {
        write_as_list(alloc, self)
    }

    fn read(alloc: Global, bytes: &[u8]) -> Result<Ref, CanonFault> {
        read_as_list(alloc, bytes)
    }
}
