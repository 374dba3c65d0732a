// Values that have no parts of their own.
ghost use Rattle.std.specs.Prelude.{true};
ghost use Rattle.std.specs.Fmt.{decimal, signed_decimal};
ghost use Rattle.hex.specs.Hex.{encode_lower};
ghost use Rattle.mesh_canon_text.specs.Text.{cell_text, type_word};
ghost use Rattle.mesh_canon_reading.specs.Fits.{cell_fits};
ghost use Rattle.mesh_keep_records.specs.Parts.{bool_word, is_count, is_digest};
ghost use Rattle.mesh_keep_records.specs.Records.{moment_fits};

use crate::numbers::{
    bytes_text, count_text, digest_rule, digits_text, is_same, read_count, read_digits,
    read_signed, signed_text,
};
use crate::part::Part;
use mesh_base_values::{Cell, ColType, Str};
use mesh_canon::canon::{cell_text, read_cell, read_type, type_text};
use mesh_canon::held::{cell_rule, signed_rule};
use mesh_canon_words::CanonFault;
use mesh_list::Memory;
use std::alloc::Global;

impl Part for Str {
    ghost text = { λ t. t };

    ghost fits = { λ _. true };

    fn rule(&self) {}

    fn write(&self, alloc: Global) -> Result<Str, Memory> {
        bytes_text(alloc, self.as_slice())
    }

    fn read(alloc: Global, bytes: &[u8]) -> Result<Str, CanonFault> {
        let made = bytes_text(alloc, bytes)?;
        Ok(made)
    }
}

impl Part for bool {
    ghost text = { bool_word };

    ghost fits = { λ _. true };

    fn rule(&self) {}

    fn write(&self, alloc: Global) -> Result<Str, Memory> {
        if *self {
            bytes_text(alloc, b"true")
        } else {
            bytes_text(alloc, b"false")
        }
    }

    fn read(_alloc: Global, bytes: &[u8]) -> Result<bool, CanonFault> {
        if is_same(bytes, b"true") {
            return Ok(true);
        }
        if is_same(bytes, b"false") {
            return Ok(false);
        }
        Err(CanonFault::NotCanonical)
    }
}

impl Part for i64 {
    ghost text = { signed_decimal };

    ghost fits = { moment_fits };

    fn rule(&self) {
        signed_rule(*self)
    }

    fn write(&self, alloc: Global) -> Result<Str, Memory> {
        signed_text(alloc, self)
    }

    fn read(alloc: Global, bytes: &[u8]) -> Result<i64, CanonFault> {
        read_signed(alloc, bytes)
    }
}

impl Part for u32 {
    ghost text = { decimal };

    ghost fits = { is_count };

    fn rule(&self) {
        let _count = *self;
    }

    fn write(&self, alloc: Global) -> Result<Str, Memory> {
        count_text(alloc, self)
    }

    fn read(alloc: Global, bytes: &[u8]) -> Result<u32, CanonFault> {
        read_count(alloc, bytes)
    }
}

impl Part for [u8; 32] {
    ghost text = { encode_lower };

    ghost fits = { is_digest };

    fn rule(&self) {
        digest_rule(self)
    }

    fn write(&self, alloc: Global) -> Result<Str, Memory> {
        digits_text(alloc, self)
    }

    fn read(alloc: Global, bytes: &[u8]) -> Result<[u8; 32], CanonFault> {
        read_digits(alloc, bytes)
    }
}

impl Part for ColType {
    ghost text = { type_word };

    ghost fits = { λ _. true };

    fn rule(&self) {}

    fn write(&self, alloc: Global) -> Result<Str, Memory> {
        type_text(alloc, *self)
    }

    fn read(_alloc: Global, bytes: &[u8]) -> Result<ColType, CanonFault> {
        read_type(bytes)
    }
}

impl Part for Cell {
    ghost text = { cell_text };

    ghost fits = { cell_fits };

    fn rule(&self) {
        cell_rule(self)
    }

    fn write(&self, alloc: Global) -> Result<Str, Memory> {
        cell_text(alloc, self)
    }

    fn read(alloc: Global, bytes: &[u8]) -> Result<Cell, CanonFault> {
        read_cell(alloc, bytes)
    }
}
