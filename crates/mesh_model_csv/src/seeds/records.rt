// The records of a text.
ghost use Rattle.std.specs.Prelude.{◌≡◌, ◌++◌, ◌∷◌, [], Ok, IfOk, OnOk, length, slice_get, slice_index_or, option_map};
ghost use Rattle.csv.specs.Reading.{default_config, records, strip_bom};
ghost use Rattle.csv.specs.Records.{fields_of};
ghost use Rattle.csv.specs.declared.record.ByteRecord.{ByteRecord as Fields};
ghost use Rattle.mesh_model_csv.specs.seeds.Cells.{field};

use csv::{ByteRecord, ReaderBuilder};
use mesh_list::{Memory, Seq};
use std::alloc::Global;
use std::marker::Model;

/// A record, which contracts see as the list of its fields.
pub struct Record {
    fields: ByteRecord,
}

impl Drop for Record {
    fn drop(self) {
        let Record { fields: _ } = self;
    }
}

impl Model for Record {
    ghost use Rattle.std.specs.Prelude.{List, ℕ};
    ghost use Rattle.std.specs.Coded.{coded_list, coded_ℕ};
    ghost use Rattle.csv.specs.Records.{fields_of};

    ghost Value = { List (List ℕ) };

    ghost coded = { coded_list (coded_list coded_ℕ) };

    ghost view = { λ r. fields_of r.fields };
}

impl Record {
    fn new(fields: ByteRecord) -> Record
        ensures { result ≡ fields_of fields }
    {
        Record { fields }
    }

    /// How many fields the record has.
    pub fn len(&self) -> usize
        ensures { result ≡ length self.now }
    {
        self.fields.len()
    }

    /// The field at a place from 0.
    pub fn get(&self, at: usize) -> Option<&[u8]>
        ensures { option_map (λ f. f.now) result ≡ slice_get self.now at }
    {
        self.fields.get(at)
    }

    /// The field at a place from 0, and an empty one where there is none.
    pub fn field(&self, at: usize) -> &[u8]
        ensures { result.now ≡ field at self.now }
    {
        match self.get(at) {
            Some(found) => found,
            None => &[],
        }
    }
}

pub type Records = Seq<Record>;

// Puts a record that was read behind those before it. A slice gives no error of input, though no clause says so, and
// records of any length are read.
fn put(list: &mut Vec<Record>, found: csv::Result<ByteRecord>) -> Result<(), Memory>
    ensures { OnOk result ((fields : Fields) × (found ≡ Ok fields) × (list.new.items ≡ list.old.items ++ fields_of fields ∷ [])) }
{
    match found {
        Ok(fields) => {
            list.push(Record::new(fields))?;
            Ok(())
        }
        Err(_) => Err(Memory),
    }
}

/// Every record of a text, the header among them, without a byte order mark.
pub fn records_of(alloc: Global, text: &[u8]) -> Result<Records, Memory>
    ensures { IfOk result (λ found. found ≡ records default_config (strip_bom text.now)) }
{
    let reader = ReaderBuilder::new()
        .has_headers(false)
        .flexible(true)
        .from_reader(alloc, text);
    let mut list = Vec::new(alloc);
    for found in reader.into_byte_records() {
        put(&mut list, found)?;
    }
    Ok(Seq::from_vec(list))
}
