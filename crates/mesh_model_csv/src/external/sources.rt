// The sources that are declared so far.
ghost use Rattle.std.specs.Prelude.{◌≡◌, IfOk};
ghost use Rattle.std.specs.Option.{unwrap_or};
ghost use Rattle.mesh_query_tokens.specs.Gives.{Gives};
ghost use Rattle.mesh_base_values.specs.Names.{name_cmp};
ghost use Rattle.mesh_base_values.specs.NameOrder.{names_total, names_exact};
ghost use Rattle.mesh_model_csv.specs.external.Externals.{decl_name, undeclared, declare};

use crate::external::columns::grown;
use crate::external::names::source_name;
use crate::seeds::{Record, bad_row};
use mesh_base::{Decl, Externals};
use mesh_base_values::Name;
use mesh_list::{Duplicate, Keyed, Memory, Register, Seq};
use mesh_query_tokens::ReadFault;
use std::alloc::Global;
use std::cmp::Ordering;
use std::marker::Model;

/// A source, which contracts see as its declaration.
pub(crate) struct Source {
    decl: Decl,
}

impl Drop for Source {
    fn drop(self) {
        let Source { decl: _ } = self;
    }
}

impl Model for Source {
    ghost use Rattle.mesh_base.specs.declared.definitions.Decl.{Decl};

    ghost Value = { Decl };

    ghost view = { λ s. s.decl };
}

impl Source {
    pub(crate) fn new(decl: Decl) -> Source
        ensures { result ≡ decl }
    {
        Source { decl }
    }

    pub(crate) fn into_decl(self) -> Decl
        ensures { result ≡ self }
    {
        let Source { decl } = self;
        decl
    }
}

impl Keyed for Source {
    type Key = Name;

    ghost key = { decl_name };

    ghost order = { name_cmp };

    fn compare(&self, other: &Name) -> Ordering {
        self.decl.name.compare(other)
    }

    fn against(&self, other: &Source) -> Ordering {
        self.decl.name.compare(&other.decl.name)
    }

    ghost total = { names_total };

    ghost exact = { names_exact };
}

pub(crate) type Sources = Register<Source>;

fn undeclared(alloc: Global, name: &Name) -> Result<Decl, Memory>
    ensures { IfOk result (λ made. made ≡ undeclared name.now) }
{
    Ok(Decl {
        name: name.copy()?,
        columns: Seq::new(alloc),
        time: None,
    })
}

fn or_undeclared(alloc: Global, found: Option<Source>, name: &Name) -> Result<Decl, Memory>
    ensures { IfOk result (λ made. made ≡ unwrap_or found (undeclared name.now)) }
{
    match found {
        Some(source) => Ok(source.into_decl()),
        None => undeclared(alloc, name),
    }
}

/// The sources with what the fields of record `row` declare.
pub(crate) fn declare(
    alloc: Global,
    row: u64,
    sources: Sources,
    fields: &Record,
) -> Result<Sources, ReadFault>
    ensures { Gives result (declare row sources fields.now) }
{
    let mut sources = sources;
    if fields.len() != 4 {
        drop(sources);
        return Err(bad_row(row, 0));
    }
    let name = match source_name(alloc, row, fields.field(0)) {
        Ok(name) => name,
        Err(fault) => {
            drop(sources);
            return Err(fault);
        }
    };
    let found = sources.remove(&name);
    let source = or_undeclared(alloc, found, &name);
    drop(name);
    let Ok(source) = source else {
        drop(sources);
        return Err(ReadFault::Memory);
    };
    let (column, kind, role) = (fields.field(1), fields.field(2), fields.field(3));
    let more = match grown(alloc, row, source, column, kind, role) {
        Ok(more) => more,
        Err(fault) => {
            drop(sources);
            return Err(fault);
        }
    };
    match sources.place(Source::new(more)) {
        Ok(()) => Ok(sources),
        Err(_) => {
            drop(sources);
            Err(ReadFault::Memory)
        }
    }
}

/// The declarations, in the same order.
pub(crate) fn listed(alloc: Global, sources: Sources) -> Result<Externals, Memory>
    ensures { IfOk result (λ list. list ≡ sources) }
{
    let mut list: Externals = Seq::new(alloc);
    for source in sources.into_vec() {
        list.push(source.into_decl())?;
    }
    Ok(list)
}
