// What models list, entry by entry.
ghost use Rattle.std.specs.Prelude.{◌≡◌, IfOk, IsErrOf, codes, map};
ghost use Rattle.std.specs.Option.{option_copied};
ghost use Rattle.mesh_project_files.specs.Loading.{Gives};
ghost use Rattle.mesh_project_files.specs.declared.faults.LoadFault.TheVariants as fault;
ghost use Rattle.mesh_audit_files.specs.Listing.{plain};
ghost use Rattle.mesh_audit_files.specs.Sets.{AreTaken, IsNamed, IsTaken, file_named, missing_column, no_audits, over_columns, with_audit, with_unknown};
ghost use Rattle.mesh_base.specs.Outputs.{columns_of};
ghost use Rattle.mesh_audit.specs.Forms.{not_null, unique_values};
ghost use Rattle.mesh_query_tokens.specs.declared.faults.FaultKind.TheVariants as what;

use crate::files::AuditFile;
use crate::listings::Listing;
use crate::queries::query_for;
use crate::text::Entry;
use mesh_audit::audits::{Audit, AuditName, AuditSet};
use mesh_audit::{not_null, unique_values};
use mesh_base::rules::has_column;
use mesh_base::{Node, Query};
use mesh_base_columns::columns_of;
use mesh_base_values::{Column, Str};
use mesh_list::{Duplicate, Memory, Seq, both};
use mesh_project_files::LoadFault;
use mesh_query_grammar::lookahead::is_same;
use mesh_query_tokens::FaultKind;
use mesh_resolve::Known;
use std::alloc::Global;

fn no_audits(alloc: Global) -> AuditSet
    ensures { result ≡ no_audits }
{
    AuditSet {
        audits: Seq::new(alloc),
        unknown: Seq::new(alloc),
    }
}

fn with_audit(set: AuditSet, n: &Node, name: &[u8], query: Query) -> Result<AuditSet, Memory>
    ensures { IfOk result (λ more. more ≡ with_audit set n.now name.now query) }
{
    let mut more = set;
    let model = n.own.name.copy()?;
    let name = u8::copy_items(more.audits.alloc(), name)?;
    more.audits.push(Audit { model, name, query })?;
    Ok(more)
}

fn with_unknown(set: AuditSet, n: &Node, name: &Str) -> Result<AuditSet, Memory>
    ensures { IfOk result (λ more. more ≡ with_unknown set n.now name.now) }
{
    let mut more = set;
    let (model, name) = both(&n.own.name, name)?;
    more.unknown.push(AuditName { model, name })?;
    Ok(more)
}

fn missing_column<'a>(columns: &[Column], names: &'a [Str]) -> Option<&'a Str>
    ensures { option_copied result ≡ missing_column columns.now names.now }
{
    names.iter().find(|name| !has_column(columns, name))
}

fn no_column(file: &Str, column: &Str) -> Result<LoadFault, Memory>
    ensures { IfOk result (λ made. made ≡ fault.Fault file.now 0 (what.UnknownColumn column.now)) }
{
    let (file, name) = both(file, column)?;
    Ok(LoadFault::Fault {
        file,
        at: 0,
        kind: FaultKind::UnknownColumn { name },
    })
}

// An audit over columns, which the model has to have.
fn over_columns(
    set: AuditSet,
    l: &Listing,
    name: &[u8],
    query: Query,
    missing: Option<&Str>,
) -> Result<AuditSet, LoadFault>
    ensures gives { Gives result (over_columns set (plain l.now) name.now query (option_copied missing.entry)) }
    ensures alone { IsErrOf result fault.Folder → ⊥ }
{
    match missing {
        None => Ok(with_audit(set, l.model, name, query)?),
        Some(column) => Err(no_column(l.file, column)?),
    }
}

fn file_named<'a>(files: &'a [AuditFile], name: &Str) -> Option<&'a AuditFile>
    ensures { option_copied result ≡ file_named files.now name.now }
{
    files
        .iter()
        .find(|f| is_same(f.text.name.as_slice(), name.as_slice()))
}

// An entry that goes by a name.
fn named(
    alloc: Global,
    known: &Known,
    set: AuditSet,
    l: &Listing,
    name: &Str,
    found: Option<&AuditFile>,
) -> Result<AuditSet, LoadFault>
    ensures says { IsNamed known.now set (plain l.now) name.now (option_copied found.entry) result }
    ensures alone { IsErrOf result fault.Folder → ⊥ }
{
    match found {
        None => Ok(with_unknown(set, l.model, name)?),
        Some(f) => match query_for(alloc, known, f, &l.model.own.name) {
            Ok(query) => Ok(with_audit(set, l.model, name.as_slice(), query)?),
            Err(fault) => Err(fault),
        },
    }
}

fn not_null_of(
    alloc: Global,
    set: AuditSet,
    l: &Listing,
    columns: &Seq<Str>,
) -> Result<AuditSet, LoadFault>
    ensures gives { Gives result (over_columns set (plain l.now) (codes "not_null") (not_null l.now.model.now.own.name columns.now) (missing_column (columns_of l.now.model.now.own) columns.now)) }
    ensures alone { IsErrOf result fault.Folder → ⊥ }
{
    let names = columns.as_slice();
    let query = not_null(alloc, &l.model.own.name, names)?;
    let there = columns_of(&l.model.own)?;
    over_columns(
        set,
        l,
        b"not_null",
        query,
        missing_column(there.as_slice(), names),
    )
}

fn unique_values_of(
    alloc: Global,
    set: AuditSet,
    l: &Listing,
    columns: &Seq<Str>,
) -> Result<AuditSet, LoadFault>
    ensures gives { Gives result (over_columns set (plain l.now) (codes "unique_values") (unique_values l.now.model.now.own.name columns.now) (missing_column (columns_of l.now.model.now.own) columns.now)) }
    ensures alone { IsErrOf result fault.Folder → ⊥ }
{
    let names = columns.as_slice();
    let query = unique_values(alloc, &l.model.own.name, names)?;
    let there = columns_of(&l.model.own)?;
    over_columns(
        set,
        l,
        b"unique_values",
        query,
        missing_column(there.as_slice(), names),
    )
}

// One entry more.
fn taken(
    alloc: Global,
    known: &Known,
    files: &[AuditFile],
    set: AuditSet,
    l: &Listing,
) -> Result<AuditSet, LoadFault>
    ensures says { IsTaken known.now files.now set (plain l.now) result }
    ensures alone { IsErrOf result fault.Folder → ⊥ }
{
    match &l.entry {
        Entry::Named(name) => named(alloc, known, set, l, name, file_named(files, name)),
        Entry::NotNull(columns) => not_null_of(alloc, set, l, columns),
        Entry::UniqueValues(columns) => unique_values_of(alloc, set, l, columns),
        Entry::Other(text) => Ok(with_unknown(set, l.model, text)?),
    }
}

/// What models list, where the audits' files are these.
pub(crate) fn take_all(
    alloc: Global,
    known: &Known,
    all: &[Listing],
    files: &[AuditFile],
) -> Result<AuditSet, LoadFault>
    ensures says { AreTaken known.now (map plain all.now) files.now result }
    ensures alone { IsErrOf result fault.Folder → ⊥ }
{
    let mut set = no_audits(alloc);
    for l in all {
        match taken(alloc, known, files, set, l) {
            Ok(more) => set = more,
            Err(fault) => return Err(fault),
        }
    }
    Ok(set)
}
