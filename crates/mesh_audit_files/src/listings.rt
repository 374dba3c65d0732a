// What the models of a project list as their audits.
ghost use Rattle.std.specs.Prelude.{◌≡◌, ◌++◌, IfOk, OnOk, map};
ghost use Rattle.std.specs.Option.{option_copied};
ghost use Rattle.mesh_audit_files.specs.Listings.{all_listed, file_of, goes_by, is_entry_of, is_file_of, listed_as, listed_by};
ghost use Rattle.mesh_audit_files.specs.Listing.{plain};
ghost use Rattle.mesh_audit_files.specs.text.Entries.{entries_of};

use crate::text::{Entry, entries_of};
use mesh_base::Node;
use mesh_base_values::{Name, Str};
use mesh_list::{Memory, Seq};
use mesh_project_files::ModelFile;
use mesh_query_grammar::lookahead::is_same;
use std::alloc::Global;

/// An entry of a model's `audits`, with the model and its file.
#[derive(Drop)]
pub struct Listing<'a> {
    pub model: &'a Node,
    pub file: &'a Str,
    pub entry: Entry,
}

pub type Listings<'a> = Seq<Listing<'a>>;

fn is_file_of(name: &Name, f: &ModelFile) -> bool
    ensures { result ≡ is_file_of name.now f.now }
{
    f.text.name.compare(name).is_eq()
}

fn file_of<'a>(files: &'a [ModelFile], name: &Name) -> Option<&'a ModelFile>
    ensures { option_copied result ≡ file_of files.now name.now }
{
    files.iter().find(|f| is_file_of(name, f))
}

fn push_entries<'a>(
    alloc: Global,
    all: &mut Listings<'a>,
    n: &'a Node,
    f: &'a ModelFile,
) -> Result<(), Memory>
    ensures { OnOk result (map plain all.new ≡ map plain all.old ++ map (listed_as n.now f.now.text.file) (entries_of f.now.text.audits)) }
{
    let entries = entries_of(alloc, f.text.audits.as_slice())?;
    for entry in entries.into_vec() {
        all.push(Listing {
            model: n,
            file: &f.text.file,
            entry,
        })?;
    }
    Ok(())
}

fn push_listed<'a>(
    alloc: Global,
    all: &mut Listings<'a>,
    files: &'a [ModelFile],
    n: &'a Node,
) -> Result<(), Memory>
    ensures { OnOk result (map plain all.new ≡ map plain all.old ++ listed_by files.now n.now) }
{
    match file_of(files, &n.own.name) {
        None => Ok(()),
        Some(f) => push_entries(alloc, all, n, f),
    }
}

/// What all models list, by rank and name of the model and then in written order.
pub(crate) fn all_listed<'a>(
    alloc: Global,
    files: &'a [ModelFile],
    nodes: &'a [Node],
) -> Result<Listings<'a>, Memory>
    ensures { IfOk result (λ all. map plain all ≡ all_listed files.now nodes.now) }
{
    let mut all = Seq::new(alloc);
    for n in nodes {
        push_listed(alloc, &mut all, files, n)?;
    }
    Ok(all)
}

fn is_entry_of(name: &[u8], entry: &Entry) -> bool
    ensures { result ≡ is_entry_of name.now entry.now }
{
    match entry {
        Entry::Named(other) => is_same(other.as_slice(), name),
        _ => false,
    }
}

/// Whether an entry goes by this name.
pub(crate) fn goes_by(name: &[u8], l: &Listing) -> bool
    ensures { result ≡ goes_by name.now (plain l.now) }
{
    is_entry_of(name, &l.entry)
}
