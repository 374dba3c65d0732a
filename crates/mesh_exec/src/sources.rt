// The sources of due models are looked at before anything is changed.
ghost use Rattle.std.specs.Prelude.{◌≡◌, IfOk, IsTrue, None, map};
ghost use Rattle.std.specs.Option.{option_map};
ghost use Rattle.mesh_house.specs.Sources.{are_plain};
ghost use Rattle.mesh_layer.specs.Shows.{Finds};
ghost use Rattle.mesh_spec_model.specs.Sources.{has_shape, source_named};
ghost use Rattle.mesh_exec_works.specs.Works.{part_of};
ghost use Rattle.mesh_exec.specs.Sources.{breach, breach_by, first_by_name, kind_of, lack_of, model_breach, first_lack, part_lack};

use mesh_base::Decl;
use mesh_base_values::{Columns, Name, Str, has_two_underscores};
use mesh_exec_works::Work;
use mesh_house::Warehouse;
use mesh_layer::{ShowFault, has_shape};
use mesh_list::{Duplicate, Memory};
use mesh_query_tokens::FaultKind;
use std::alloc::Global;

/// A source that isn't there, or is there with another shape.
#[derive(Drop)]
pub struct Breach {
    pub source: Name,
    pub is_there: bool,
}

/// What a model lacks.
#[derive(Drop)]
pub struct Lack {
    pub model: Name,
    pub kind: FaultKind,
}

/// What a declared source lacks, by the columns that are there.
fn breach_by(decl: &Decl, columns: &Option<Columns>) -> Result<Option<Breach>, Memory>
    ensures { IfOk result (λ b. b ≡ breach_by decl.now columns.now) }
{
    match columns {
        None => Ok(Some(Breach {
            source: decl.name.copy()?,
            is_there: false,
        })),
        Some(columns) => {
            if has_shape(decl.columns.as_slice(), columns.as_slice()) {
                Ok(None)
            } else {
                Ok(Some(Breach {
                    source: decl.name.copy()?,
                    is_there: true,
                }))
            }
        }
    }
}

/// The columns of a source, where it is there.
fn head_of<W: Warehouse>(
    alloc: Global,
    house: &mut W,
    decl: &Decl,
) -> Result<Option<Columns>, ShowFault>
    ensures { Finds (λ w. IsTrue (are_plain w.sources))
        (λ w columns. columns ≡ option_map (λ s. s.columns) (source_named w.sources decl.now))
        (λ w. None) (W.told house.old) (W.told house.new) result }
{
    if has_two_underscores(decl.name.schema.as_slice()) {
        return Ok(None);
    }
    let columns = house.head(alloc, &decl.name)?;
    Ok(columns)
}

/// What a declared source lacks.
fn breach_of<W: Warehouse>(
    alloc: Global,
    house: &mut W,
    decl: &Decl,
) -> Result<Option<Breach>, ShowFault>
    ensures { Finds (λ w. IsTrue (are_plain w.sources))
        (λ w b. b ≡ breach decl.now (source_named w.sources decl.now))
        (λ w. None) (W.told house.old) (W.told house.new) result }
{
    let columns = head_of(alloc, house, decl)?;
    let found = breach_by(decl, &columns)?;
    Ok(found)
}

/// The one of the source that comes first by its name.
fn first_by_name(a: Option<Breach>, b: Option<Breach>) -> Option<Breach>
    ensures { result ≡ first_by_name a b }
{
    match (a, b) {
        (None, b) => b,
        (Some(a), None) => Some(a),
        (Some(a), Some(b)) => {
            if b.source.compare(&a.source).is_lt() {
                Some(b)
            } else {
                Some(a)
            }
        }
    }
}

/// What the sources lack, by the first of them that lacks something.
pub fn model_breach<W: Warehouse>(
    alloc: Global,
    house: &mut W,
    decls: &[Decl],
) -> Result<Option<Breach>, ShowFault>
    ensures { Finds (λ w. IsTrue (are_plain w.sources))
        (λ w b. b ≡ model_breach w.sources decls.now)
        (λ w. None) (W.told house.old) (W.told house.new) result }
{
    let mut found = None;
    for decl in decls {
        let next = breach_of(alloc, house, decl)?;
        found = first_by_name(found, next);
    }
    Ok(found)
}

/// What a model lacks, as a fault.
pub fn kind_of(b: Breach) -> FaultKind
    ensures { result ≡ kind_of b }
{
    if b.is_there {
        FaultKind::SourceShape { name: b.source }
    } else {
        FaultKind::SourceMissing { name: b.source }
    }
}

fn lack_of(model: &Name, found: Option<Breach>) -> Result<Option<Lack>, Memory>
    ensures { IfOk result (λ lack. lack ≡ lack_of model.now found) }
{
    match found {
        None => Ok(None),
        Some(b) => Ok(Some(Lack {
            model: model.copy()?,
            kind: kind_of(b),
        })),
    }
}

/// What a due model lacks.
fn work_lack<W: Warehouse>(
    alloc: Global,
    house: &mut W,
    work: &Work,
) -> Result<Option<Lack>, ShowFault>
    ensures { Finds (λ w. IsTrue (are_plain w.sources))
        (λ w lack. lack ≡ part_lack w.sources (part_of work.now))
        (λ w. None) (W.told house.old) (W.told house.new) result }
{
    if work.dues.is_empty() {
        return Ok(None);
    }
    let found = model_breach(alloc, house, work.node.own.sources.as_slice())?;
    let lack = lack_of(&work.node.own.name, found)?;
    Ok(lack)
}

/// What the first of the due models lacks that lacks something.
pub(crate) fn first_lack<W: Warehouse>(
    alloc: Global,
    house: &mut W,
    works: &[Work],
) -> Result<Option<Lack>, ShowFault>
    ensures { Finds (λ w. IsTrue (are_plain w.sources))
        (λ w lack. lack ≡ first_lack w.sources (map part_of works.now))
        (λ w. None) (W.told house.old) (W.told house.new) result }
{
    for work in works {
        let lack = work_lack(alloc, house, work)?;
        if lack.is_some() {
            return Ok(lack);
        }
    }
    Ok(None)
}
