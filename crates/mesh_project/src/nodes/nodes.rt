// A model's node over those of the models before it, or the first fault of its query.
ghost use Rattle.std.specs.Prelude.{◌≡◌, ◌++◌, [], map, not, IfOk, IsErrOf, OnOk};
ghost use Rattle.std.specs.List.{AllByRecursion, slice_get};
ghost use Rattle.std.specs.Option.{is_some, option_copied};
ghost use Rattle.sha2.specs.Sha256.{sha256};
ghost use Rattle.mesh_canon_text.specs.Text.{node_text};
ghost use Rattle.mesh_project_files.specs.Loading.{Gives, in_file};
ghost use Rattle.mesh_project_files.specs.declared.faults.LoadFault.TheVariants as fault;
ghost use Rattle.mesh_resolve.specs.Owns.{is_seed, own};
ghost use Rattle.mesh_project.specs.nodes.Earlier.{place_at};
ghost use Rattle.mesh_project.specs.nodes.Nodes.{IsWhole, input_at, input_of, inputs_at, known_to, model_over, node_over, nodes_of, own_over, parents_of, ref_at, refs_at, with_file, with_model};
ghost use Rattle.mesh_project.specs.nodes.Walk.{Leads, along};

use crate::nodes::earlier::{Earlier, Place, named};
use crate::nodes::reads::text_reads;
use crate::order::Ranked;
use mesh_base::{Indexes, Input, Inputs, Node, Own, Ref, Refs};
use mesh_base_columns::columns_of;
use mesh_base_values::{Kind, Rows, is_incremental};
use mesh_canon::fingerprint::fingerprint;
use mesh_canon_text::node_text;
use mesh_list::{Duplicate, Memory, Seq, Sorted};
use mesh_project_files::{LoadFault, ModelFile, ProjectFiles, in_file};
use mesh_resolve::{Known, own_of};
use std::alloc::Global;

// The model at a place.
fn node_at<'a>(nodes: &'a [Node], place: &Place) -> Option<&'a Node>
    ensures { option_copied result ≡ slice_get nodes.now place.now.at }
{
    nodes.get(place.at as usize)
}

// A model as a table without rows.
fn input_of(alloc: Global, node: &Node) -> Result<Input, Memory>
    ensures { IfOk result (λ input. input ≡ input_of node.now) }
{
    let name = node.own.name.copy()?;
    let columns = columns_of(&node.own)?;
    Ok(Input {
        name,
        columns,
        rows: Rows::new(alloc),
    })
}

fn add_input(inputs: &mut Inputs, alloc: Global, node: Option<&Node>) -> Result<(), Memory>
    ensures { OnOk result (inputs.new ≡ inputs.old ++ input_at (option_copied node.entry)) }
{
    match node {
        None => Ok(()),
        Some(node) => inputs.push(input_of(alloc, node)?),
    }
}

// The models at these places, as tables.
fn inputs_at(alloc: Global, nodes: &[Node], places: &[Place]) -> Result<Inputs, Memory>
    ensures { IfOk result (λ inputs. inputs ≡ inputs_at nodes.now places.now) }
{
    let mut inputs = Seq::new(alloc);
    for place in places {
        add_input(&mut inputs, alloc, node_at(nodes, place))?;
    }
    Ok(inputs)
}

fn add_ref(refs: &mut Refs, node: Option<&Node>) -> Result<(), Memory>
    ensures { OnOk result (refs.new ≡ refs.old ++ ref_at (option_copied node.entry)) }
{
    match node {
        None => Ok(()),
        Some(node) => {
            let name = node.own.name.copy()?;
            refs.push(Ref {
                name,
                fingerprint: node.fingerprint,
            })
        }
    }
}

// The models at these places, each at its fingerprint.
fn refs_at(alloc: Global, nodes: &[Node], places: &[Place]) -> Result<Refs, Memory>
    ensures { IfOk result (λ refs. refs ≡ refs_at nodes.now places.now) }
{
    let mut refs = Seq::new(alloc);
    for place in places {
        add_ref(&mut refs, node_at(nodes, place))?;
    }
    Ok(refs)
}

fn indexes_of(alloc: Global, places: &[Place]) -> Result<Indexes, Memory>
    ensures { IfOk result (λ indexes. indexes ≡ map place_at places.now) }
{
    let mut indexes = Seq::new(alloc);
    for place in places {
        indexes.push(place.at)?;
    }
    Ok(indexes)
}

// The SHA-256 of a definition and its parents' fingerprints.
fn fingerprint_over(
    alloc: Global,
    nodes: &[Node],
    places: &[Place],
    own: &Own,
) -> Result<[u8; 32], Memory>
    ensures { IfOk result (λ made. made ≡ sha256 (node_text own.now (refs_at nodes.now places.now))) }
{
    let refs = refs_at(alloc, nodes, places)?;
    let text = node_text(alloc, own, &refs)?;
    fingerprint(text.as_slice())
}

fn links_over(
    alloc: Global,
    nodes: &[Node],
    places: &[Place],
    own: &Own,
) -> Result<(Indexes, [u8; 32]), Memory>
    ensures { IfOk result (λ made. made ≡ (map place_at places.now, sha256 (node_text own.now (refs_at nodes.now places.now)))) }
{
    let indexes = indexes_of(alloc, places)?;
    let fingerprint = fingerprint_over(alloc, nodes, places, own)?;
    Ok((indexes, fingerprint))
}

fn node_over(
    alloc: Global,
    nodes: &[Node],
    rank: u32,
    places: &[Place],
    own: Own,
) -> Result<Node, Memory>
    ensures { IfOk result (λ node. node ≡ node_over nodes.now rank places.now own) }
{
    let (parents, fingerprint) = links_over(alloc, nodes, places, &own)?;
    Ok(Node {
        own,
        parents,
        rank,
        fingerprint,
    })
}

// The models that a model's query names, among those before it.
fn parents_of(alloc: Global, earlier: &Earlier, file: &ModelFile) -> Result<Sorted<Place>, Memory>
    ensures { IfOk result (λ places. places ≡ parents_of earlier.now file.now) }
{
    let names = text_reads(alloc, &file.text.query)?;
    named(alloc, earlier, names.as_slice())
}

// What a model's query may read, in place of what another one's might.
fn learn(
    alloc: Global,
    known: &mut Known,
    nodes: &[Node],
    places: &[Place],
    kind: &Kind,
) -> Result<(), Memory>
    ensures { OnOk result (known.new ≡ known_to known.old.sources nodes.now places.now kind.now) }
{
    known.models = inputs_at(alloc, nodes, places)?;
    known.macros = is_incremental(kind);
    Ok(())
}

// A model's own definition, over what it may read.
fn own_in_file(alloc: Global, known: &Known, file: &ModelFile) -> Result<Own, LoadFault>
    requires { IsWhole file.now }
    ensures gives { Gives result (in_file file.now.text.file (own file.now.text file.now.seed known.now)) }
    ensures alone { IsErrOf result fault.Folder → ⊥ }
{
    let seed = file.seed.copy()?;
    in_file(&file.text.file, own_of(alloc, &file.text, seed, known))
}

// A model's own definition, over the models that it names, which is that over all models before it.
fn own_over(
    alloc: Global,
    known: &mut Known,
    earlier: &Earlier,
    places: &[Place],
    file: &ModelFile,
) -> Result<Own, LoadFault>
    requires whole { IsWhole file.now }
    requires named { places.now ≡ parents_of earlier.now file.now }
    ensures gives { Gives result (own_over known.old.sources earlier.now file.now) }
    ensures sources { OnOk result (known.new.sources ≡ known.old.sources) }
    ensures alone { IsErrOf result fault.Folder → ⊥ }
{
    learn(alloc, known, earlier.as_slice(), places, &file.text.kind)?;
    own_in_file(alloc, known, file)
}

// A model's node over those of the models before it.
fn model_over(
    alloc: Global,
    known: &mut Known,
    earlier: &Earlier,
    rank: u32,
    file: &ModelFile,
) -> Result<Node, LoadFault>
    requires { IsWhole file.now }
    ensures gives { Gives result (model_over known.old.sources earlier.now rank file.now) }
    ensures sources { OnOk result (known.new.sources ≡ known.old.sources) }
    ensures alone { IsErrOf result fault.Folder → ⊥ }
{
    let places = parents_of(alloc, earlier, file)?;
    let own = own_over(alloc, known, earlier, places.as_slice(), file)?;
    Ok(node_over(alloc, earlier.as_slice(), rank, places.as_slice(), own)?)
}

// One model more behind those so far.
fn add_file(
    alloc: Global,
    known: &mut Known,
    earlier: &mut Earlier,
    rank: u32,
    file: &ModelFile,
) -> Result<(), LoadFault>
    requires { IsWhole file.now }
    ensures leads { Leads result earlier.new (with_file known.old.sources earlier.old rank (Some file.now)) }
    ensures sources { OnOk result (known.new.sources ≡ known.old.sources) }
    ensures alone { IsErrOf result fault.Folder → ⊥ }
{
    let node = model_over(alloc, known, earlier, rank, file)?;
    earlier.push(node)?;
    Ok(())
}

// The model at a place of the files is the next one.
fn add_model(
    alloc: Global,
    known: &mut Known,
    earlier: &mut Earlier,
    files: &[ModelFile],
    next: &Ranked,
) -> Result<(), LoadFault>
    requires { AllByRecursion IsWhole files.now }
    ensures leads { Leads result earlier.new (with_model known.old.sources files.now earlier.old next.now) }
    ensures sources { OnOk result (known.new.sources ≡ known.old.sources) }
    ensures alone { IsErrOf result fault.Folder → ⊥ }
{
    match files.get(next.at as usize) {
        None => Ok(()),
        Some(file) => add_file(alloc, known, earlier, next.rank, file),
    }
}

/// The models in this order, each over those before it, or the first fault of their queries.
#[tactic(auto, using(crate::proofs::nodes::Steps::none_along, crate::proofs::nodes::Steps::one_more, crate::proofs::nodes::Steps::all_along))]
pub fn nodes_of(alloc: Global, files: &ProjectFiles, order: &[Ranked]) -> Result<Earlier, LoadFault>
    requires { AllByRecursion IsWhole files.now.models }
    ensures gives { Gives result (nodes_of files.now.sources files.now.models order.now) }
    ensures alone { IsErrOf result fault.Folder → ⊥ }
{
    let mut earlier = Earlier::new(alloc);
    let mut known = Known {
        models: Seq::new(alloc),
        sources: files.sources.copy()?,
        macros: false,
    };
    for next in order {
        add_model(
            alloc,
            &mut known,
            &mut earlier,
            files.models.as_slice(),
            next,
        )?;
    }
    Ok(earlier)
}
