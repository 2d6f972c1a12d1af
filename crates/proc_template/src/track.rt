//! How a run is read off a formula's values: its edges, and the nodes of the values that it takes.
ghost use Rattle.std.specs.Prelude.{◌≡◌, map, slice_get, slice_index, IfOk};
ghost use Rattle.flat_prog.specs.Shape.{place_at, place_of};
ghost use Rattle.proc_template.specs.Track as spec;

use crate::layout::Layout;
use flat_prog::{FlatBlock, FlatNext};
use hy_term::TermNode;
use sqlite_items::{Items, at};
use std::alloc::{AllocError, Global};
use tree_terms::{EdgeTerms, FailTerms, TrackTerms, ValueTerms};
use vc_gen::{EdgeTerm, FailTerm, Instance, ValueTerm};

// The nodes of the variables, in order.
fn variables(alloc: Global, nodes: &[TermNode]) -> Result<Items<usize>, AllocError>
    ensures { IfOk result (λ vs. vs ≡ spec.variables_from 0 nodes.now) }
{
    let mut found = Items::new(alloc);
    for (place, node) in nodes.iter().enumerate() {
        if let TermNode::Variable { .. } = *node {
            found.push(place)?;
        }
    }
    Ok(found)
}

// The node of a variable; 0 where there is none.
fn node_of(variables: &[usize], number: usize) -> usize
    ensures { result ≡ slice_index variables.now number }
{
    match at(variables, number) {
        Some(node) => *node,
        None => 0,
    }
}

// The nodes of variables.
fn nodes_at(
    alloc: Global,
    variables: &[usize],
    numbers: &[usize],
) -> Result<Items<usize>, AllocError>
    ensures { IfOk result (λ ns. ns ≡ spec.nodes_at variables.now numbers.now) }
{
    let mut nodes = Items::new(alloc);
    for number in numbers {
        nodes.push(node_of(variables, *number))?;
    }
    Ok(nodes)
}

// The block at a place of a goto list.
fn target_of(next: &FlatNext, place: u32) -> Option<u32>
    ensures { result ≡ place_of next.now place }
{
    match next {
        FlatNext::Goto(targets) => at(targets.as_slice(), place as usize).copied(),
        FlatNext::Return => None,
    }
}

// The block to which an edge leads.
fn target_at(blocks: &[FlatBlock], block: u32, place: u32) -> Option<u32>
    ensures { result ≡ place_at (slice_get blocks.now block) place }
{
    match at(blocks, block as usize) {
        Some(block) => target_of(&block.next, place),
        None => None,
    }
}

// The edges with the blocks to which they lead.
fn edges_with(
    alloc: Global,
    blocks: &[FlatBlock],
    edges: &[EdgeTerm],
) -> Result<Items<EdgeTerms>, AllocError>
    ensures { IfOk result (λ es. es ≡ spec.edges_with blocks.now edges.now) }
{
    let mut found = Items::new(alloc);
    for edge in edges {
        match target_at(blocks, edge.block, edge.place) {
            Some(target) => found.push(EdgeTerms {
                block: edge.block,
                place: edge.place,
                target,
                node: edge.node,
            })?,
            None => {}
        }
    }
    Ok(found)
}

// The asserts.
fn fail_terms(alloc: Global, asserts: &[FailTerm]) -> Result<Items<FailTerms>, AllocError>
    ensures { IfOk result (λ fs. fs ≡ map spec.fail_terms asserts.now) }
{
    let mut found = Items::new(alloc);
    for assert in asserts {
        found.push(FailTerms {
            block: assert.block,
            position: assert.position,
            node: assert.node,
        })?;
    }
    Ok(found)
}

// The values.
fn value_terms(alloc: Global, values: &[ValueTerm]) -> Result<Items<ValueTerms>, AllocError>
    ensures { IfOk result (λ vs. vs ≡ map spec.value_terms values.now) }
{
    let mut found = Items::new(alloc);
    for value in values {
        found.push(ValueTerms {
            node: value.node,
            live: value.live,
        })?;
    }
    Ok(found)
}

/// How a run of the procedure of this number, which has these blocks, is read off the values of the nodes.
pub(crate) fn track(
    alloc: Global,
    proc: u32,
    blocks: &[FlatBlock],
    nodes: &[TermNode],
    layout: &Layout,
    instance: &Instance,
) -> Result<TrackTerms, AllocError>
    ensures { IfOk result (λ t. t ≡ spec.track_of proc blocks.now nodes.now layout.now instance.now) }
{
    let variables = variables(alloc, nodes)?;
    let edges = edges_with(alloc, blocks, instance.edges.as_slice())?;
    let begin = nodes_at(alloc, variables.as_slice(), layout.begin.as_slice())?;
    let values = value_terms(alloc, instance.values.as_slice())?;
    let asserts = fail_terms(alloc, instance.asserts.as_slice())?;
    Ok(TrackTerms {
        proc,
        edges,
        begin,
        values,
        asserts,
    })
}
