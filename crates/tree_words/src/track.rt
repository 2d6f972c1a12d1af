//! A run's own path and values, read off the values of its formula's nodes. `AllocError` comes where memory runs out.
ghost use Rattle.std.specs.Prelude.{◌≡◌, map, IfOk};
ghost use Rattle.tree_terms.specs.declared.linked.EdgeTerms.{EdgeTerms as EdgeIs};
ghost use Rattle.tree_words.specs.Reading.{passed_edges, path_by, values_taken};

use crate::values::{is_on, value_at};
use hy_val::Value;
use sqlite_items::Items;
use std::alloc::{AllocError, Global};
use tree_terms::{EdgeTerms, ValueTerms};

/// The edges that are passed, in their order.
pub fn passed_edges(
    alloc: Global,
    values: &[Value],
    edges: &[EdgeTerms],
) -> Result<Items<EdgeTerms>, AllocError>
    ensures { IfOk result (λ es. es ≡ passed_edges values.now edges.now) }
{
    let mut passed: Vec<EdgeTerms> = Vec::new(alloc);
    for edge in edges {
        if is_on(values, edge.node) {
            passed.push(*edge)?;
        }
    }
    Ok(Items::from_vec(passed))
}

/// The blocks on the way along these edges, from block 0 on.
pub fn path_by(alloc: Global, passed: &[EdgeTerms]) -> Result<Items<u32>, AllocError>
    ensures { IfOk result (λ path. path ≡ path_by passed.now) }
{
    let mut path: Vec<u32> = Vec::new(alloc);
    path.push(0)?;
    for edge in passed {
        path.push(edge.target)?;
    }
    Ok(Items::from_vec(path))
}

/// For each edge the place of its target in the list of targets of its block.
pub fn places_by(alloc: Global, passed: &[EdgeTerms]) -> Result<Items<u32>, AllocError>
    ensures { IfOk result (λ places. places ≡ map (λ (e : EdgeIs). e.place) passed.now) }
{
    let mut places: Vec<u32> = Vec::new(alloc);
    for edge in passed {
        places.push(edge.place)?;
    }
    Ok(Items::from_vec(places))
}

/// The values that a run comes to and takes on its way, in their order.
pub fn values_taken(
    alloc: Global,
    values: &[Value],
    taken: &[ValueTerms],
) -> Result<Items<Value>, AllocError>
    ensures { IfOk result (λ vs. vs ≡ values_taken values.now taken.now) }
{
    let mut list: Vec<Value> = Vec::new(alloc);
    for value in taken {
        if is_on(values, value.live) {
            list.push(value_at(alloc, values, value.node)?)?;
        }
    }
    Ok(Items::from_vec(list))
}
