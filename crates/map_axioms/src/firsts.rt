//! One index for all nodes that are reduced to the same node.
ghost use Rattle.std.specs.Prelude.{◌≡◌, ◌<◌, length, nat_eq, slice_index, IfOk, OnOk};
ghost use Rattle.indexmap.specs.IndexMap.{get};
ghost use Rattle.map_axioms.specs.Steps.{AreFirsts, IsFirst, IsScalarAt};

use crate::row::reduced_at;
use hy_term::TermNode;
use indexmap::IndexMap;
use std::alloc::AllocError;

/// The first node that was asked for of those that are reduced to the same node as this one.
pub(crate) fn first_of(
    firsts: &mut IndexMap<usize, usize>,
    nodes: &[TermNode],
    reds: &[usize],
    place: usize,
) -> Result<usize, AllocError>
    requires firsts { AreFirsts nodes.now reds.now (get nat_eq firsts.old) }
    requires within { place < length reds.now }
    requires scalar { IsScalarAt nodes.now place }
    ensures first { IfOk result (λ k. IsFirst nodes.now reds.now (slice_index reds.now place) k) }
    ensures firsts { OnOk result (AreFirsts nodes.now reds.now (get nat_eq firsts.new)) }
{
    let _nodes = nodes.len();
    let red = reduced_at(reds, place);
    if let Some(first) = firsts.get(&red).copied() {
        return Ok(first);
    }
    firsts.insert(red, place)?;
    Ok(place)
}
