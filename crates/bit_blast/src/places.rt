//! Where the bits of variables stand among the inputs of a net.
ghost use Rattle.std.specs.Prelude.{◌≡◌, ℕ, List, Bool, ◌+◌, drop, length, slice_get, take, Some, IfOk, IsTrue};
ghost use Rattle.hy_term.specs.TermSorts.{is_formula};
ghost use Rattle.hy_term.specs.Variables.{ascend, count_below, numbers_of, variables};
ghost use Rattle.bit_blast.specs.Words.{IsWord, bits};
ghost use Rattle.bit_blast.specs.Blasted.{input_count, scalar_width, sort_width};
ghost use Rattle.bit_blast.specs.Standing.{starts_from};

use crate::word::inputs;
use gate_net::Net;
use hy_term::{TermNode, TermVariable, place_of, variables_of};
use hy_val::{Scalar, ScalarKind, Sort, SortKind};
use sqlite_items::Items;
use std::alloc::{AllocError, Global};

/// The variables of terms, and where the bits of each begin among the inputs.
#[derive(Drop)]
pub(crate) struct Places {
    pub variables: Items<TermVariable>,
    pub starts: Items<usize>,
    pub count: usize,
}

/// How many bits the values of a scalar sort have.
pub(crate) fn scalar_width(scalar: Scalar) -> usize
    ensures { result ≡ scalar_width scalar }
{
    match scalar.kind() {
        ScalarKind::Bool => 1,
        ScalarKind::Bv { width } => width.bits() as usize,
    }
}

/// How many bits the values of a sort have; of maps none are counted.
pub(crate) fn sort_width(sort: Sort) -> usize
    ensures { result ≡ sort_width sort }
{
    match sort.kind() {
        SortKind::Scalar(scalar) => scalar_width(scalar),
        SortKind::Map { index: _, elem: _ } => 0,
    }
}

/// The places of the variables that stand in the nodes. So many bits that a `usize` can't count them count as want of
/// memory.
pub(crate) fn places_of(alloc: Global, nodes: &[TermNode]) -> Result<Places, AllocError>
    ensures variables { IfOk result (λ p. p.variables ≡ variables nodes.now) }
    ensures starts { IfOk result (λ p. p.starts ≡ starts_from 0 (variables nodes.now)) }
    ensures count { IfOk result (λ p. p.count ≡ input_count (variables nodes.now)) }
{
    let variables = variables_of(alloc, nodes)?;
    let mut starts = Items::new(alloc);
    let mut count: usize = 0;
    for variable in variables.as_slice() {
        starts.push(count)?;
        count = count
            .checked_add(sort_width(variable.sort))
            .ok_or(AllocError)?;
    }
    Ok(Places {
        variables,
        starts,
        count,
    })
}

/// The inputs of a variable.
pub(crate) fn variable_word(
    alloc: Global,
    net: &Net,
    places: &Places,
    number: usize,
    sort: Sort,
) -> Result<Vec<usize>, AllocError>
    requires ascend { IsTrue (ascend (numbers_of places.now.variables)) }
    requires starts { places.now.starts ≡ starts_from 0 places.now.variables }
    requires inputs { net.now.inputs ≡ input_count places.now.variables }
    requires listed { slice_get places.now.variables (count_below number places.now.variables) ≡ Some (record { number = number; sort = sort }) }
    ensures word { IfOk result (λ out. IsWord net.now (sort_width sort) out.items) }
    ensures bits { IfOk result (λ out. (ins : List Bool) → length ins ≡ net.now.inputs → bits ins net.now out.items ≡ take (sort_width sort) (drop (input_count (take (count_below number places.now.variables) places.now.variables)) ins)) }
{
    let place = place_of(places.variables.as_slice(), number);
    let first = places.starts.as_slice()[place];
    let word = inputs(alloc, net, first, sort_width(sort))?;
    Ok(word)
}
