//! The entries of map variables that selects ask for, and the variables that stand for them.
ghost use Rattle.std.specs.Prelude.{◌≡◌, ◌≤◌, ◌+◌, length, IfOk, IfSome, OnOk, IsTrue};
ghost use Rattle.hy_val.specs.Sorts.{is_scalar};
ghost use Rattle.hy_val.specs.Values.{select_value};
ghost use Rattle.hy_term.specs.Meaning.{value};
ghost use Rattle.map_axioms.specs.Steps.{IsAsked, Placed, State, entry_number};

use crate::entries::Entries;
use crate::shared::SharedTerms;
use hy_term::TermNode;
use hy_val::{Scalar, Sort};
use std::alloc::AllocError;

/// An entry of a map variable at the value of an index, which a variable of the reduced terms stands for.
#[derive(Clone, Copy, Debug, PartialEq, Eq)]
pub struct Entry {
    /// The number of the map variable.
    pub map: usize,
    /// The index, as a node of the source.
    pub place: usize,
    /// The same, as a node of the reduced terms.
    pub index: usize,
    /// The number of the variable that stands for the entry.
    pub number: usize,
    /// The node of that variable.
    pub entry: usize,
}

// The number of the variable for the entry of a map variable at a node, where there are so many numbers.
fn entry_number(base: usize, place: usize, map: usize) -> Option<usize>
    ensures { IfSome result (λ n. n ≡ entry_number base place map) }
{
    let row = place.checked_add(1)?;
    let first = base.checked_mul(row)?;
    first.checked_add(map)
}

/// A map variable and an index for it, as nodes of the source and of the reduced terms.
#[derive(Clone, Copy, Debug, PartialEq, Eq)]
pub(crate) struct Ask {
    pub map: usize,
    pub place: usize,
    pub index: usize,
    pub elem: Scalar,
}

/// The node for an entry of a map variable: the one that there is, or a new variable's.
pub(crate) fn variable_entry(
    nodes: &[TermNode],
    base: usize,
    out: &mut SharedTerms,
    entries: &mut Entries,
    ask: Ask,
) -> Result<usize, AllocError>
    requires state { State base nodes.now out.old.nodes entries.old }
    requires ask { IsAsked base nodes.now out.old.nodes entries.old ask.map ask.place ask.index ask.elem }
    requires own { IsTrue (is_scalar ask.elem) }
    ensures entry { IfOk result (λ t. Placed base nodes.now out.old.nodes entries.old out.new.nodes entries.new ask.elem t (λ a. select_value (a ask.map) (value a nodes.now ask.place))) }
    ensures nodes { OnOk result (length out.new.nodes ≤ length out.old.nodes + 1) }
    ensures entries { OnOk result (length entries.new ≤ length entries.old + 1) }
{
    if let Some(entry) = entries.find(ask.map, ask.place) {
        return Ok(entry);
    }
    let number = entry_number(base, ask.place, ask.map).ok_or(AllocError)?;
    let entry = out.add(TermNode::Variable {
        number,
        sort: Sort::scalar(ask.elem),
    })?;
    entries.push(Entry {
        map: ask.map,
        place: ask.place,
        index: ask.index,
        number,
        entry,
    })?;
    Ok(entry)
}
