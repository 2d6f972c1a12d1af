//! The faults of a body: second labels and stray breaks, which the walk has met, and gotos, which are looked up behind it.
ghost use Rattle.std.specs.Prelude.{◌≡◌, ◌++◌, ◌||◌, not, nat_eq, OnOk, IfOk};
ghost use Rattle.std.specs.List.{list_any};
ghost use Rattle.std.specs.Option.{option_copied};
ghost use Rattle.bpl_flow.specs.Flow.{is_enclosed, fault_of_jump, faults_of_jumps, listed, sooner, first_fault};

use crate::fault::{FlowFault, FlowKind};
use crate::places::Places;
use crate::state::{Jump, Place, Walk};
use sqlite_items::Items;
use std::alloc::AllocError;

/// Whether a statement is one of some.
pub fn is_one_of(statement: u32, statements: &[u32]) -> bool
    ensures { result ≡ list_any (nat_eq statement) statements.now }
{
    for other in statements {
        if statement == *other {
            return true;
        }
    }
    false
}

/// Whether all of some loops are around.
pub fn are_around(loops: &[u32], around: &[u32]) -> bool
    ensures { result ≡ is_enclosed loops.now around.now }
{
    for one in loops {
        if !is_one_of(*one, around) {
            return false;
        }
    }
    true
}

/// Whether a goto of this kind may lead to the place.
pub fn is_forward(place: &Place, jump: &Jump) -> bool
    ensures { result ≡ not (jump.now.is_behind || not (is_enclosed place.now.loops jump.now.loops)) }
{
    !jump.is_behind && are_around(place.loops.as_slice(), jump.loops.as_slice())
}

/// The fault of a name in a goto, whose label stands at a place, if it does.
pub fn jump_fault(place: Option<&Place>, jump: &Jump) -> Option<FlowFault>
    ensures { listed result ≡ fault_of_jump (option_copied place.entry) jump.now }
{
    let at = jump.name.at;
    match place {
        None => Some(FlowFault {
            at,
            kind: FlowKind::NoLabel,
        }),
        Some(place) => {
            if is_forward(place, jump) {
                return None;
            }
            let kind = FlowKind::NotForward;
            Some(FlowFault { at, kind })
        }
    }
}

/// Adds the faults of a walk.
pub fn add_faults(walk: &Walk, faults: &mut Items<FlowFault>) -> Result<(), AllocError>
    ensures { OnOk result (faults.new ≡ faults.old ++ (walk.now.faults ++ faults_of_jumps walk.now.places walk.now.jumps)) }
{
    for fault in walk.faults.as_slice() {
        faults.push(*fault)?;
    }
    add_jump_faults(&walk.places, walk.jumps.as_slice(), faults)
}

/// Adds the faults of names in gotos.
pub fn add_jump_faults(
    places: &Places,
    jumps: &[Jump],
    faults: &mut Items<FlowFault>,
) -> Result<(), AllocError>
    ensures { OnOk result (faults.new ≡ faults.old ++ faults_of_jumps places.now jumps.now) }
{
    for jump in jumps {
        let place = places.find(jump.name.text.as_slice());
        if let Some(fault) = jump_fault(place, jump) {
            faults.push(fault)?;
        }
    }
    Ok(())
}

/// The fault with the least offset; of several the first.
pub fn least(faults: &[FlowFault]) -> Option<FlowFault>
    ensures { result ≡ first_fault faults.now }
{
    let mut found = None;
    for fault in faults {
        found = Some(sooner(found, *fault));
    }
    found
}

/// Of two faults the one with the lesser offset, else the first.
pub fn sooner(before: Option<FlowFault>, fault: FlowFault) -> FlowFault
    ensures { result ≡ sooner before fault }
{
    match before {
        None => fault,
        Some(first) => {
            if fault.at < first.at {
                return fault;
            }
            first
        }
    }
}
