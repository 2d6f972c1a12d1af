//! The way from terms to a decision: over terms without maps, a net and its clauses to the solver, and back.
ghost use Rattle.std.specs.Prelude.{◌≡◌, ◌+◌, length, IfOk};
ghost use Rattle.cnf_form.specs.Literal.{Satisfiable};
ghost use Rattle.sat_core.specs.Answer.{IsAnswer, RefutesAnew};
ghost use Rattle.gate_net.specs.Encoding.{IsRunOf};
ghost use Rattle.bit_blast.specs.Blasted.{IsNetOf};
ghost use Rattle.decide.specs.Decided.{IsDecision, IsModel};

use crate::decision::Decision;
use bit_blast::{blast, read_back};
use cnf_form::{Cnf, Log, Refuted};
use gate_net::{Net, clauses};
use hy_term::{Reduced, Terms};
use hy_val::Value;
use map_axioms::{Plan, lift, reduce};
use proof_check::refutation_is_sound;
use sat_core::{Answer, solve};
use sat_watch::WatchStore;
use sqlite_items::Items;
use std::alloc::{AllocError, Global};

// What the solver answers of a formula.
fn answer_of(alloc: Global, cnf: &Cnf) -> Result<Answer, AllocError>
    ensures { IfOk result (IsAnswer cnf.now.variables cnf.now.clauses) }
{
    let mut store = WatchStore::of_cnf(alloc, cnf)?;
    let answer = solve(alloc, cnf.variables, &mut store);
    Ok(answer)
}

// The formula with the log that refutes it.
fn refuted(cnf: Cnf, log: Log) -> Refuted
    requires { RefutesAnew cnf.clauses log.lines }
    ensures variables { result.cnf.variables ≡ cnf.variables }
    ensures clauses { result.cnf.clauses ≡ cnf.clauses }
    ensures never { Satisfiable cnf.variables cnf.clauses → ⊥ }
{
    refutation_is_sound();
    Refuted { cnf, log }
}

// The values of the source's variables, from what the wires of the net of the reduced terms carry where its root is true.
fn model_of(
    alloc: Global,
    reduced: &Reduced,
    plan: &Plan,
    net: &Net,
    wires: &[bool],
) -> Result<Items<Value>, AllocError>
    requires plan { plan.now.reduced ≡ reduced.now }
    requires net { IsNetOf reduced.now net.now }
    requires count { length wires.now ≡ net.now.inputs + length net.now.gates.items }
    requires run { IsRunOf net.now.inputs net.now.gates.items net.now.root wires.now }
    ensures { IfOk result (IsModel plan.now.source) }
{
    let atoms = read_back(alloc, reduced, &wires[..net.inputs])?;
    let values = lift(alloc, plan, atoms.as_slice())?;
    Ok(values)
}

// The decision, where there is memory for it.
fn decided(alloc: Global, terms: &Terms) -> Result<Decision, AllocError>
    ensures { IfOk result (IsDecision terms.now) }
{
    let (reduced, plan) = reduce(alloc, terms)?;
    let net = blast(alloc, &reduced)?;
    let cnf = clauses(alloc, &net)?;
    match answer_of(alloc, &cnf)? {
        Answer::Sat(wires) => {
            let values = model_of(alloc, &reduced, &plan, &net, wires.as_slice())?;
            Ok(Decision::Model(values))
        }
        Answer::Unsat(log) => {
            let refuted = refuted(cnf, log);
            Ok(Decision::Refuted(refuted))
        }
        Answer::NoMemory => Err(AllocError),
    }
}

/// Decides whether some values of the variables, which have their sorts, make the root of the terms true.
///
/// `Model` has such values, one for each variable that stands in the terms, ascending by number. `Refuted` has a formula
/// that could be satisfied exactly where the terms could hold, and the log that refutes it: no values make the root true.
/// `NoMemory` comes where memory runs out, or where the numbers of variables do, and says nothing of the terms; so many
/// gates that they can't be counted count as that.
pub fn decide(alloc: Global, terms: &Terms) -> Decision
    ensures { IsDecision terms.now result }
{
    match decided(alloc, terms) {
        Ok(decision) => decision,
        Err(_) => Decision::NoMemory,
    }
}
