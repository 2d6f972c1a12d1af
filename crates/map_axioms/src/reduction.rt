//! The reduction of terms.
ghost use Rattle.std.specs.Prelude.{◌≡◌, ◌<◌, ◌≤◌, ◌+◌, ◌*◌, ◌^◌, [], length, IfOk, OnOk, IsTrue, ◌↔◌};
ghost use Rattle.hy_term.specs.Meaning.{CanHold};
ghost use Rattle.hy_term.specs.Variables.{below};
ghost use Rattle.map_axioms.specs.Reduction.{AllDiffer, KeepsHolding, KeepsScalars};
ghost use Rattle.map_axioms.specs.Steps.{AllTaken, IsPlan, State};

use crate::congruence::congruent;
use crate::entries::Entries;
use crate::node::reduced;
use crate::plan::Plan;
use crate::row::reduced_at;
use crate::shared::SharedTerms;
use crate::table::Table;
use hy_term::{Reduced, Terms};
use indexmap::IndexMap;
use sqlite_items::Items;
use std::alloc::{AllocError, Global};

// The reduced nodes of all nodes, behind the literal true.
fn all_nodes(
    alloc: Global,
    terms: &Terms,
    base: usize,
    out: &mut SharedTerms,
    entries: &mut Entries,
) -> Result<Items<usize>, AllocError>
    requires under { IsTrue (below base terms.now.nodes) }
    requires state { State base terms.now.nodes out.old.nodes entries.old }
    requires nodes { length out.old.nodes ≤ 1 }
    requires entries { length entries.old ≤ 0 }
    ensures { IfOk result (λ reds. AllTaken base terms.now.nodes out.new.nodes entries.new reds) }
{
    let count = terms.nodes().len();
    let mut reds = Items::new(alloc);
    let mut rows = Table::new(alloc);
    let mut firsts = IndexMap::new(alloc);
    'nodes: while reds.len() < count {
        let red = reduced(
            alloc,
            terms,
            base,
            out,
            entries,
            &mut rows,
            &mut firsts,
            reds.as_slice(),
        )?;
        reds.push(red)?;
    }
    Ok(reds)
}

// The reduced terms, with the entries that variables stand for.
fn reduced_terms(alloc: Global, terms: &Terms, entries: &mut Entries) -> Result<Terms, AllocError>
    requires { entries.old ≡ [] }
    ensures plan { IfOk result (λ out. IsPlan terms.now out entries.new) }
    ensures shares { IfOk result (λ out. AllDiffer out.nodes) }
    ensures count { IfOk result (λ out. length out.nodes ≤ 1024 * length terms.now.nodes ^ 3) }
{
    let base = terms.fresh().ok_or(AllocError)?;
    let nodes = terms.nodes();
    let mut out = SharedTerms::new(alloc)?;
    let reds = all_nodes(alloc, terms, base, &mut out, entries)?;
    let root = reduced_at(reds.as_slice(), terms.root());
    let all = congruent(alloc, nodes, base, &mut out, entries.as_slice(), root)?;
    Ok(out.rooted(all))
}

/// Terms without maps that can hold exactly where these can, with any given values of the variables that aren't maps, and
/// the plan for the way back. Selects are pushed down to the map variables, through stores and ifs; a variable stands for
/// each entry of a map variable that a select asks for, and entries of one map at equal indexes are equal. Variables that
/// aren't maps keep their numbers. The result has at most 1024 n^3 nodes for n, no two of which are equal.
///
/// `AllocError` comes where memory runs out, or where the numbers of variables do.
pub fn reduce(alloc: Global, terms: &Terms) -> Result<(Reduced, Plan), AllocError>
    ensures holds { IfOk result (λ r. KeepsHolding terms.now r.0) }
    ensures can { IfOk result (λ r. CanHold r.0 ↔ CanHold terms.now) }
    ensures scalars { IfOk result (λ r. KeepsScalars terms.now.nodes r.0.nodes) }
    ensures shares { IfOk result (λ r. AllDiffer r.0.nodes) }
    ensures count { IfOk result (λ r. length r.0.nodes ≤ 1024 * length terms.now.nodes ^ 3) }
    ensures plan { IfOk result (λ r. r.1 ≡ record { source = terms.now; reduced = r.0 }) }
{
    let mut entries = Entries::new(alloc);
    let out = reduced_terms(alloc, terms, &mut entries)?;
    let source = terms.copy(alloc)?;
    let reduced = out.copy(alloc)?;
    let plan = Plan {
        source,
        reduced,
        entries: entries.into_items(),
    };
    Ok((Reduced::new(out), plan))
}
