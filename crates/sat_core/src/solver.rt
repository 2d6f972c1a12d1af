//! The solver: turns of the search until it ends.
ghost use Rattle.std.specs.Prelude.{◌≡◌, ℕ, List, [], IfOk, IsTrue, true};
ghost use Rattle.cnf_form.specs.Literal.{clauses_in_range};
ghost use Rattle.sat_core.specs.Answer.{IsAnswer, IsExtended};

use crate::outcome::Answer;
use crate::search::{Search, Turn};
use cnf_form::{ClauseStore, Log};
use std::alloc::{AllocError, Global};

/// Searches to the end.
fn run<S: ClauseStore>(alloc: Global, variables: usize, store: &mut S) -> Result<Answer, AllocError>
    requires unassigned { S.assigned store.old ≡ [] }
    requires in_range { clauses_in_range variables (S.clauses store.old) ≡ true }
    ensures answer { IfOk result (IsAnswer variables (S.clauses store.old)) }
    ensures extended { IsExtended (S.clauses store.old) (S.clauses store.new) }
    ensures range { clauses_in_range variables (S.clauses store.new) ≡ true }
{
    let mut search = Search::new(alloc, variables)?;
    'search: loop {
        match search.turn(alloc, store)? {
            Turn::Onward => continue,
            Turn::Satisfied => {
                let values = search.values(alloc)?;
                return Ok(Answer::Sat(values));
            }
            Turn::Refuted(line) => {
                let mut lines = search.into_lines();
                lines.push(line)?;
                return Ok(Answer::Unsat(Log { lines }));
            }
        }
    }
}

/// Decides whether some truth values of the variables from 0 up to `variables`, which is not among
/// them, make every clause of the store true: by conflict-driven clause learning.
///
/// It propagates to the end before it decides, decides the free variable of the greatest activity,
/// the least among equals, false first, learns at the first unique implication point, and goes
/// back to the second highest level of the learnt line. A variable becomes more active when it
/// takes part in a conflict, that is, in a clause of the learnt line's hints, and the later the
/// conflict, the more. It deletes no clause and never restarts.
///
/// `Sat` has one truth value per variable, and `Unsat` a log that refutes the clauses that the
/// store had. `NoMemory` comes where an allocation fails, also in the store, and where there are
/// 2^63 variables or more. In any case the store has its clauses as before and then those of
/// learnt lines, each of which follows from the ones before and adds to what unit propagation
/// gives; the assigned literals are those of the search's end.
pub fn solve<S: ClauseStore>(alloc: Global, variables: usize, store: &mut S) -> Answer
    requires unassigned { S.assigned store.old ≡ [] }
    requires in_range { IsTrue (clauses_in_range variables (S.clauses store.old)) }
    ensures answer { IsAnswer variables (S.clauses store.old) result }
    ensures extended { IsExtended (S.clauses store.old) (S.clauses store.new) }
    ensures range { IsTrue (clauses_in_range variables (S.clauses store.new)) }
{
    match run(alloc, variables, store) {
        Ok(answer) => answer,
        Err(_) => Answer::NoMemory,
    }
}
