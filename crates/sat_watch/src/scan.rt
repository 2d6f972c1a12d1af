//! Literals of a clause that aren't false.
ghost use Rattle.std.specs.Prelude.{◌≡◌, ℕ, ◌<◌, true, false, MatchOption};
ghost use Rattle.cnf_form.specs.Literal.{is_among};
ghost use Rattle.sat_watch.specs.Watching.{is_false, AreFalse, AreFalseBut};

use cnf_form::{Clause, Lit, Trail};

/// The first literal of the clause that isn't false.
pub(crate) fn first_open(trail: &Trail, clause: &Clause) -> Option<Lit>
    ensures { MatchOption result (AreFalse trail.now clause.now) (λ l. (is_among clause.now l ≡ true) × (is_false trail.now l ≡ false)) }
{
    let literals = clause.as_slice();
    for lit in literals {
        if !trail.is_true(lit.negated()) {
            return Some(*lit);
        }
    }
    None
}

/// The first literal of the clause beside this one that isn't false.
pub(crate) fn other_open(trail: &Trail, clause: &Clause, but: Lit) -> Option<Lit>
    ensures { MatchOption result (AreFalseBut trail.now clause.now but) (λ l. (is_among clause.now l ≡ true) × (is_false trail.now l ≡ false) × (l ≡ but → ⊥)) }
{
    let literals = clause.as_slice();
    for lit in literals {
        if *lit != but && !trail.is_true(lit.negated()) {
            return Some(*lit);
        }
    }
    None
}
