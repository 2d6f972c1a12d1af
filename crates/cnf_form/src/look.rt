//! What a clause says where some literals are false.
ghost use Rattle.std.specs.Prelude.{◌≡◌, ℕ, List};
ghost use Rattle.cnf_form.specs.Literal.{is_among, look};

use crate::clause::Clause;
use crate::lit::Lit;

/// What a clause says where some literals are false.
#[derive(Clone, Copy, Debug, PartialEq, Eq)]
pub enum Look {
    /// All its literals are false.
    Falsified,
    /// Exactly this literal isn't false, and its negation isn't either.
    Unit(Lit),
    /// One of its literals is true, or two are free.
    Other,
}

/// A value that knows which literals are false.
pub trait FalseLiterals {
    ghost falses: { Self → List ℕ };

    /// Whether the literal is false.
    fn is_false(&self, lit: Lit) -> bool
        ensures { result ≡ is_among (falses self.now) lit };
}

/// What the clause says where these literals are false. Linear in the clause.
pub fn look_at<F: FalseLiterals>(falses: &F, clause: &Clause) -> Look
    ensures { result ≡ look (F.falses falses.now) clause.now }
{
    let literals = clause.as_slice();
    let mut first: Option<Lit> = None;
    for lit in literals {
        if !falses.is_false(*lit) {
            match first {
                None => first = Some(*lit),
                Some(l) => {
                    if l != *lit {
                        return Look::Other;
                    }
                }
            }
        }
    }
    match first {
        None => Look::Falsified,
        Some(l) => {
            if falses.is_false(l.negated()) {
                Look::Other
            } else {
                Look::Unit(l)
            }
        }
    }
}
