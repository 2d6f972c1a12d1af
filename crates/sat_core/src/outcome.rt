//! What a solver answers.
use cnf_form::Log;

/// What a solver answers.
#[derive(Drop)]
pub enum Answer {
    /// One truth value per variable, which together make every clause true.
    Sat(Vec<bool>),
    /// A log that refutes the clauses. Its last line is its only empty one, and each other line
    /// adds to what unit propagation gives.
    Unsat(Log),
    /// There was no memory for an answer.
    NoMemory,
}
