//! What is decided of terms.

use cnf_form::Refuted;
use hy_val::Value;
use sqlite_items::Items;

/// What is decided of terms.
#[derive(Drop)]
pub enum Decision {
    /// Values of the variables that stand in the terms, ascending by number, which make the root true.
    Model(Items<Value>),
    /// No values make the root true: the formula could be satisfied exactly where some did, and its log refutes it.
    Refuted(Refuted),
    /// There was no memory for an answer.
    NoMemory,
}
