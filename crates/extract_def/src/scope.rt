//! The scopes of a source procedure, each of which becomes a flat procedure: the whole procedure, and
//! each loop whose head is reached.

/// The whole procedure, or a loop of it.
#[derive(Clone, Copy, Debug, PartialEq, Eq)]
pub enum Scope {
    /// The whole procedure.
    Whole,
    /// A loop. It holds the blocks numbered from its head on, below its exit.
    In {
        /// The number of its head, from 0.
        head: u32,
        /// The number of the block behind the loop.
        exit: u32,
    },
}
