//! The edges of a source procedure: from a place in the goto list of a block, or from its Return, to
//! where the run goes on.

/// Where an edge leads.
#[derive(Clone, Copy, Debug, PartialEq, Eq)]
pub enum Dest {
    /// Back to the caller: the edge is a Return.
    Back,
    /// To the block of this number in the source procedure, from 0.
    At(u32),
}

/// An edge of a source procedure.
#[derive(Clone, Copy, Debug, PartialEq, Eq)]
pub struct Edge {
    /// The number of the block from which it comes, from 0.
    pub block: u32,
    /// Its place in the goto list of that block, from 0; a Return has place 0.
    pub place: u32,
    /// Where it leads.
    pub dest: Dest,
}
