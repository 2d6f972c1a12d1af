//! What the blocks of flat procedures come from: by it a run tree is read back as a run of the source.

/// What a block of a flat procedure comes from. Numbers of blocks are those of the source procedure,
/// from 0; exits of a loop are numbered from 0, by the block and place of their edges.
#[derive(Clone, Copy, Debug, PartialEq, Eq)]
pub enum Origin {
    /// A block of the source procedure.
    Block(u32),
    /// The head of a loop directly inside: the call of the loop's procedure.
    Enter {
        /// The number of the head.
        head: u32,
    },
    /// What follows an exit of a loop directly inside.
    Pass {
        /// The number of the loop's head.
        head: u32,
        /// The number of the exit, 0 where the loop has none.
        exit: u32,
    },
    /// An exit of the procedure's own loop.
    Leave {
        /// The number of the exit.
        exit: u32,
    },
    /// A further turn of the procedure's own loop.
    Again {
        /// The number of its head.
        head: u32,
    },
}
