//! What a book says of its task.

/// The verdict of a book.
#[derive(Clone, Copy, PartialEq, Eq, Debug)]
pub enum Verdict2 {
    /// Some run fails. This leaf was the first that was found, in the order of the journal.
    Bug {
        /// Its number.
        node: usize,
    },
    /// No run fails: all leaves are closed.
    Safe,
    /// Nothing was found, and some leaf is live.
    Unfinished,
}
