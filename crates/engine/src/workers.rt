//! A worker of a search.

/// A worker. The book's journal names it by its number.
#[derive(Clone, Copy, PartialEq, Eq, Debug)]
pub struct Worker {
    /// Its number, from 0.
    pub number: u32,
}
