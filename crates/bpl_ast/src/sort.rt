//! Sorts.

use crate::name::Name;
use sqlite_items::{Boxed, Items};

/// A sort.
#[derive(Debug, Drop)]
pub enum Sort {
    /// `bool`
    Boolean {
        /// The offset of the word.
        at: usize,
    },
    /// `bvN`
    Bits {
        /// The offset of the word.
        at: usize,
        /// N, from 1 to 64.
        width: u32,
        /// The word as it is spelt, since N may have leading zeros.
        text: Items<u8>,
    },
    /// The name of a type.
    Named {
        /// The name.
        name: Name,
    },
    /// `[index] elem`
    Map {
        /// The offset of the bracket.
        at: usize,
        /// The sort of the indexes.
        index: Boxed<Sort>,
        /// The sort of the elements.
        elem: Boxed<Sort>,
    },
}
