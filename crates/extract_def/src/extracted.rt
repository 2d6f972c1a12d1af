//! A flat program together with what its blocks come from.

use crate::origin::Origin;
use flat_prog::Flat;
use sqlite_items::Items;

/// A flat program, and what its blocks come from.
#[derive(Drop)]
pub struct Extracted {
    /// The flat program. The source procedures keep their numbers; those of the loops follow, by the
    /// number of their source procedure and then by head.
    pub flat: Flat,
    /// For each of its procedures, in order, what each of its blocks comes from, in order.
    pub origins: Items<Items<Origin>>,
}
