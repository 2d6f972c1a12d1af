//! How to get back from the values of the reduced terms.

use crate::entry::Entry;
use hy_term::Terms;
use sqlite_items::Items;
use std::marker::Model;

/// What terms were reduced to, and for which entries of their maps variables stand. Contracts see a `Reduction`, the
/// record of the source and of the reduced terms.
#[derive(Drop)]
pub struct Plan {
    pub(crate) source: Terms,
    pub(crate) reduced: Terms,
    pub(crate) entries: Items<Entry>,
}

impl Model for Plan {
    ghost use Rattle.map_axioms.specs.Reduction.{Reduction};
    ghost use Rattle.map_axioms.specs.Steps.{IsPlan};

    ghost Value = { Reduction };

    ghost view = { λ p. record { source = p.source; reduced = p.reduced } };

    ghost invariant = { λ p. IsPlan p.source p.reduced p.entries };
}
