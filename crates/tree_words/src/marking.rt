//! Marks: bools that say of pairs of bools that both are true, as of a node that is reached and of something that its run passes.
ghost use Rattle.std.specs.Prelude.{◌≡◌, length, IfOk, IsSome};
ghost use Rattle.hy_term.specs.TermSorts.{sorts};
ghost use Rattle.tree_terms.specs.Rules.{IsFalse};
ghost use Rattle.tree_words.specs.Marking.{MarksTo, PairsFit};

use sqlite_items::Items;
use std::alloc::{AllocError, Global};
use tree_terms::{SharedTerms, choice};

/// For each pair of bools the number of one that is true where both are, in their order. `never` is a bool that is false under every
/// assignment. `AllocError` comes where memory runs out; the terms have then grown.
pub fn marks(
    alloc: Global,
    terms: &mut SharedTerms,
    never: usize,
    pairs: &[(usize, usize)],
) -> Result<Items<usize>, AllocError>
    requires sorted { IsSome (sorts terms.old.nodes) }
    requires never { IsFalse terms.old.nodes never }
    requires pairs { PairsFit terms.old.nodes pairs.now }
    ensures { IfOk result (λ marks. MarksTo terms.old.nodes terms.new.nodes pairs.now marks (length pairs.now)) }
{
    let mut list: Vec<usize> = Vec::new(alloc);
    for pair in pairs {
        let place = choice(terms, pair.0, pair.1, never)?;
        list.push(place)?;
    }
    Ok(Items::from_vec(list))
}
