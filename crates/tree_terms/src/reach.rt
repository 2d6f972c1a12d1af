//! A bool for each node of a tree of calls that says that the run comes there.
ghost use Rattle.std.specs.Prelude.{◌≡◌, ◌<◌, length, slice_index, IfOk, IsSome};
ghost use Rattle.hy_term.specs.TermSorts.{sorts};
ghost use Rattle.tree_terms.specs.Rules.{IsBit, IsFalse, bit};
ghost use Rattle.tree_terms.specs.Reach.{IsAlways, ReachTo, SitesFit, reach_by};

use crate::linked::{Linked, parent, site_node};
use crate::rules::choice;
use crate::shared::SharedTerms;
use crate::table::Table;
use sqlite_items::Items;
use std::alloc::{AllocError, Global};

// The number at an index.
fn number_at(list: &[usize], index: usize) -> usize
    requires { index < length list.now }
    ensures { result ≡ slice_index list.now index }
{
    list[index]
}

// The bool of the next node.
fn reach_term(
    q: &Linked,
    places: &Table,
    terms: &mut SharedTerms,
    always: usize,
    never: usize,
    reach: &[usize],
) -> Result<usize, AllocError>
    requires sorted { IsSome (sorts terms.old.nodes) }
    requires always { IsAlways terms.old.nodes always }
    requires never { IsFalse terms.old.nodes never }
    requires sites { SitesFit q.now terms.old.nodes places.now }
    requires reach { ReachTo q.now places.now terms.old.nodes terms.old.nodes reach.now (length reach.now) }
    requires within { length reach.now < length q.now.tree }
    ensures { IfOk result (IsBit terms.old.nodes terms.new.nodes (λ a. reach_by q.now places.now reach.now (bit a terms.old.nodes) (length reach.now))) }
{
    let node = reach.len();
    if node == 0 {
        return Ok(always);
    }
    let up = parent(q, node);
    let site = places.at(up, site_node(q, node));
    let caller = number_at(reach, up);
    let place = choice(terms, caller, site, never)?;
    Ok(place)
}

/// For each node of the tree the number of a bool that says that it is reached: the root always, another node where its
/// caller is and the site that it is called at is passed. `places` are where the copies of the formulas are, `always` and
/// `never` the numbers of bools that are true and false under every assignment. `AllocError` comes where memory runs out.
pub fn reaches(
    alloc: Global,
    q: &Linked,
    places: &Table,
    terms: &mut SharedTerms,
    always: usize,
    never: usize,
) -> Result<Items<usize>, AllocError>
    requires sorted { IsSome (sorts terms.old.nodes) }
    requires always { IsAlways terms.old.nodes always }
    requires never { IsFalse terms.old.nodes never }
    requires sites { SitesFit q.now terms.old.nodes places.now }
    ensures { IfOk result (λ reach. ReachTo q.now places.now terms.old.nodes terms.new.nodes reach (length q.now.tree)) }
{
    let mut reach: Vec<usize> = Vec::new(alloc);
    for _ in 0..q.tree.len() {
        let place = reach_term(q, places, terms, always, never, reach.as_slice())?;
        reach.push(place)?;
    }
    Ok(Items::from_vec(reach))
}
