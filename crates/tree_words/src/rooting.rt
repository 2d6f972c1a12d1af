//! The root of a question. `AllocError` comes where memory runs out; the terms have then grown.
ghost use Rattle.std.specs.Prelude.{◌≡◌, length, IfOk, IsSome};
ghost use Rattle.hy_term.specs.TermSorts.{sorts};
ghost use Rattle.tree_terms.specs.Rules.{IsBit, IsBool, IsFalse};
ghost use Rattle.tree_terms.specs.Reach.{IsAlways};
ghost use Rattle.tree_words.specs.Asking.{may_by, rules_of};
ghost use Rattle.tree_words.specs.Rooted.{AreReady, IsRoot};

use crate::lists::number_at;
use crate::ruling::{fails_node, rules_of};
use call_tree::Decision2;
use hy_term::TermNode;
use hy_val::Atom;
use sqlite_items::Items;
use std::alloc::{AllocError, Global};
use tree_terms::{Linked, SharedTerms, Table, choice, placed, ruled};

/// The number of a bool that is true where the entry's run fails, the constants are as the program says (`axioms`), and all rules of
/// the question hold (`rules_of`, whose arguments these are). `AllocError` comes where memory runs out; the terms have then grown.
pub fn root_of(
    alloc: Global,
    terms: &mut SharedTerms,
    q: &Linked,
    places: &Table,
    reach: &[usize],
    may: &[Items<bool>],
    always: usize,
    never: usize,
    axioms: usize,
    piece: &[(usize, Decision2)],
) -> Result<usize, AllocError>
    requires sorted { IsSome (sorts terms.old.nodes) }
    requires ready { AreReady q.now terms.old.nodes places.now reach.now piece.now }
    requires always { IsAlways terms.old.nodes always }
    requires never { IsFalse terms.old.nodes never }
    requires axioms { IsBool terms.old.nodes axioms }
    ensures { IfOk result (IsRoot q.now places.now axioms terms.old.nodes (rules_of q.now places.now reach.now (may_by may.now) always never piece.now) terms.new.nodes) }
{
    let rules = rules_of(alloc, q, places, reach, may, always, never, piece)?;
    let fails = number_at(places.row(0), fails_node(q, 0));
    let start = choice(terms, fails, axioms, never)?;
    let root = ruled(terms, never, start, rules.as_slice())?;
    Ok(root)
}

/// The number of a bool that is this under every assignment. `AllocError` comes where memory runs out.
pub fn literal(terms: &mut SharedTerms, value: bool) -> Result<usize, AllocError>
    requires { IsSome (sorts terms.old.nodes) }
    ensures { IfOk result (IsBit terms.old.nodes terms.new.nodes (λ a. value)) }
{
    let place = placed(terms, TermNode::Lit(Atom::bool(value)))?;
    Ok(place)
}
