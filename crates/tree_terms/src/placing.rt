//! Copies of nodes of terms behind other terms: a node over the copies of its children, and the term that stands for it.

ghost use Rattle.std.specs.Prelude.{◌≡◌, ◌<◌, length, slice_index, IfOk, IsTrue, IsSome};
ghost use Rattle.hy_term.specs.TermSorts.{fits_behind, sorts};
ghost use Rattle.tree_terms.specs.Copies.{IsPlaced, children_below, renamed};

use crate::folding::{Folded, fold_node};
use crate::shared::SharedTerms;
use hy_term::TermNode;
use std::alloc::AllocError;

/// The node with the numbers at `places` in place of those of its children, which have to be below the length of `places`.
/// A variable or a literal stays as it is.
pub fn renamed(node: &TermNode, places: &[usize]) -> TermNode
    requires { IsTrue (children_below (length places.now) node.now) }
    ensures { result ≡ renamed (slice_index places.now) node.now }
{
    match *node {
        TermNode::Lit(atom) => TermNode::Lit(atom),
        TermNode::ZeroMap { index, elem } => TermNode::ZeroMap { index, elem },
        TermNode::Variable { number, sort } => TermNode::Variable { number, sort },
        TermNode::Unary { op, child } => TermNode::Unary {
            op,
            child: places[child],
        },
        TermNode::Binary { op, left, right } => TermNode::Binary {
            op,
            left: places[left],
            right: places[right],
        },
        TermNode::If { cond, yes, no } => TermNode::If {
            cond: places[cond],
            yes: places[yes],
            no: places[no],
        },
        TermNode::Select { map, index } => TermNode::Select {
            map: places[map],
            index: places[index],
        },
        TermNode::Store { map, index, value } => TermNode::Store {
            map: places[map],
            index: places[index],
            value: places[value],
        },
    }
}

/// The number of a term with the sort and, under every assignment that fits, the value of a node that may stand behind the
/// others: its children are among them and their sorts fit. The terms grow by what is needed; no variable is new but the
/// node's own. `AllocError` comes where memory runs out.
pub fn placed(terms: &mut SharedTerms, node: TermNode) -> Result<usize, AllocError>
    requires fits { IsTrue (fits_behind terms.old.nodes node) }
    requires sorted { IsSome (sorts terms.old.nodes) }
    ensures { IfOk result (IsPlaced terms.old.nodes terms.new.nodes node) }
{
    match fold_node(terms.terms(), node) {
        Folded::Known(number) => Ok(number),
        Folded::Node(other) => {
            let number = terms.add(other)?;
            Ok(number)
        }
    }
}
