//! Expressions in the making, whose sorts are known as far as they go.
ghost use Rattle.std.specs.Prelude.{◌≡◌, ◌+◌, ◌<◌, [], ◌∷◌, ◌++◌, length, take, IfOk, OnOk, OnErr, IsSome};
ghost use Rattle.hy_val.specs.Building.{sort_at, whole_sort, sort_next, Added, Tried};

use crate::expr::{Expr, ExprNode};
use crate::node_sort::sort_of_node;
use crate::sort::Sort;
use sqlite_items::{Items, at};
use std::alloc::{AllocError, Global};
use std::marker::Model;

/// The nodes of an expression so far, none at first. Children stand before their nodes, and the
/// sorts fit. It keeps the sort of each node, so that a new one is tried in constant time. Contracts
/// see the list of nodes.
#[derive(Drop)]
pub struct ExprBuilder {
    nodes: Vec<ExprNode>,
    sorts: Vec<Sort>,
}

impl Model for ExprBuilder {
    ghost use Rattle.std.specs.Prelude.{◌≡◌, List, Some};
    ghost use Rattle.hy_val.specs.declared.expr.ExprNode.{ExprNode};

    ghost Value = { List ExprNode };

    ghost use Rattle.hy_val.specs.Building.{sorts_of};

    ghost view = { λ b. b.nodes.items };

    ghost invariant = { λ b. sorts_of b.nodes.items ≡ Some b.sorts.items };
}

// Appends to both lists, or, after want of memory, to none.
fn push_both(
    nodes: &mut Vec<ExprNode>,
    sorts: &mut Vec<Sort>,
    node: ExprNode,
    sort: Sort,
) -> Result<(), AllocError>
    ensures nodes_ok { OnOk result (nodes.new.items ≡ nodes.old.items ++ node ∷ []) }
    ensures sorts_ok { OnOk result (sorts.new.items ≡ sorts.old.items ++ sort ∷ []) }
    ensures nodes_err { OnErr result (nodes.new.items ≡ nodes.old.items) }
    ensures sorts_err { OnErr result (sorts.new.items ≡ sorts.old.items) }
{
    let count = sorts.len();
    sorts.push(sort)?;
    match nodes.push(node) {
        Ok(()) => Ok(()),
        Err(_) => {
            sorts.truncate(count);
            Err(AllocError)
        }
    }
}

impl ExprBuilder {
    /// No nodes.
    pub fn new(alloc: Global) -> ExprBuilder
        ensures { result ≡ [] }
    {
        ExprBuilder {
            nodes: Vec::new(alloc),
            sorts: Vec::new(alloc),
        }
    }

    /// How many nodes there are, which is the number of the next.
    pub fn len(&self) -> usize
        ensures { result ≡ length self.now }
    {
        self.nodes.len()
    }

    /// The sort of a node; None where there is no node of the number.
    pub fn sort(&self, number: usize) -> Option<Sort>
        ensures { result ≡ sort_at self.now number }
    {
        at(self.sorts.as_slice(), number).copied()
    }

    /// The sort that a node has behind those that are there; None where a child isn't there, or the
    /// sorts don't fit.
    pub fn sort_of(&self, node: &ExprNode) -> Option<Sort>
        ensures { result ≡ sort_next self.now node.now }
    {
        sort_of_node(self.sorts.as_slice(), node)
    }

    /// Adds a node where it fits behind the others, and answers its number. It is None where a child
    /// isn't there or the sorts don't fit; then nothing has changed, nor has it after want of memory.
    pub fn try_add(&mut self, node: ExprNode) -> Result<Option<usize>, AllocError>
        ensures ok { IfOk result (λ number. Tried self.old node self.new number) }
        ensures err { OnErr result (self.new ≡ self.old) }
    {
        let number = self.nodes.len();
        match sort_of_node(self.sorts.as_slice(), &node) {
            Some(sort) => {
                push_both(&mut self.nodes, &mut self.sorts, node, sort)?;
                Ok(Some(number))
            }
            None => Ok(None),
        }
    }

    /// Adds a node, which fits behind the others, and answers its number. Nothing has changed after
    /// want of memory.
    pub fn add(&mut self, node: ExprNode) -> Result<usize, AllocError>
        requires { IsSome (sort_next self.old node) }
        ensures ok { IfOk result (λ number. Added self.old node self.new number) }
        ensures err { OnErr result (self.new ≡ self.old) }
    {
        match self.try_add(node)? {
            Some(number) => Ok(number),
            None => unreachable!(),
        }
    }

    /// The expression whose whole is the node of this number; the nodes above it are dropped.
    pub fn finish(self, root: usize) -> Expr
        requires { root < length self }
        ensures nodes { result ≡ take (root + 1) self }
        ensures sort { whole_sort result ≡ sort_at self root }
    {
        let ExprBuilder {
            mut nodes,
            sorts: _,
        } = self;
        nodes.truncate(root + 1);
        Expr::new(Items::from_vec(nodes))
    }
}
