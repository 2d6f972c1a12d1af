//! Terms, and how they grow.
ghost use Rattle.std.specs.Prelude.{◌≡◌, ◌<◌, [], ◌∷◌, ◌++◌, length, slice_get, Some, true, IfOk, IfSome, OnOk, OnErr, IsTrue};
ghost use Rattle.hy_val.specs.declared.atom.AtomKind.TheVariants.{Bool as BoolAtom};
ghost use Rattle.hy_term.specs.TermSorts.{fits_behind, is_bool, is_formula, sort_at, sorts};
ghost use Rattle.hy_term.specs.Variables.{below};

use crate::node::TermNode;
use crate::sorts::{at, sort_of_node};
use hy_val::{Atom, Sort};
use sqlite_items::Items;
use std::alloc::{AllocError, Global};
use std::marker::Model;

/// Terms: nodes whose children stand before them and whose sorts fit, and one of them, the root, which is a bool. Nodes
/// with the same variable number have the same sort. Contracts see a `Formula`, the record of the nodes and the root.
#[derive(Drop)]
pub struct Terms {
    nodes: Items<TermNode>,
    sorts: Items<Sort>,
    root: usize,
}

impl Model for Terms {
    ghost use Rattle.hy_term.specs.Formula.{Formula};
    ghost use Rattle.hy_term.specs.TermSorts.{Sorted};

    ghost Value = { Formula };

    ghost view = { λ t. record { nodes = t.nodes; root = t.root } };

    ghost invariant = { λ t. Sorted (record { nodes = t.nodes; root = t.root }) t.sorts };
}

impl Terms {
    /// Terms of one node, the literal true, which is the root.
    pub fn new(alloc: Global) -> Result<Terms, AllocError>
        ensures nodes { IfOk result (λ t. t.nodes ≡ TermNode.Lit (BoolAtom true) ∷ []) }
        ensures root { IfOk result (λ t. t.root ≡ 0) }
    {
        let mut nodes = Items::new(alloc);
        nodes.push(TermNode::Lit(Atom::bool(true)))?;
        let mut sorts = Items::new(alloc);
        sorts.push(Sort::scalar(Atom::bool(true).sort()))?;
        Ok(Terms {
            nodes,
            sorts,
            root: 0,
        })
    }

    /// The nodes. Children stand before their nodes, the sorts fit, and the root is a bool.
    pub fn nodes(&self) -> &[TermNode]
        ensures value { result.now ≡ self.now.nodes }
        ensures kept { IsTrue (is_formula self.now) }
    {
        self.nodes.as_slice()
    }

    /// The number of the node that the terms are about, a bool.
    pub fn root(&self) -> usize
        ensures value { result ≡ self.now.root }
        ensures within { result < length self.now.nodes }
    {
        self.root
    }

    /// The sort of a node.
    pub fn sort_of(&self, node: usize) -> Sort
        requires { node < length self.now.nodes }
        ensures { sort_at self.now.nodes node ≡ Some result }
    {
        match at(self.sorts.as_slice(), node) {
            Some(sort) => sort,
            None => unreachable!(),
        }
    }

    /// The sorts of the nodes.
    pub(crate) fn sorts(&self) -> &[Sort]
        ensures { sorts self.now.nodes ≡ Some result.now }
    {
        self.sorts.as_slice()
    }

    /// Puts a node behind the others, and answers its number. Its children have to be nodes, their sorts have to fit,
    /// and a variable needs the sort that nodes with its number have. The root stays.
    ///
    /// `AllocError` comes where memory runs out, and the terms are then as before.
    pub fn add(&mut self, node: TermNode) -> Result<usize, AllocError>
        requires { IsTrue (fits_behind self.old.nodes node) }
        ensures number { IfOk result (λ t. t ≡ length self.old.nodes) }
        ensures added { OnOk result (self.new.nodes ≡ self.old.nodes ++ node ∷ []) }
        ensures root { self.new.root ≡ self.old.root }
        ensures err { OnErr result (self.new.nodes ≡ self.old.nodes) }
    {
        let number = self.nodes.len();
        let sort = match sort_of_node(self.sorts.as_slice(), &node) {
            Some(sort) => sort,
            None => unreachable!(),
        };
        self.sorts.push(sort)?;
        match self.nodes.push(node) {
            Ok(()) => Ok(number),
            Err(error) => {
                self.sorts.pop();
                Err(error)
            }
        }
    }

    /// Makes another node, a bool, the root.
    pub fn set_root(&mut self, root: usize)
        requires { IsTrue (is_bool (sort_at self.old.nodes root)) }
        ensures root { self.new.root ≡ root }
        ensures nodes { self.new.nodes ≡ self.old.nodes }
    {
        self.root = root;
    }

    /// A number above those of all variables. There is none where a variable has the highest number.
    pub fn fresh(&self) -> Option<usize>
        ensures above { IfSome result (λ n. IsTrue (below n self.now.nodes)) }
    {
        let mut next: usize = 0;
        for node in self.nodes.as_slice() {
            if let TermNode::Variable { number, sort: _ } = *node {
                if number == usize::MAX {
                    return None;
                }
                if next <= number {
                    next = number + 1;
                }
            }
        }
        Some(next)
    }

    /// Equal terms.
    pub fn copy(&self, alloc: Global) -> Result<Terms, AllocError>
        ensures { IfOk result (λ t. t ≡ self.now) }
    {
        let nodes = Items::from_slice(alloc, self.nodes.as_slice())?;
        let sorts = Items::from_slice(alloc, self.sorts.as_slice())?;
        Ok(Terms {
            nodes,
            sorts,
            root: self.root,
        })
    }
}
