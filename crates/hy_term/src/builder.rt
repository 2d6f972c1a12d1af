//! Terms in the making, whose sorts are known as far as they go.
ghost use Rattle.std.specs.Prelude.{◌≡◌, [], ◌∷◌, length, true, IfOk, OnErr};
ghost use Rattle.hy_val.specs.declared.atom.AtomKind.TheVariants.{Bool as BoolAtom};
ghost use Rattle.hy_term.specs.TermSorts.{is_bool, sort_at};
ghost use Rattle.hy_term.specs.Tried.{Tried, with_root};

use crate::by_number::{agrees, note};
use crate::node::TermNode;
use crate::sorts::sort_of_node;
use crate::terms::Terms;
use hy_val::{ScalarKind, Sort, SortKind};
use indexmap::IndexMap;
use sqlite_items::at;
use std::alloc::{AllocError, Global};
use std::marker::Model;

/// The nodes of terms so far, the literal true at first. Children stand before their nodes, the sorts fit, and nodes
/// with the same variable number have the same sort. It keeps the sort of each variable by its number, so that a new node
/// is tried in constant time. Contracts see the list of nodes.
#[derive(Drop)]
pub struct TermBuilder {
    terms: Terms,
    by_number: IndexMap<usize, Sort>,
}

impl Model for TermBuilder {
    ghost use Rattle.std.specs.Prelude.{List};
    ghost use Rattle.hy_term.specs.declared.node.TermNode.{TermNode};
    ghost use Rattle.hy_term.specs.Kept.{IsIndexed};

    ghost Value = { List TermNode };

    ghost view = { λ b. b.terms.nodes };

    ghost invariant = { λ b. IsIndexed b.by_number.entries b.terms.nodes };
}

// Whether the sort is there, and that of the bools.
fn is_bool(sort: Option<Sort>) -> bool
    ensures { result ≡ is_bool sort }
{
    match sort {
        None => false,
        Some(sort) => match sort.kind() {
            SortKind::Scalar(scalar) => match scalar.kind() {
                ScalarKind::Bool => true,
                ScalarKind::Bv { width: _ } => false,
            },
            SortKind::Map { index: _, elem: _ } => false,
        },
    }
}

impl TermBuilder {
    /// The literal true alone, which is the node 0.
    pub fn new(alloc: Global) -> Result<TermBuilder, AllocError>
        ensures { IfOk result (λ b. b ≡ TermNode.Lit (BoolAtom true) ∷ []) }
    {
        let terms = Terms::new(alloc)?;
        Ok(TermBuilder {
            terms,
            by_number: IndexMap::new(alloc),
        })
    }

    /// How many nodes there are, which is the number of the next.
    pub fn len(&self) -> usize
        ensures { result ≡ length self.now }
    {
        self.terms.nodes().len()
    }

    /// The sort of a node; None where there is no node of the number.
    pub fn sort(&self, number: usize) -> Option<Sort>
        ensures { result ≡ sort_at self.now number }
    {
        at(self.terms.sorts(), number).copied()
    }

    /// Adds a node where it fits behind the others, and answers its number. It is None where a child isn't there, the
    /// sorts don't fit, or another node gives another sort to the variable; then nothing has changed, nor has it after
    /// want of memory.
    pub fn try_add(&mut self, node: TermNode) -> Result<Option<usize>, AllocError>
        ensures ok { IfOk result (λ number. Tried self.old node self.new number) }
        ensures err { OnErr result (self.new ≡ self.old) }
    {
        if sort_of_node(self.terms.sorts(), &node).is_none() {
            return Ok(None);
        }
        if !agrees(&self.by_number, &node) {
            return Ok(None);
        }
        self.by_number.reserve(1)?;
        let number = self.terms.add(node)?;
        note(&mut self.by_number, &node);
        Ok(Some(number))
    }

    /// The terms whose root is the node of this number; None where there is no such node, or it isn't a bool.
    pub fn finish(self, root: usize) -> Option<Terms>
        ensures { result ≡ with_root self root }
    {
        let TermBuilder {
            mut terms,
            by_number: _,
        } = self;
        if is_bool(at(terms.sorts(), root).copied()) {
            terms.set_root(root);
            Some(terms)
        } else {
            None
        }
    }
}
