//! Terms in which no two nodes are equal: a node that stands among them isn't put there again.
ghost use Rattle.std.specs.Prelude.{◌≡◌, ◌≤◌, ◌+◌, [], ◌∷◌, length, true, IfOk, OnOk, OnErr, IsTrue};
ghost use Rattle.hy_val.specs.declared.atom.AtomKind.TheVariants.{Bool as BoolAtom};
ghost use Rattle.hy_term.specs.TermSorts.{fits_behind, is_bool, sort_at};
ghost use Rattle.map_axioms.specs.Reduction.{AllDiffer};
ghost use Rattle.map_axioms.specs.Shared.{Shared};

use hy_term::{TermNode, Terms};
use hy_val::Atom;
use indexmap::IndexMap;
use std::alloc::{AllocError, Global};
use std::marker::Model;

/// Terms without equal nodes, with the number of each node by its hash. Contracts see a `Formula`, as of `Terms`.
#[derive(Drop)]
pub(crate) struct SharedTerms {
    terms: Terms,
    numbers: IndexMap<TermNode, usize>,
}

impl Model for SharedTerms {
    ghost use Rattle.hy_term.specs.Formula.{Formula};
    ghost use Rattle.indexmap.specs.IndexMap.{get};
    ghost use Rattle.map_axioms.specs.Shared.{IsIndex, same_node};

    ghost Value = { Formula };

    ghost view = { λ s. s.terms };

    ghost invariant = { λ s. IsIndex s.terms.nodes (get same_node s.numbers) };
}

impl SharedTerms {
    /// Terms of one node, the literal true.
    pub(crate) fn new(alloc: Global) -> Result<SharedTerms, AllocError>
        ensures { IfOk result (λ s. s.nodes ≡ TermNode.Lit (BoolAtom true) ∷ []) }
    {
        let terms = Terms::new(alloc)?;
        let mut numbers = IndexMap::new(alloc);
        numbers.insert(TermNode::Lit(Atom::bool(true)), 0)?;
        Ok(SharedTerms { terms, numbers })
    }

    /// The number of a node. It is put behind the others where no equal one stands among them. Its children have to be
    /// nodes, their sorts have to fit, and a variable needs the sort that nodes with its number have. The root stays.
    ///
    /// `AllocError` comes where memory runs out, and the terms are then as before.
    pub(crate) fn add(&mut self, node: TermNode) -> Result<usize, AllocError>
        requires { IsTrue (fits_behind self.old.nodes node) }
        ensures node { IfOk result (λ t. Shared self.old.nodes node self.new.nodes t) }
        ensures count { OnOk result (length self.new.nodes ≤ length self.old.nodes + 1) }
        ensures root { self.new.root ≡ self.old.root }
        ensures err { OnErr result (self.new.nodes ≡ self.old.nodes) }
    {
        if let Some(number) = self.numbers.get(&node).copied() {
            return Ok(number);
        }
        let number = self.terms.nodes().len();
        self.numbers.insert(node, number)?;
        match self.terms.add(node) {
            Ok(added) => Ok(added),
            Err(error) => {
                self.numbers.swap_remove(&node);
                Err(error)
            }
        }
    }

    /// The terms, with one of their nodes, a bool, as the root.
    pub(crate) fn rooted(self, root: usize) -> Terms
        requires { IsTrue (is_bool (sort_at self.nodes root)) }
        ensures root { result.root ≡ root }
        ensures nodes { result.nodes ≡ self.nodes }
        ensures shares { AllDiffer result.nodes }
    {
        let SharedTerms { terms, numbers: _ } = self;
        let mut rooted = terms;
        rooted.set_root(root);
        rooted
    }
}
