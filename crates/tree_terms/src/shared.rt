//! Terms in the making that find an equal node by its hash, so that a node that stands among them isn't put there again.
ghost use Rattle.std.specs.Prelude.{◌≡◌, ◌<◌, [], ◌∷◌, ◌++◌, length, Some, if◌then◌else◌, IfOk, OnOk, OnErr, IsTrue};
ghost use Rattle.indexmap.specs.IndexMap.{get, spare};
ghost use Rattle.hy_term.specs.TermSorts.{fits_behind, is_formula};
ghost use Rattle.hy_term.specs.declared.node.TermNode.{TermNode as Node};
ghost use Rattle.tree_terms.specs.Copies.{IsPlaced};
ghost use Rattle.tree_terms.specs.Shared.{same_node};

use hy_term::{TermNode, Terms};
use indexmap::IndexMap;
use std::alloc::{AllocError, Global};
use std::marker::Model;

/// Terms with the numbers of their nodes by the nodes' hashes. Contracts see a `Formula`, as of `Terms`.
#[derive(Drop)]
pub struct SharedTerms {
    terms: Terms,
    numbers: IndexMap<TermNode, usize>,
}

impl Model for SharedTerms {
    ghost use Rattle.hy_term.specs.Formula.{Formula};
    ghost use Rattle.indexmap.specs.IndexMap.{get};
    ghost use Rattle.tree_terms.specs.Shared.{AreFound, same_node};

    ghost Value = { Formula };

    ghost view = { λ s. s.terms };

    ghost invariant = { λ s. AreFound s.terms.nodes (get same_node s.numbers) };
}

// Notes the number of a node. There has to be room.
fn note(numbers: &mut IndexMap<TermNode, usize>, node: &TermNode, number: usize)
    requires { 0 < spare numbers.old }
    ensures { (q : Node) → get same_node numbers.new q ≡ (if same_node node.now q then Some number else get same_node numbers.old q) }
{
    let result = numbers.insert(*node, number);
    if result.is_err() {
        unreachable!()
    }
}

impl SharedTerms {
    /// These terms, whose nodes are found from now on. `AllocError` comes where memory runs out.
    pub fn new(alloc: Global, terms: Terms) -> Result<SharedTerms, AllocError>
        ensures { IfOk result (λ t. t ≡ terms) }
    {
        let mut numbers = IndexMap::new(alloc);
        for number in 0..terms.nodes().len() {
            numbers.insert(terms.nodes()[number], number)?;
        }
        Ok(SharedTerms { terms, numbers })
    }

    /// The terms so far.
    pub fn terms(&self) -> &Terms
        ensures { result.now ≡ self.now }
    {
        &self.terms
    }

    /// The nodes of the terms so far. Children stand before their nodes, and the sorts fit.
    pub fn nodes(&self) -> &[TermNode]
        ensures value { result.now ≡ self.now.nodes }
        ensures kept { IsTrue (is_formula self.now) }
    {
        self.terms.nodes()
    }

    /// The terms, without what finds their nodes.
    pub fn into_terms(self) -> Terms
        ensures { result ≡ self }
    {
        let SharedTerms { terms, numbers: _ } = self;
        terms
    }

    /// Puts a node behind the others, whether or not an equal one stands among them, and answers its number. Its children
    /// have to be nodes, their sorts have to fit, and a variable needs the sort that nodes with its number have. The root
    /// stays. `AllocError` comes where memory runs out, and the terms are then as before.
    pub fn push(&mut self, node: TermNode) -> Result<usize, AllocError>
        requires { IsTrue (fits_behind self.old.nodes node) }
        ensures number { IfOk result (λ t. t ≡ length self.old.nodes) }
        ensures pushed { OnOk result (self.new.nodes ≡ self.old.nodes ++ node ∷ []) }
        ensures root { self.new.root ≡ self.old.root }
        ensures err { OnErr result (self.new.nodes ≡ self.old.nodes) }
    {
        self.numbers.reserve(1)?;
        let number = self.terms.add(node)?;
        note(&mut self.numbers, &node, number);
        Ok(number)
    }

    /// The number of a node. It is put behind the others where no equal one is found among them, as by `push`.
    /// `AllocError` comes where memory runs out, and the terms are then as before.
    pub fn add(&mut self, node: TermNode) -> Result<usize, AllocError>
        requires { IsTrue (fits_behind self.old.nodes node) }
        ensures node { IfOk result (IsPlaced self.old.nodes self.new.nodes node) }
        ensures root { self.new.root ≡ self.old.root }
        ensures err { OnErr result (self.new.nodes ≡ self.old.nodes) }
    {
        let _nodes = self.nodes();
        match self.numbers.get(&node).copied() {
            Some(number) => Ok(number),
            None => {
                let number = self.push(node)?;
                Ok(number)
            }
        }
    }
}
