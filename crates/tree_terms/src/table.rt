//! A list of numbers for each node of a tree: where the nodes of its formula have their copies.
ghost use Rattle.std.specs.Prelude.{◌≡◌, ℕ, [], ◌<◌, length, slice_index, IfOk, OnOk};
ghost use Rattle.tree_terms.specs.Tables.{IsPushed, row};

use sqlite_items::Items;
use std::alloc::{AllocError, Global};
use std::marker::Model;

/// A list of numbers for each node of a tree, both counted from 0. Contracts see the lists.
#[derive(Drop)]
pub struct Table {
    rows: Vec<Items<usize>>,
}

impl Model for Table {
    ghost use Rattle.std.specs.Prelude.{ℕ, List};

    ghost Value = { List (List ℕ) };

    ghost view = { λ t. t.rows.items };
}

impl Table {
    /// So many empty lists. `AllocError` comes where memory runs out.
    pub fn new(alloc: Global, count: usize) -> Result<Table, AllocError>
        ensures count { IfOk result (λ t. length t ≡ count) }
        ensures empty { IfOk result (λ t. (m : ℕ) → row t m ≡ []) }
    {
        let mut rows = Vec::new(alloc);
        for _ in 0..count {
            rows.push(Items::new(alloc))?;
        }
        Ok(Table { rows })
    }

    /// The list of a node, which has to be one of those.
    pub fn row(&self, node: usize) -> &[usize]
        requires { node < length self.now }
        ensures { result.now ≡ row self.now node }
    {
        self.rows[node].as_slice()
    }

    /// A number in the list of a node, by its place there.
    pub fn at(&self, node: usize, index: usize) -> usize
        requires node { node < length self.now }
        requires index { index < length (row self.now node) }
        ensures { result ≡ slice_index (row self.now node) index }
    {
        self.row(node)[index]
    }

    /// Puts a number behind those of a node. The other lists stay. `AllocError` comes where memory runs out.
    pub fn push(&mut self, node: usize, number: usize) -> Result<(), AllocError>
        requires { node < length self.old }
        ensures { OnOk result (IsPushed self.old self.new node number) }
    {
        self.rows[node].push(number)?;
        Ok(())
    }
}
