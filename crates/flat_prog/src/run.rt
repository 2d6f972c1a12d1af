//! Run trees as lists of nodes, named by number: whole ones, and those in which a child may be free.
ghost use Rattle.std.specs.Prelude.{◌≡◌, IsTrue, ◌&&◌, IfOk};
ghost use Rattle.flat_prog.specs.Nodes as spec;

use crate::copying::copy_nodes;
use hy_val::Value;
use sqlite_items::Items;
use std::alloc::{AllocError, Global};
use std::marker::Model;

/// What stands below a call that a run passes.
#[derive(Drop)]
pub enum Child {
    /// The node of this number: a run of the callee.
    Node(usize),
    /// No run: the callee ends with these values, or it fails.
    Free {
        /// Whether it ends.
        ends: bool,
        /// Where it ends, the values of its outs and then of the globals that it may change, these by
        /// their numbers; none where it fails.
        values: Items<Value>,
    },
}

/// A run of one flat procedure.
#[derive(Drop)]
pub struct RunNode {
    /// The number of the flat procedure.
    pub proc: u32,
    /// The numbers of the blocks passed, in order, from block 0 on.
    pub path: Items<u32>,
    /// For each block passed but the last, the place in its goto list of the target taken, from 0.
    pub places: Items<u32>,
    /// The values that the run takes, in order: of the entry's run one for each constant, global and in;
    /// then of a source procedure's run one for each out and other local; then one for each name of each
    /// havoc passed.
    pub values: Items<Value>,
    /// One child for each call passed, in order.
    pub children: Items<Child>,
}

/// A run tree. Node 0 is the root, and a child's number is greater than its node's. No child is free.
/// Contracts see the list of the nodes.
#[derive(Drop)]
pub struct RunTree {
    nodes: Items<RunNode>,
}

impl Model for RunTree {
    ghost use Rattle.std.specs.Prelude.{List, IsTrue, ◌&&◌};
    ghost use Rattle.flat_prog.specs.declared.run.RunNode.{RunNode};

    ghost Value = { List RunNode };

    ghost use Rattle.flat_prog.specs.Nodes.{are_nodes, are_whole_nodes};

    ghost view = { λ t. t.nodes };

    ghost invariant = { λ t. IsTrue (are_nodes t.nodes && are_whole_nodes t.nodes) };
}

impl RunTree {
    /// The run tree of these nodes, which are one.
    pub fn new(nodes: Items<RunNode>) -> RunTree
        requires { IsTrue (spec.are_nodes nodes && spec.are_whole_nodes nodes) }
        ensures { result ≡ nodes }
    {
        RunTree { nodes }
    }

    /// The nodes, in order. Reading them also gives that they are a run tree.
    pub fn nodes(&self) -> &[RunNode]
        ensures value { result.now ≡ self.now }
        ensures kept { IsTrue (spec.are_nodes result.now && spec.are_whole_nodes result.now) }
    {
        self.nodes.as_slice()
    }

    /// An equal run tree.
    pub fn copy(&self, alloc: Global) -> Result<RunTree, AllocError>
        ensures { IfOk result (λ t. t ≡ self.now) }
    {
        let nodes = copy_nodes(alloc, self.nodes.as_slice())?;
        Ok(RunTree { nodes })
    }
}

/// A partial run: a run tree in which a child may be free. Node 0 is the root, and a child's number is
/// greater than its node's. Contracts see the list of the nodes.
#[derive(Drop)]
pub struct PartRun {
    nodes: Items<RunNode>,
}

impl Model for PartRun {
    ghost use Rattle.std.specs.Prelude.{List, IsTrue};
    ghost use Rattle.flat_prog.specs.declared.run.RunNode.{RunNode};

    ghost Value = { List RunNode };

    ghost use Rattle.flat_prog.specs.Nodes.{are_nodes};

    ghost view = { λ t. t.nodes };

    ghost invariant = { λ t. IsTrue (are_nodes t.nodes) };
}

impl PartRun {
    /// The partial run of these nodes, which are one.
    pub fn new(nodes: Items<RunNode>) -> PartRun
        requires { IsTrue (spec.are_nodes nodes) }
        ensures { result ≡ nodes }
    {
        PartRun { nodes }
    }

    /// The nodes, in order. Reading them also gives that they are a partial run.
    pub fn nodes(&self) -> &[RunNode]
        ensures value { result.now ≡ self.now }
        ensures kept { IsTrue (spec.are_nodes result.now) }
    {
        self.nodes.as_slice()
    }

    /// An equal partial run.
    pub fn copy(&self, alloc: Global) -> Result<PartRun, AllocError>
        ensures { IfOk result (λ t. t ≡ self.now) }
    {
        let nodes = copy_nodes(alloc, self.nodes.as_slice())?;
        Ok(PartRun { nodes })
    }

    /// The run tree of a partial run in which no child is free.
    pub fn into_whole(self) -> RunTree
        requires { IsTrue (spec.are_whole_nodes self) }
        ensures { result ≡ self }
    {
        RunTree { nodes: self.nodes }
    }
}
