//! A question about a chain of stores with as many selects: what it becomes, and what is decided of it.

use bit_blast::blast;
use decide::{Decision, decide};
use gate_net::clauses;
use hy_term::{TermBuilder, TermNode, Terms};
use hy_val::{BvOp, Scalar, Sort, Width};
use map_axioms::reduce;
use std::alloc::{AllocError, Global};

/// How large the question is without maps.
#[derive(Clone, Copy)]
pub struct ReducedSizes {
    /// Its nodes.
    pub nodes: usize,
    /// Those of the reduced terms.
    pub reduced: usize,
}

/// How large the question is as a net.
#[derive(Clone, Copy)]
pub struct NetSizes {
    /// The gates, the two constants among them.
    pub gates: usize,
    /// The clauses of the net.
    pub clauses: usize,
}

/// What a variable of the k-th step is for.
#[derive(Clone, Copy)]
enum Role {
    /// The index that the k-th store writes at.
    StoredAt,
    /// The entry that it writes.
    Stored,
    /// The index that the k-th select reads at.
    ReadAt,
    /// The entry that it finds.
    Read,
}

// The number of a step's variable; the map has 0.
fn number(step: usize, role: Role) -> usize {
    let place = match role {
        Role::StoredAt => 1,
        Role::Stored => 2,
        Role::ReadAt => 3,
        Role::Read => 4,
    };
    step.saturating_mul(4).saturating_add(place)
}

// The question in the making. A node that doesn't fit gets a number that none has, so that nothing fits above it.
#[derive(Drop)]
struct Chain {
    builder: TermBuilder,
}

impl Chain {
    fn add(&mut self, node: TermNode) -> Result<usize, AllocError> {
        let number = self.builder.try_add(node)?;
        Ok(number.unwrap_or(usize::MAX))
    }

    fn byte(&mut self, step: usize, role: Role) -> Result<usize, AllocError> {
        self.add(TermNode::Variable {
            number: number(step, role),
            sort: Sort::scalar(Scalar::bits(Width::new(8))),
        })
    }

    fn binary(&mut self, op: BvOp, left: usize, right: usize) -> Result<usize, AllocError> {
        self.add(TermNode::Binary { op, left, right })
    }

    // The map after so many stores.
    fn stored(&mut self, count: usize) -> Result<usize, AllocError> {
        let byte = Scalar::bits(Width::new(8));
        let mut map = self.add(TermNode::Variable {
            number: 0,
            sort: Sort::map(byte, byte),
        })?;
        for step in 0..count {
            let index = self.byte(step, Role::StoredAt)?;
            let value = self.byte(step, Role::Stored)?;
            map = self.add(TermNode::Store { map, index, value })?;
        }
        Ok(map)
    }

    // That each of so many selects finds its entry.
    fn read(&mut self, map: usize, count: usize) -> Result<usize, AllocError> {
        let mut all = 0;
        for step in 0..count {
            let index = self.byte(step, Role::ReadAt)?;
            let entry = self.add(TermNode::Select { map, index })?;
            let found = self.byte(step, Role::Read)?;
            let same = self.binary(BvOp::Eq, entry, found)?;
            all = self.binary(BvOp::And, all, same)?;
        }
        Ok(all)
    }
}

// After so many stores as many selects find their entries, and the first two entries differ.
fn question(alloc: Global, count: usize) -> Result<Terms, AllocError> {
    let mut chain = Chain {
        builder: TermBuilder::new(alloc)?,
    };
    let map = chain.stored(count)?;
    let all = chain.read(map, count)?;
    let first = chain.byte(0, Role::Read)?;
    let second = chain.byte(1, Role::Read)?;
    let differ = chain.binary(BvOp::Ne, first, second)?;
    let root = chain.binary(BvOp::And, all, differ)?;
    chain.builder.finish(root).ok_or(AllocError)
}

/// Takes the maps from the question of so many stores.
pub fn reduced(alloc: Global, count: u64) -> Result<ReducedSizes, AllocError> {
    let terms = question(alloc, count as usize)?;
    let (reduced, _plan) = reduce(alloc, &terms)?;
    Ok(ReducedSizes {
        nodes: terms.nodes().len(),
        reduced: reduced.terms().nodes().len(),
    })
}

/// Makes the clauses of the question of so many stores.
pub fn blasted(alloc: Global, count: u64) -> Result<NetSizes, AllocError> {
    let terms = question(alloc, count as usize)?;
    let (reduced, _plan) = reduce(alloc, &terms)?;
    let net = blast(alloc, &reduced)?;
    let cnf = clauses(alloc, &net)?;
    Ok(NetSizes {
        gates: net.wires().saturating_sub(net.inputs),
        clauses: cnf.clauses.len(),
    })
}

/// What is decided of a question.
#[derive(Clone, Copy)]
pub enum Outcome {
    /// So many values make it true.
    Model(usize),
    /// A log of so many lines refutes it.
    Refuted(usize),
}

/// Decides the question of so many stores.
pub fn decided(alloc: Global, count: u64) -> Result<Outcome, AllocError> {
    let terms = question(alloc, count as usize)?;
    match decide(alloc, &terms) {
        Decision::Model(values) => Ok(Outcome::Model(values.len())),
        Decision::Refuted(refuted) => Ok(Outcome::Refuted(refuted.log.lines.len())),
        Decision::NoMemory => Err(AllocError),
    }
}
