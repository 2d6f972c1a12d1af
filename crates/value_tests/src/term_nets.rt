//! Small terms, turned into nets.

use bit_blast::{blast, read_back};
use gate_net::clauses;
use hy_term::{Reduced, TermNode, Terms};
use hy_val::{Atom, BitVec, BvOp, Scalar, Sort, Width};
use sqlite_items::at;
use std::test::Fail;

// `x == bvadd(x, 1)` on eight bits takes few gates.
#[test]
fn few_gates_for_a_sum(rt: HostRuntime) -> Result<(), Fail> {
    let byte = Sort::scalar(Scalar::bits(Width::new(8)));
    let mut terms = Terms::new(rt.alloc())?;
    let x = terms.add(TermNode::Variable {
        number: 3,
        sort: byte,
    })?;
    let one = terms.add(TermNode::Lit(Atom::bits(BitVec::new(Width::new(8), 1))))?;
    let next = terms.add(TermNode::Binary {
        op: BvOp::BvAdd,
        left: x,
        right: one,
    })?;
    let same = terms.add(TermNode::Binary {
        op: BvOp::Eq,
        left: x,
        right: next,
    })?;
    terms.set_root(same);
    let net = blast(rt.alloc(), &Reduced::new(terms))?;
    assert!(rt; net.inputs == 8);
    assert!(rt; net.gates.len() <= 16_386);
    assert!(rt; clauses(rt.alloc(), &net)?.variables == net.wires());
    Ok(())
}

// For `x == bvmul(x, x)` the lowest bit alone is read as 1.
#[test]
fn the_lowest_bit_is_read_first(rt: HostRuntime) -> Result<(), Fail> {
    let byte = Sort::scalar(Scalar::bits(Width::new(8)));
    let mut terms = Terms::new(rt.alloc())?;
    let x = terms.add(TermNode::Variable {
        number: 0,
        sort: byte,
    })?;
    let square = terms.add(TermNode::Binary {
        op: BvOp::BvMul,
        left: x,
        right: x,
    })?;
    let same = terms.add(TermNode::Binary {
        op: BvOp::Eq,
        left: x,
        right: square,
    })?;
    terms.set_root(same);
    let reduced = Reduced::new(terms);
    let bits = [true, false, false, false, false, false, false, false];
    let values = read_back(rt.alloc(), &reduced, &bits)?;
    let first = at(values.as_slice(), 0).copied();
    assert!(rt; first == Some(Atom::bits(BitVec::new(Width::new(8), 1))));
    Ok(())
}
