//! Trees of calls whose terms are worked out by hand, and one of a thousand calls.

mod checks;

use crate::*;
use checks::{place, try_copied};
use hy_term::{TermBuilder, TermNode};
use hy_val::{Atom, AtomKind, BvOp, Scalar, Sort, UnOp};
use sqlite_items::{Items, at};
use std::alloc::{AllocError, Global};
use std::test::Fail;

fn variable(number: usize) -> TermNode {
    TermNode::Variable {
        number,
        sort: Sort::scalar(Scalar::bool()),
    }
}

fn truth(value: bool) -> TermNode {
    TermNode::Lit(Atom::bool(value))
}

fn no_track(alloc: Global, proc: u32) -> TrackTerms {
    TrackTerms {
        proc,
        edges: Items::new(alloc),
        begin: Items::new(alloc),
        values: Items::new(alloc),
        asserts: Items::new(alloc),
    }
}

// `opposite(z)` returns `not z`.
fn opposite(alloc: Global) -> Result<Template, AllocError> {
    let mut nodes = Items::new(alloc);
    nodes.push(variable(0))?;
    nodes.push(TermNode::Unary {
        op: UnOp::Not,
        child: 0,
    })?;
    nodes.push(truth(false))?;
    nodes.push(truth(true))?;
    let mut roles = Items::new(alloc);
    roles.push(Role::In(0))?;
    Ok(Template {
        nodes,
        roles,
        sites: Items::new(alloc),
        track: no_track(alloc, 1),
        ends: 3,
        fails: 2,
        outs: one(alloc, 1)?,
        globals: Items::new(alloc),
    })
}

fn one(alloc: Global, number: usize) -> Result<Items<usize>, AllocError> {
    let mut numbers = Items::new(alloc);
    numbers.push(number)?;
    Ok(numbers)
}

// A site that passes one node, and gets one out.
fn site(alloc: Global, fails: usize, arg: usize, out: usize) -> Result<SiteTerms, AllocError> {
    Ok(SiteTerms {
        proc: 1,
        node: 2,
        fails,
        args: one(alloc, arg)?,
        before: Items::new(alloc),
        outs: one(alloc, out)?,
        after: Items::new(alloc),
    })
}

// `first(x, y)` returns `opposite(x) and not opposite(y)`.
fn first(alloc: Global) -> Result<Template, AllocError> {
    let mut nodes = Items::new(alloc);
    nodes.push(variable(0))?;
    nodes.push(variable(1))?;
    nodes.push(truth(true))?;
    nodes.push(variable(2))?;
    nodes.push(variable(3))?;
    nodes.push(variable(4))?;
    nodes.push(variable(5))?;
    nodes.push(TermNode::Unary {
        op: UnOp::Not,
        child: 6,
    })?;
    nodes.push(TermNode::Binary {
        op: BvOp::And,
        left: 4,
        right: 7,
    })?;
    let mut roles = Items::new(alloc);
    roles.push(Role::In(0))?;
    roles.push(Role::In(1))?;
    roles.push(Role::Failed(0))?;
    roles.push(Role::Out { site: 0, at: 0 })?;
    roles.push(Role::Failed(1))?;
    roles.push(Role::Out { site: 1, at: 0 })?;
    let mut sites = Items::new(alloc);
    sites.push(site(alloc, 3, 0, 4)?)?;
    sites.push(site(alloc, 5, 1, 6)?)?;
    Ok(Template {
        nodes,
        roles,
        sites,
        track: no_track(alloc, 0),
        ends: 2,
        fails: 3,
        outs: one(alloc, 8)?,
        globals: Items::new(alloc),
    })
}

// `same(x)` returns whether x is what the callee makes of x.
fn same(alloc: Global) -> Result<Template, AllocError> {
    let mut nodes = Items::new(alloc);
    nodes.push(variable(0))?;
    nodes.push(variable(1))?;
    nodes.push(truth(true))?;
    nodes.push(variable(2))?;
    nodes.push(TermNode::Binary {
        op: BvOp::Eq,
        left: 0,
        right: 3,
    })?;
    let mut roles = Items::new(alloc);
    roles.push(Role::In(0))?;
    roles.push(Role::Failed(0))?;
    roles.push(Role::Out { site: 0, at: 0 })?;
    let mut sites = Items::new(alloc);
    sites.push(site(alloc, 1, 0, 3)?)?;
    Ok(Template {
        nodes,
        roles,
        sites,
        track: no_track(alloc, 0),
        ends: 2,
        fails: 1,
        outs: one(alloc, 4)?,
        globals: Items::new(alloc),
    })
}

fn leaf(alloc: Global, parent: usize, site: usize) -> Place {
    Place {
        template: 1,
        parent,
        site,
        kids: Items::new(alloc),
    }
}

// The call of `first`, and of `opposite` at its two sites; the second is open where `open`.
fn two_calls(alloc: Global, args: Items<usize>, open: bool) -> Result<Linked, AllocError> {
    let mut templates = Items::new(alloc);
    templates.push(first(alloc)?)?;
    templates.push(opposite(alloc)?)?;
    let mut kids = Items::new(alloc);
    kids.push(Some(1))?;
    kids.push(if open { None } else { Some(2) })?;
    let mut tree = Items::new(alloc);
    tree.push(Place {
        template: 0,
        parent: 0,
        site: 0,
        kids,
    })?;
    tree.push(leaf(alloc, 0, 0))?;
    if !open {
        tree.push(leaf(alloc, 0, 1))?;
    }
    Ok(Linked {
        templates,
        tree,
        consts: Items::new(alloc),
        globals: Items::new(alloc),
        args,
    })
}

// A chain of so many calls of `same`, and one of `opposite` at its end.
fn chain(alloc: Global, callers: usize) -> Result<Linked, AllocError> {
    let mut templates = Items::new(alloc);
    templates.push(same(alloc)?)?;
    templates.push(opposite(alloc)?)?;
    let mut tree = Items::new(alloc);
    for node in 0..callers {
        let mut kids = Items::new(alloc);
        kids.push(Some(node + 1))?;
        tree.push(Place {
            template: 0,
            parent: node.saturating_sub(1),
            site: 0,
            kids,
        })?;
    }
    tree.push(leaf(alloc, callers.saturating_sub(1), 0))?;
    Ok(Linked {
        templates,
        tree,
        consts: Items::new(alloc),
        globals: Items::new(alloc),
        args: one(alloc, 1)?,
    })
}

// The literal true and so many bool variables, whose numbers are those of their nodes.
fn start(alloc: Global, variables: usize) -> Result<Option<SharedTerms>, AllocError> {
    let mut builder = TermBuilder::new(alloc)?;
    for number in 0..variables {
        let _added = builder.try_add(variable(number.saturating_add(1)))?;
    }
    match builder.finish(0) {
        None => Ok(None),
        Some(terms) => Ok(Some(SharedTerms::new(alloc, terms)?)),
    }
}

fn bit(known: &[bool], number: usize) -> bool {
    at(known, number).copied().unwrap_or(false)
}

fn of_two(op: BvOp, left: bool, right: bool) -> bool {
    match op {
        BvOp::And => left && right,
        BvOp::Or => left || right,
        BvOp::Eq => left == right,
        _ => false,
    }
}

fn of_node(node: &TermNode, known: &[bool], variables: &[bool]) -> bool {
    match *node {
        TermNode::Lit(atom) => match atom.kind() {
            AtomKind::Bool(value) => value,
            AtomKind::Bv(_) => false,
        },
        TermNode::Variable { number, sort: _ } => bit(variables, number),
        TermNode::Unary { op: _, child } => !bit(known, child),
        TermNode::Binary { op, left, right } => of_two(op, bit(known, left), bit(known, right)),
        TermNode::If { cond, yes, no } => {
            if bit(known, cond) {
                bit(known, yes)
            } else {
                bit(known, no)
            }
        }
        _ => false,
    }
}

// The value of a node of bools, where the variables have these values; None where there is no node.
fn value(
    alloc: Global,
    terms: &SharedTerms,
    variables: &[bool],
    number: Option<usize>,
) -> Result<Option<bool>, AllocError> {
    let mut known = Vec::new(alloc);
    for node in terms.nodes() {
        let next = of_node(node, known.as_slice(), variables);
        known.push(next)?;
    }
    match number {
        None => Ok(None),
        Some(number) => Ok(at(known.as_slice(), number).copied()),
    }
}

fn pair(alloc: Global, one: usize, other: usize) -> Result<Items<usize>, AllocError> {
    let mut numbers = Items::new(alloc);
    numbers.push(one)?;
    numbers.push(other)?;
    Ok(numbers)
}

// Each callee has the terms of its own site.
#[test]
fn two_callees_stand_at_their_sites(rt: HostRuntime) -> Result<(), Fail> {
    let q = two_calls(rt.alloc(), pair(rt.alloc(), 1, 2)?, false)?;
    let mut terms = start(rt.alloc(), 2)?.expect(&rt, "terms");
    let places = try_copied(rt.alloc(), &q, &mut terms)?.expect(&rt, "linked");
    let out = place(&q, &places, 0, 8);
    for (x, y, want) in [
        (false, false, false),
        (false, true, true),
        (true, false, false),
        (true, true, false),
    ] {
        let is = value(rt.alloc(), &terms, [false, x, y].as_slice(), out)?;
        assert!(rt; is == Some(want));
    }
    Ok(())
}

// What comes back at an open site is a new variable, whose number is that of its node.
#[test]
fn an_open_site_has_new_variables(rt: HostRuntime) -> Result<(), Fail> {
    let q = two_calls(rt.alloc(), pair(rt.alloc(), 1, 2)?, true)?;
    let mut terms = start(rt.alloc(), 2)?.expect(&rt, "terms");
    let places = try_copied(rt.alloc(), &q, &mut terms)?.expect(&rt, "linked");
    assert!(rt; place(&q, &places, 0, 6) == Some(6));
    let out = place(&q, &places, 0, 8);
    for (x, back, want) in [
        (false, false, true),
        (false, true, false),
        (true, false, false),
    ] {
        let variables = [false, x, false, false, false, false, back];
        let is = value(rt.alloc(), &terms, variables.as_slice(), out)?;
        assert!(rt; is == Some(want));
    }
    Ok(())
}

// A literal that is passed folds what the callee and then the caller make of it.
#[test]
fn a_literal_is_folded_through_the_callee(rt: HostRuntime) -> Result<(), Fail> {
    let q = two_calls(rt.alloc(), pair(rt.alloc(), 0, 2)?, false)?;
    let mut terms = start(rt.alloc(), 2)?.expect(&rt, "terms");
    let places = try_copied(rt.alloc(), &q, &mut terms)?.expect(&rt, "linked");
    assert!(rt; place(&q, &places, 1, 1) == Some(3));
    assert!(rt; place(&q, &places, 0, 8) == Some(3));
    assert!(rt; terms.nodes().len() == 6);
    assert!(rt; terms.into_terms().root() == 0);
    Ok(())
}

// A thousand calls, and the opposite of the argument at the end: after an even number of comparisons it comes out again.
#[test]
fn a_chain_of_a_thousand_calls(rt: HostRuntime) -> Result<(), Fail> {
    let q = chain(rt.alloc(), 1000)?;
    let mut terms = start(rt.alloc(), 1)?.expect(&rt, "terms");
    let places = try_copied(rt.alloc(), &q, &mut terms)?.expect(&rt, "linked");
    assert!(rt; terms.nodes().len() == 1004);
    let out = place(&q, &places, 0, 4);
    for x in [false, true] {
        let is = value(rt.alloc(), &terms, [false, x].as_slice(), out)?;
        assert!(rt; is == Some(!x));
    }
    Ok(())
}
