//! A caller and its callee with formulas made by hand, and a chain of a thousand calls: the nodes that are read off values of their
//! terms, and the rules.
ghost use Rattle.std.specs.Prelude.{◌≡◌, ◌<◌, length, IfOk, OnOk};

use crate::values::is_on;
use crate::{read_nodes, rules_of};
use call_tree::Decision2;
use flat_prog::{Child, FlatBlock, FlatCmd, FlatKind, FlatNext, FlatProc, RunNode};
use hy_val::{Atom, Value};
use sqlite_items::{Items, at};
use std::alloc::{AllocError, Global};
use std::test::Fail;
use tree_terms::{
    EdgeTerms, Linked, Place, Rule, SiteTerms, Table, Template, TrackTerms, ValueTerms,
};

// A call of a procedure, and then the return.
fn calling(alloc: Global, proc: u32) -> Result<FlatBlock, AllocError> {
    let mut cmds = Items::new(alloc);
    cmds.push(FlatCmd::Call {
        proc,
        args: Items::new(alloc),
        outs: Items::new(alloc),
    })?;
    Ok(FlatBlock {
        cmds,
        next: FlatNext::Return,
    })
}

fn returning(alloc: Global) -> FlatBlock {
    FlatBlock {
        cmds: Items::new(alloc),
        next: FlatNext::Return,
    }
}

fn proc(alloc: Global, number: u32, blocks: Items<FlatBlock>) -> FlatProc {
    FlatProc {
        kind: FlatKind::Source { proc: number },
        ins: Items::new(alloc),
        outs: Items::new(alloc),
        locals: Items::new(alloc),
        blocks,
    }
}

// Procedure 0 calls procedure 1 in its first block, of three; of the edges only the calls count here.
fn caller_and_callee(alloc: Global) -> Result<Items<FlatProc>, AllocError> {
    let mut blocks = Items::new(alloc);
    blocks.push(calling(alloc, 1)?)?;
    blocks.push(returning(alloc))?;
    blocks.push(returning(alloc))?;
    let mut procs = Items::new(alloc);
    procs.push(proc(alloc, 0, blocks))?;
    let mut blocks = Items::new(alloc);
    blocks.push(returning(alloc))?;
    procs.push(proc(alloc, 1, blocks))?;
    Ok(procs)
}

fn numbers(alloc: Global, list: &[usize]) -> Result<Items<usize>, AllocError> {
    let mut items = Items::new(alloc);
    for number in list {
        items.push(*number)?;
    }
    Ok(items)
}

fn bools(alloc: Global, list: &[bool]) -> Result<Items<Value>, AllocError> {
    let mut items = Items::new(alloc);
    for value in list {
        items.push(Value::Atom(Atom::bool(*value)))?;
    }
    Ok(items)
}

fn are_bools(values: &[Value], want: &[bool]) -> bool {
    let mut same = values.len() == want.len();
    for index in 0..want.len() {
        same = same && at(want, index).copied() == Some(is_on(values, index));
    }
    same
}

fn edge(place: u32, target: u32, node: usize) -> EdgeTerms {
    EdgeTerms {
        block: 0,
        place,
        target,
        node,
    }
}

fn template(alloc: Global, track: TrackTerms, sites: Items<SiteTerms>) -> Template {
    Template {
        nodes: Items::new(alloc),
        roles: Items::new(alloc),
        sites,
        track,
        ends: 0,
        fails: 0,
        outs: Items::new(alloc),
        globals: Items::new(alloc),
    }
}

// The caller takes node 0 as it begins, node 1 in its second block and node 3 in its last one. Node 1 says that it goes to the second block, node 2 that it goes
// to the last one and passes the site, node 3 that the callee fails; node 0 is the callee's out, and nodes 1 and 2 the globals.
fn caller(alloc: Global) -> Result<Template, AllocError> {
    let mut edges = Items::new(alloc);
    edges.push(edge(0, 1, 1))?;
    edges.push(edge(1, 2, 2))?;
    let mut values = Items::new(alloc);
    values.push(ValueTerms { node: 1, live: 1 })?;
    values.push(ValueTerms { node: 3, live: 2 })?;
    let track = TrackTerms {
        proc: 0,
        edges,
        begin: numbers(alloc, &[0])?,
        values,
        asserts: Items::new(alloc),
    };
    let mut sites = Items::new(alloc);
    sites.push(SiteTerms {
        proc: 1,
        node: 2,
        fails: 3,
        args: Items::new(alloc),
        before: Items::new(alloc),
        outs: numbers(alloc, &[0])?,
        after: numbers(alloc, &[1, 2])?,
    })?;
    Ok(template(alloc, track, sites))
}

// The callee takes node 0 as it begins and node 1 in its only block, where node 1 says that it comes there, and node 3 behind a
// command at which it may be over, where node 2 says that it isn't.
fn callee(alloc: Global) -> Result<Template, AllocError> {
    let mut values = Items::new(alloc);
    values.push(ValueTerms { node: 1, live: 1 })?;
    values.push(ValueTerms { node: 3, live: 2 })?;
    let track = TrackTerms {
        proc: 1,
        edges: Items::new(alloc),
        begin: numbers(alloc, &[0])?,
        values,
        asserts: Items::new(alloc),
    };
    Ok(template(alloc, track, Items::new(alloc)))
}

fn place(
    alloc: Global,
    template: usize,
    parent: usize,
    kid: Option<usize>,
) -> Result<Place, AllocError> {
    let mut kids = Items::new(alloc);
    kids.push(kid)?;
    Ok(Place {
        template,
        parent,
        site: 0,
        kids,
    })
}

// The caller, and at its site the callee, or nothing. There is one constant, the term 8, and one in, the term 9.
fn linked(alloc: Global, open: bool) -> Result<Linked, AllocError> {
    let mut templates = Items::new(alloc);
    templates.push(caller(alloc)?)?;
    templates.push(callee(alloc)?)?;
    let mut tree = Items::new(alloc);
    tree.push(place(alloc, 0, 0, if open { None } else { Some(1) })?)?;
    if !open {
        tree.push(place(alloc, 1, 0, None)?)?;
    }
    Ok(Linked {
        templates,
        tree,
        consts: numbers(alloc, &[8])?,
        globals: Items::new(alloc),
        args: numbers(alloc, &[9])?,
    })
}

// Puts so many numbers into a node's list, from one on.
fn fill(places: &mut Table, node: usize, first: usize, count: usize) -> Result<(), AllocError>
    requires { node < length places.old }
    ensures { OnOk result (length places.new ≡ length places.old) }
{
    for index in 0..count {
        places.push(node, first.saturating_add(index))?;
    }
    Ok(())
}

// Each node has so many terms, those of a node `step` behind those of the one before it.
fn table(alloc: Global, q: &Linked, count: usize, step: usize) -> Result<Table, AllocError>
    ensures { IfOk result (λ t. length t ≡ length q.now.tree) }
{
    let mut places = Table::new(alloc, q.tree.len())?;
    let mut first: usize = 0;
    for node in 0..q.tree.len() {
        fill(&mut places, node, first, count)?;
        first = first.saturating_add(step);
    }
    Ok(places)
}

// What procedure 1 may change is the global 1.
fn changes(alloc: Global) -> Result<Items<Items<usize>>, AllocError> {
    let mut lists = Items::new(alloc);
    lists.push(Items::new(alloc))?;
    lists.push(numbers(alloc, &[1])?)?;
    Ok(lists)
}

// The nodes that are read of the caller and the callee, four terms each, where the terms have these values.
fn read(alloc: Global, open: bool, list: &[bool]) -> Result<Items<RunNode>, AllocError> {
    let procs = caller_and_callee(alloc)?;
    let q = linked(alloc, open)?;
    let places = table(alloc, &q, 4, 4)?;
    let values = bools(alloc, list)?;
    let changes = changes(alloc)?;
    read_nodes(
        alloc,
        procs.as_slice(),
        changes.as_slice(),
        &q,
        &places,
        &[8, 2],
        values.as_slice(),
    )
}

// Both go as their values say: the caller takes the constant, the in, and its own values.
#[test]
fn a_caller_and_its_callee_are_read(rt: HostRuntime) -> Result<(), Fail> {
    let list = [
        true, false, true, true, false, true, false, false, true, false,
    ];
    let nodes = read(rt.alloc(), false, list.as_slice())?;
    assert!(rt; nodes.len() == 2);
    let root = at(nodes.as_slice(), 0).expect(&rt, "root");
    assert!(rt; root.proc == 0);
    assert!(rt; root.path.as_slice() == [0, 2].as_slice());
    assert!(rt; root.places.as_slice() == [1].as_slice());
    assert!(rt; are_bools(root.values.as_slice(), &[true, false, true, true]));
    assert!(rt; root.children.len() == 1);
    assert!(rt; matches!(at(root.children.as_slice(), 0), Some(Child::Node(1))));
    let inner = at(nodes.as_slice(), 1).expect(&rt, "callee");
    assert!(rt; inner.proc == 1);
    assert!(rt; inner.path.as_slice() == [0].as_slice());
    assert!(rt; inner.places.len() == 0);
    assert!(rt; are_bools(inner.values.as_slice(), &[false, true]));
    assert!(rt; inner.children.len() == 0);
    Ok(())
}

// Where the site is not passed, the callee is no node.
#[test]
fn what_is_not_reached_is_no_node(rt: HostRuntime) -> Result<(), Fail> {
    let list = [
        true, true, false, true, false, true, false, false, true, false,
    ];
    let nodes = read(rt.alloc(), false, list.as_slice())?;
    assert!(rt; nodes.len() == 1);
    let root = at(nodes.as_slice(), 0).expect(&rt, "root");
    assert!(rt; root.path.as_slice() == [0, 1].as_slice());
    assert!(rt; are_bools(root.values.as_slice(), &[true, false, true, true]));
    assert!(rt; root.children.len() == 0);
    Ok(())
}

// A free child has its out and the global that it may change, or nothing where it fails.
#[test]
fn an_open_site_has_a_free_child(rt: HostRuntime) -> Result<(), Fail> {
    for (fails, want) in [(false, 2), (true, 0)] {
        let list = [
            false, false, true, fails, false, false, false, false, true, false,
        ];
        let nodes = read(rt.alloc(), true, list.as_slice())?;
        let root = at(nodes.as_slice(), 0).expect(&rt, "root");
        let child = at(root.children.as_slice(), 0).expect(&rt, "child");
        match child {
            Child::Node(_) => assert!(rt; false),
            Child::Free { ends, values } => {
                assert!(rt; *ends != fails);
                assert!(rt; values.len() == want);
                assert!(rt; fails || are_bools(values.as_slice(), &[false, true]));
            }
        }
    }
    Ok(())
}

// The site has no node and may not be passed, and the root must be reached.
#[test]
fn a_cut_site_and_a_decision_are_rules(rt: HostRuntime) -> Result<(), Fail> {
    let q = linked(rt.alloc(), true)?;
    let places = table(rt.alloc(), &q, 4, 4)?;
    let mut may = Items::new(rt.alloc());
    may.push(Items::new(rt.alloc()))?;
    let piece = [(0, Decision2::Must)];
    let rules = rules_of(
        rt.alloc(),
        &q,
        &places,
        &[8],
        may.as_slice(),
        8,
        9,
        piece.as_slice(),
    )?;
    let cut = Rule {
        when: 8,
        negated: true,
        one: 2,
        other: 8,
    };
    let reached = Rule {
        when: 8,
        negated: false,
        one: 8,
        other: 9,
    };
    assert!(rt; rules.as_slice() == [cut, reached].as_slice());
    Ok(())
}

// A procedure that calls itself once.
fn recursive(alloc: Global) -> Result<Items<FlatProc>, AllocError> {
    let mut blocks = Items::new(alloc);
    blocks.push(calling(alloc, 0)?)?;
    let mut procs = Items::new(alloc);
    procs.push(proc(alloc, 0, blocks))?;
    Ok(procs)
}

// So many calls, each at the site of the one before it; the site of the last one is open.
fn chain(alloc: Global, count: usize) -> Result<Linked, AllocError> {
    let track = TrackTerms {
        proc: 0,
        edges: Items::new(alloc),
        begin: Items::new(alloc),
        values: Items::new(alloc),
        asserts: Items::new(alloc),
    };
    let mut sites = Items::new(alloc);
    sites.push(SiteTerms {
        proc: 0,
        node: 0,
        fails: 1,
        args: Items::new(alloc),
        before: Items::new(alloc),
        outs: Items::new(alloc),
        after: Items::new(alloc),
    })?;
    let mut templates = Items::new(alloc);
    templates.push(template(alloc, track, sites))?;
    let mut tree = Items::new(alloc);
    for node in 1..count {
        tree.push(place(alloc, 0, node.saturating_sub(2), Some(node))?)?;
    }
    tree.push(place(alloc, 0, count.saturating_sub(2), None)?)?;
    Ok(Linked {
        templates,
        tree,
        consts: Items::new(alloc),
        globals: Items::new(alloc),
        args: Items::new(alloc),
    })
}

// All have the same two terms: the site is passed, and the callee does not fail.
#[test]
fn a_chain_of_a_thousand_calls_is_read(rt: HostRuntime) -> Result<(), Fail> {
    let procs = recursive(rt.alloc())?;
    let q = chain(rt.alloc(), 1000)?;
    let places = table(rt.alloc(), &q, 2, 0)?;
    let mut reach = Items::new(rt.alloc());
    for _ in 0..1000 {
        reach.push(0usize)?;
    }
    let values = bools(rt.alloc(), &[true, false])?;
    let nodes = read_nodes(
        rt.alloc(),
        procs.as_slice(),
        &[],
        &q,
        &places,
        reach.as_slice(),
        values.as_slice(),
    )?;
    assert!(rt; nodes.len() == 1000);
    let first = at(nodes.as_slice(), 0).expect(&rt, "first");
    assert!(rt; matches!(at(first.children.as_slice(), 0), Some(Child::Node(1))));
    let last = at(nodes.as_slice(), 999).expect(&rt, "last");
    assert!(rt;
        matches!(
            at(last.children.as_slice(), 0),
            Some(Child::Free {
                ends: true,
                values: _
            })
        )
    );
    Ok(())
}
