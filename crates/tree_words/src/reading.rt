//! The nodes of a run, read off the values of a question's terms: each node of the tree that is reached is one. `AllocError` comes
//! where memory runs out.
ghost use Rattle.std.specs.Prelude.{◌≡◌, ◌<◌, ◌++◌, true, length, slice_get, slice_index, Some, IfOk};
ghost use Rattle.flat_prog.specs.Program.{blocks_of};
ghost use Rattle.tree_terms.specs.Linked.{kid, template_of};
ghost use Rattle.tree_words.specs.Linking.{formula};
ghost use Rattle.tree_words.specs.Template.{site_by, view_by};
ghost use Rattle.tree_words.specs.Reading.{child_by, children_by, free_by, front_at, node_at, node_with, nodes_read, nodes_to, reached, slot, slots_to, track_by};

use crate::lists::{number_at, row_at};
use crate::sites::sites_passed;
use crate::track::{passed_edges, path_by, places_by, values_taken};
use crate::values::{is_on, picked};
use flat_prog::{Child, FlatBlock, FlatProc, RunNode};
use hy_val::Value;
use sqlite_items::{Items, at};
use std::alloc::{AllocError, Global};
use tree_terms::{Linked, SiteTerms, Table, Template, kid, template_of};

// The values of a free child: the callee's outs and the globals that it may change, none where it fails.
fn free_values(
    alloc: Global,
    changes: &[Items<usize>],
    values: &[Value],
    site: &SiteTerms,
) -> Result<Items<Value>, AllocError>
    ensures { IfOk result (λ vs. vs ≡ free_by changes.now (site_by values.now (Some site.now))) }
{
    if is_on(values, site.fails) {
        return Ok(Items::new(alloc));
    }
    let after = picked(alloc, values, site.after.as_slice())?;
    let new = picked(alloc, after.as_slice(), row_at(changes, site.proc))?;
    let mut list = picked(alloc, values, site.outs.as_slice())?;
    list.append(new)?;
    Ok(list)
}

// Whether a site of a formula is passed; one that is not there is not.
fn is_passed(values: &[Value], sites: &[SiteTerms], number: usize) -> bool
    ensures { result ≡ (site_by values.now (slice_get sites.now number)).on }
{
    match at(sites, number) {
        None => false,
        Some(site) => is_on(values, site.node),
    }
}

// The child at a site that is passed: the node there, or a free child.
fn child(
    alloc: Global,
    changes: &[Items<usize>],
    slots: &[usize],
    kid: Option<usize>,
    values: &[Value],
    sites: &[SiteTerms],
    number: usize,
) -> Result<Child, AllocError>
    requires { (site_by values.now (slice_get sites.now number)).on ≡ true }
    ensures { IfOk result (λ c. c ≡ child_by changes.now slots.now kid (site_by values.now (slice_get sites.now number))) }
{
    if let Some(node) = kid {
        return Ok(Child::Node(number_at(slots, node)));
    }
    let Some(site) = at(sites, number) else {
        unreachable!()
    };
    Ok(Child::Free {
        ends: !is_on(values, site.fails),
        values: free_values(alloc, changes, values, site)?,
    })
}

// The children of a node at those of some sites that are passed, in their order.
fn children(
    alloc: Global,
    changes: &[Items<usize>],
    slots: &[usize],
    q: &Linked,
    node: usize,
    template: &Template,
    values: &[Value],
    sites: &[usize],
) -> Result<Items<Child>, AllocError>
    requires { template_of q.now node ≡ Some template.now }
    ensures { IfOk result (λ cs. cs ≡ children_by changes.now slots.now q.now node (view_by (formula q.now track_by node) values.now) sites.now) }
{
    let mut list: Vec<Child> = Vec::new(alloc);
    for site in sites {
        if is_passed(values, template.sites.as_slice(), *site) {
            list.push(child(
                alloc,
                changes,
                slots,
                kid(q, node, *site),
                values,
                template.sites.as_slice(),
                *site,
            )?)?;
        }
    }
    Ok(Items::from_vec(list))
}

// The blocks of a procedure.
fn blocks_of(procs: &[FlatProc], proc: u32) -> &[FlatBlock]
    ensures { result.now ≡ blocks_of (slice_get procs.now proc) }
{
    match at(procs, proc as usize) {
        None => &[],
        Some(q) => q.blocks.as_slice(),
    }
}

// The node of the run, from the values of the nodes of its formula and what stands before those of its own run.
fn own_node(
    alloc: Global,
    procs: &[FlatProc],
    changes: &[Items<usize>],
    slots: &[usize],
    q: &Linked,
    node: usize,
    template: &Template,
    values: &[Value],
    front: Items<Value>,
) -> Result<RunNode, AllocError>
    requires { template_of q.now node ≡ Some template.now }
    ensures { IfOk result (λ n. n ≡ node_with procs.now changes.now slots.now q.now node (view_by (formula q.now track_by node) values.now) front) }
{
    let track = &template.track;
    let passed = passed_edges(alloc, values, track.edges.as_slice())?;
    let path = path_by(alloc, passed.as_slice())?;
    let places = places_by(alloc, passed.as_slice())?;
    let own = values_taken(alloc, values, track.values.as_slice())?;
    let sites = sites_passed(alloc, blocks_of(procs, track.proc), path.as_slice())?;
    let children = children(
        alloc,
        changes,
        slots,
        q,
        node,
        template,
        values,
        sites.as_slice(),
    )?;
    let mut all = front;
    all.append(picked(alloc, values, track.begin.as_slice())?)?;
    all.append(own)?;
    Ok(RunNode {
        proc: track.proc,
        path,
        places,
        values: all,
        children,
    })
}

// What the entry's run takes before its own values: those of the constants, the globals and the ins.
fn front(
    alloc: Global,
    q: &Linked,
    values: &[Value],
    node: usize,
) -> Result<Items<Value>, AllocError>
    ensures { IfOk result (λ vs. vs ≡ front_at q.now values.now node) }
{
    if node > 0 {
        return Ok(Items::new(alloc));
    }
    let mut list = picked(alloc, values, q.consts.as_slice())?;
    let mut rest = picked(alloc, values, q.globals.as_slice())?;
    rest.append(picked(alloc, values, q.args.as_slice())?)?;
    list.append(rest)?;
    Ok(list)
}

// The node of the run that stands for a node of the tree.
fn run_node(
    alloc: Global,
    procs: &[FlatProc],
    changes: &[Items<usize>],
    slots: &[usize],
    q: &Linked,
    places: &Table,
    values: &[Value],
    node: usize,
) -> Result<RunNode, AllocError>
    requires { node < length places.now }
    ensures { IfOk result (λ n. n ≡ node_at procs.now changes.now slots.now q.now places.now values.now node) }
{
    let own = picked(alloc, values, places.row(node))?;
    let front = front(alloc, q, values, node)?;
    match template_of(q, node) {
        Some(template) => own_node(
            alloc,
            procs,
            changes,
            slots,
            q,
            node,
            template,
            own.as_slice(),
            front,
        ),
        None => Ok(RunNode {
            proc: 0,
            path: Items::new(alloc),
            places: Items::new(alloc),
            values: front,
            children: Items::new(alloc),
        }),
    }
}

// Whether a node is reached.
fn is_reached(values: &[Value], reach: &[usize], node: usize) -> bool
    ensures { result ≡ reached reach.now values.now node }
{
    is_on(values, number_at(reach, node))
}

// For each of the first nodes of the tree its number among those that are reached.
fn slots(
    alloc: Global,
    values: &[Value],
    reach: &[usize],
    count: usize,
) -> Result<Vec<usize>, AllocError>
    ensures { IfOk result (λ s. s.items ≡ slots_to (reached reach.now values.now) count) }
{
    let mut list: Vec<usize> = Vec::new(alloc);
    let mut next = 0;
    for node in 0..count {
        list.push(next)?;
        if is_reached(values, reach, node) {
            next += 1;
        }
    }
    Ok(list)
}

/// The nodes of the run that the values of a question's terms stand for: those nodes of the tree that are reached, in its order. Where
/// the values are those under an assignment that makes the root of a question true, the nodes are those of a member
/// (`nodes_are_members`).
///
/// `procs` are the procedures of the flat program, and `changes` has for each of them the numbers of the globals that it may change.
/// `places` has for each node of the tree where the copies of its formula's nodes are among the terms, `reach` the bool that says that
/// it is reached, and `values` the values of all terms. `AllocError` comes where memory runs out, or the number of a call site does
/// not fit.
pub fn read_nodes(
    alloc: Global,
    procs: &[FlatProc],
    changes: &[Items<usize>],
    q: &Linked,
    places: &Table,
    reach: &[usize],
    values: &[Value],
) -> Result<Items<RunNode>, AllocError>
    requires { length places.now ≡ length q.now.tree }
    ensures { IfOk result (λ ns. ns ≡ nodes_read procs.now changes.now q.now places.now reach.now values.now) }
{
    let slots = slots(alloc, values, reach, q.tree.len())?;
    let mut nodes: Vec<RunNode> = Vec::new(alloc);
    for node in 0..q.tree.len() {
        if is_reached(values, reach, node) {
            let next = run_node(
                alloc,
                procs,
                changes,
                slots.as_slice(),
                q,
                places,
                values,
                node,
            )?;
            nodes.push(next)?;
        }
    }
    Ok(Items::from_vec(nodes))
}
