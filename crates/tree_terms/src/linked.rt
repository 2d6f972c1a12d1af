//! Trees of calls whose nodes have formulas, and what stands in the place of each variable of these: what the caller passes,
//! what the callee gives back, or a new variable where a site is open.
ghost use Rattle.std.specs.Prelude.{◌≡◌, ℕ, ◌<◌, length, slice_get, Option, Some};
ghost use Rattle.std.specs.Option.{option_copied, option_and_then};
ghost use Rattle.tree_terms.specs.Linked.{argument, back, down, given, global, kid, node_by, nodes_of, parent, role_of, site_of, source, template_of, up};

use hy_term::TermNode;
use sqlite_items::{Items, at};

/// What a variable of a procedure's formula stands for. Constants, globals, ins and outs are numbered from 0 in the order
/// of their declarations, sites in the order of the procedure's blocks and of the calls in each.
#[derive(Clone, Copy, Debug, PartialEq, Eq)]
pub enum Role {
    /// A constant of the program.
    Const(usize),
    /// A global, as the call finds it.
    Global(usize),
    /// An in of the procedure.
    In(usize),
    /// That the callee at a site fails.
    Failed(usize),
    /// An out of the callee at a site.
    Out { site: usize, at: usize },
    /// A global after the call at a site.
    After { site: usize, at: usize },
    /// A choice of the run's own: what a havoc or an uninitialised local takes.
    Own,
}

/// The terms of a call site: numbers of nodes of the formula that it stands in.
#[derive(Drop)]
pub struct SiteTerms {
    /// The procedure that is called, by its number in the program.
    pub proc: usize,
    /// A bool that says that the run passes the site.
    pub node: usize,
    /// A bool variable, of the role Failed, that says that the callee fails.
    pub fails: usize,
    /// What is passed for each in.
    pub args: Items<usize>,
    /// All globals, as the call finds them.
    pub before: Items<usize>,
    /// What comes back for each out.
    pub outs: Items<usize>,
    /// All globals after the call. What the callee may not change is as before.
    pub after: Items<usize>,
}

/// An edge that a run may pass.
#[derive(Clone, Copy, Debug, PartialEq, Eq)]
pub struct EdgeTerms {
    /// The block that it leaves, from 0.
    pub block: u32,
    /// Its place in that block's list of targets, from 0.
    pub place: u32,
    /// The block that it leads to.
    pub target: u32,
    /// The node, a bool, that says that the run passes it.
    pub node: usize,
}

/// An assert that a run may fail in.
#[derive(Clone, Copy, Debug, PartialEq, Eq)]
pub struct FailTerms {
    /// Its block, from 0.
    pub block: u32,
    /// Its position among the block's commands, from 0.
    pub position: u32,
    /// The node, a bool, that says that the run fails there.
    pub node: usize,
}

/// A value that a run may take on its way.
#[derive(Clone, Copy, Debug, PartialEq, Eq)]
pub struct ValueTerms {
    /// The node of the value.
    pub node: usize,
    /// The node, a bool, that says that the run comes to where it is taken.
    pub live: usize,
}

/// How a run's own path and values are read off the formula's values.
#[derive(Drop)]
pub struct TrackTerms {
    /// The procedure, by its number in the program.
    pub proc: u32,
    /// The edges, in an order in which each path passes them.
    pub edges: Items<EdgeTerms>,
    /// The nodes of the values that the run takes as it begins.
    pub begin: Items<usize>,
    /// The values that a run takes on its way, in an order in which each run comes to those that it takes.
    pub values: Items<ValueTerms>,
    /// The asserts.
    pub asserts: Items<FailTerms>,
}

/// The formula of a procedure, over variables of its own. Numbers of nodes are places in `nodes`.
#[derive(Drop)]
pub struct Template {
    /// The nodes of the formula, children before their nodes.
    pub nodes: Items<TermNode>,
    /// For each variable number its role.
    pub roles: Items<Role>,
    /// The call sites, in the order of the blocks and of the calls in each.
    pub sites: Items<SiteTerms>,
    /// How the run's path and values are read.
    pub track: TrackTerms,
    /// The node, a bool, that says that the run comes to the procedure's end.
    pub ends: usize,
    /// The node, a bool, that says that the run fails, here or in a callee.
    pub fails: usize,
    /// The nodes of the outs, where the run ends.
    pub outs: Items<usize>,
    /// The nodes of all globals, where the run ends.
    pub globals: Items<usize>,
}

/// A node of the tree of calls.
#[derive(Drop)]
pub struct Place {
    /// Its formula, by the number among the templates.
    pub template: usize,
    /// The node that calls it, by its number in the tree; 0 for the root.
    pub parent: usize,
    /// The site there that it is called at.
    pub site: usize,
    /// For each of its own sites the node there; None where the site is open.
    pub kids: Items<Option<usize>>,
}

/// A tree of calls with the formulas of its nodes, and the terms of the constants and of the root's call.
#[derive(Drop)]
pub struct Linked {
    /// The procedures' formulas.
    pub templates: Items<Template>,
    /// The nodes, each behind its caller; the root is the node 0.
    pub tree: Items<Place>,
    /// The terms of the constants.
    pub consts: Items<usize>,
    /// The terms of all globals, as the root finds them.
    pub globals: Items<usize>,
    /// The terms of the root's ins.
    pub args: Items<usize>,
}

/// What stands in a variable's place, in the copy of its formula for a node of the tree.
#[derive(Clone, Copy, Debug, PartialEq, Eq)]
pub enum Source {
    /// A term that was there before the copies.
    Given(usize),
    /// The copy of a node of the caller's formula.
    Up(usize),
    /// The copy of a node of a callee's formula: the callee by its number in the tree, and the place in its formula.
    Down { node: usize, at: usize },
    /// A new variable.
    Fresh,
}

// The number at a place of a list.
fn number(list: &[usize], place: usize) -> Option<usize>
    ensures { result ≡ slice_get list.now place }
{
    match list.get(place) {
        None => None,
        Some(number) => Some(*number),
    }
}

// The term, where there is one.
fn given(term: Option<usize>) -> Source
    ensures { result ≡ given term }
{
    match term {
        None => Source::Fresh,
        Some(term) => Source::Given(term),
    }
}

// The caller's node, where there is one.
fn up(place: Option<usize>) -> Source
    ensures { result ≡ up place }
{
    match place {
        None => Source::Fresh,
        Some(place) => Source::Up(place),
    }
}

// The callee's node, where there is one.
fn down(node: usize, place: Option<usize>) -> Source
    ensures { result ≡ down node place }
{
    match place {
        None => Source::Fresh,
        Some(at) => Source::Down { node, at },
    }
}

/// The formula of a node of the tree; None where there is no such node or template.
pub fn template_of(q: &Linked, node: usize) -> Option<&Template>
    ensures { option_copied result ≡ template_of q.now node }
{
    match at(q.tree.as_slice(), node) {
        None => None,
        Some(place) => at(q.templates.as_slice(), place.template),
    }
}

// The role of a variable of a node's formula.
fn role_of(q: &Linked, node: usize, number: usize) -> Option<Role>
    ensures { result ≡ role_of q.now node number }
{
    match template_of(q, node) {
        None => None,
        Some(template) => match template.roles.get(number) {
            None => None,
            Some(role) => Some(*role),
        },
    }
}

/// The node at a site of a node; None where the site is open.
pub fn kid(q: &Linked, node: usize, site: usize) -> Option<usize>
    ensures { result ≡ kid q.now node site }
{
    match at(q.tree.as_slice(), node) {
        None => None,
        Some(place) => match place.kids.get(site) {
            None => None,
            Some(kid) => *kid,
        },
    }
}

// The site of the caller that a node is called at.
fn site(q: &Linked, node: usize) -> Option<&SiteTerms>
    ensures { option_copied result ≡ site_of q.now node }
{
    match at(q.tree.as_slice(), node) {
        None => None,
        Some(place) => match template_of(q, place.parent) {
            None => None,
            Some(template) => at(template.sites.as_slice(), place.site),
        },
    }
}

// What stands for a global as a node finds it.
fn global(q: &Linked, node: usize, k: usize) -> Source
    ensures { result ≡ global q.now node k }
{
    if node == 0 {
        return given(number(q.globals.as_slice(), k));
    }
    match site(q, node) {
        None => Source::Fresh,
        Some(site) => up(number(site.before.as_slice(), k)),
    }
}

// What stands for an in of a node.
fn argument(q: &Linked, node: usize, k: usize) -> Source
    ensures { result ≡ argument q.now node k }
{
    if node == 0 {
        return given(number(q.args.as_slice(), k));
    }
    match site(q, node) {
        None => Source::Fresh,
        Some(site) => up(number(site.args.as_slice(), k)),
    }
}

// What stands for the bool that the callee at a site fails.
fn failed(q: &Linked, kid: Option<usize>) -> Source
    ensures { result ≡ back q.now (λ t. Some t.fails) kid }
{
    match kid {
        None => Source::Fresh,
        Some(node) => match template_of(q, node) {
            None => Source::Fresh,
            Some(template) => Source::Down {
                node,
                at: template.fails,
            },
        },
    }
}

// What stands for an out of the callee at a site.
fn out(q: &Linked, kid: Option<usize>, k: usize) -> Source
    ensures { result ≡ back q.now (λ t. slice_get t.outs k) kid }
{
    match kid {
        None => Source::Fresh,
        Some(node) => match template_of(q, node) {
            None => Source::Fresh,
            Some(template) => down(node, number(template.outs.as_slice(), k)),
        },
    }
}

// What stands for a global after the call at a site.
fn after(q: &Linked, kid: Option<usize>, k: usize) -> Source
    ensures { result ≡ back q.now (λ t. slice_get t.globals k) kid }
{
    match kid {
        None => Source::Fresh,
        Some(node) => match template_of(q, node) {
            None => Source::Fresh,
            Some(template) => down(node, number(template.globals.as_slice(), k)),
        },
    }
}

/// What stands in the place of a variable of a node's formula, by the variable's role. It is a new variable where the role is
/// missing, or names what isn't there.
pub fn source_of(q: &Linked, node: usize, number: usize) -> Source
    ensures { result ≡ source q.now node number }
{
    match role_of(q, node, number) {
        None => Source::Fresh,
        Some(Role::Const(k)) => given(self::number(q.consts.as_slice(), k)),
        Some(Role::Global(k)) => global(q, node, k),
        Some(Role::In(k)) => argument(q, node, k),
        Some(Role::Failed(site)) => failed(q, kid(q, node, site)),
        Some(Role::Out { site, at }) => out(q, kid(q, node, site), at),
        Some(Role::After { site, at }) => after(q, kid(q, node, site), at),
        Some(Role::Own) => Source::Fresh,
    }
}

/// The node that calls a node; 0 for the root, and where there is no such node.
pub fn parent(q: &Linked, node: usize) -> usize
    ensures { result ≡ parent q.now node }
{
    match at(q.tree.as_slice(), node) {
        None => 0,
        Some(place) => place.parent,
    }
}

/// How many nodes a node's formula has; 0 where it has none.
pub fn count(q: &Linked, node: usize) -> usize
    ensures { result ≡ length (nodes_of q.now node) }
{
    match template_of(q, node) {
        None => 0,
        Some(template) => template.nodes.len(),
    }
}

/// A node of a node's formula, by its place; None where there is none.
pub fn node_at(q: &Linked, node: usize, place: usize) -> Option<TermNode>
    ensures { result ≡ slice_get (nodes_of q.now node) place }
{
    match template_of(q, node) {
        None => None,
        Some(template) => match template.nodes.get(place) {
            None => None,
            Some(node) => Some(*node),
        },
    }
}

/// The place, in the caller's formula, of the bool that says that the site of a node is passed; 0 where there is no such
/// site.
pub fn site_node(q: &Linked, node: usize) -> usize
    ensures { result ≡ node_by (site_of q.now node) }
{
    match site(q, node) {
        None => 0,
        Some(site) => site.node,
    }
}
