//! The list of a question's rules. `AllocError` comes where memory runs out.
ghost use Rattle.std.specs.Prelude.{◌≡◌, ◌++◌, ◌∷◌, [], ◌<◌, length, slice_get, slice_index, map, IfOk, OnOk};
ghost use Rattle.tree_terms.specs.Linked.{template_of};
ghost use Rattle.tree_words.specs.Linking.{ends_by, fails_by, sites_by};
ghost use Rattle.tree_words.specs.Rooting.{term};
ghost use Rattle.tree_words.specs.Asking.{cut, cuts_to, decided, may_by, over, rules_of, rules_to};

use crate::lists::number_at;
use call_tree::Decision2;
use sqlite_items::{Items, at};
use std::alloc::{AllocError, Global};
use tree_terms::{Linked, Rule, SiteTerms, Table, kid, template_of};

// Whether a site without a node may be passed; what the table does not say is false.
fn may_pass(may: &[Items<bool>], node: usize, site: usize) -> bool
    ensures { result ≡ may_by may.now node site }
{
    match at(may, node) {
        None => false,
        Some(flags) => match flags.get(site) {
            None => false,
            Some(flag) => *flag,
        },
    }
}

// The node, in its formula, of the bool that a node ends.
fn ends_node(q: &Linked, node: usize) -> usize
    ensures { result ≡ ends_by (template_of q.now node) }
{
    match template_of(q, node) {
        None => 0,
        Some(template) => template.ends,
    }
}

/// The node, in its formula, of the bool that a node of the tree fails; 0 where it has no formula.
pub fn fails_node(q: &Linked, node: usize) -> usize
    ensures { result ≡ fails_by (template_of q.now node) }
{
    match template_of(q, node) {
        None => 0,
        Some(template) => template.fails,
    }
}

// The sites of a node's formula.
fn sites(q: &Linked, node: usize) -> &[SiteTerms]
    ensures { result.now ≡ sites_by (template_of q.now node) }
{
    match template_of(q, node) {
        None => &[],
        Some(template) => template.sites.as_slice(),
    }
}

// Puts behind the rules that a node which is reached is over; the root needs no such rule.
fn push_over(
    q: &Linked,
    places: &Table,
    reach: &[usize],
    node: usize,
    rules: &mut Items<Rule>,
) -> Result<(), AllocError>
    requires { node < length places.now }
    ensures { OnOk result (rules.new ≡ rules.old ++ over q.now places.now reach.now node) }
{
    if node == 0 {
        return Ok(());
    }
    rules.push(Rule {
        when: number_at(reach, node),
        negated: false,
        one: number_at(places.row(node), ends_node(q, node)),
        other: number_at(places.row(node), fails_node(q, node)),
    })?;
    Ok(())
}

// Puts behind the rules that a site is not passed, where there is no node and it may not be.
fn push_cut(
    q: &Linked,
    places: &Table,
    reach: &[usize],
    may: &[Items<bool>],
    node: usize,
    site: usize,
    rules: &mut Items<Rule>,
) -> Result<(), AllocError>
    requires { node < length places.now }
    ensures { OnOk result (rules.new ≡ rules.old ++ cut q.now places.now reach.now (may_by may.now) node site) }
{
    if may_pass(may, node, site) {
        return Ok(());
    }
    match kid(q, node, site) {
        Some(_) => Ok(()),
        None => match at(sites(q, node), site) {
            None => Ok(()),
            Some(terms) => {
                let when = number_at(reach, node);
                rules.push(Rule {
                    when,
                    negated: true,
                    one: number_at(places.row(node), terms.node),
                    other: when,
                })?;
                Ok(())
            }
        },
    }
}

// Puts behind the rules those of the sites of a node.
fn push_cuts(
    q: &Linked,
    places: &Table,
    reach: &[usize],
    may: &[Items<bool>],
    node: usize,
    rules: &mut Items<Rule>,
) -> Result<(), AllocError>
    requires { node < length places.now }
    ensures { OnOk result (rules.new ≡ rules.old ++ cuts_to q.now places.now reach.now (may_by may.now) node (length (sites_by (template_of q.now node)))) }
{
    let count = sites(q, node).len();
    for site in 0..count {
        push_cut(q, places, reach, may, node, site, rules)?;
    }
    Ok(())
}

// The rule of a decision.
fn decided(always: usize, never: usize, reach: &[usize], node: usize, way: Decision2) -> Rule
    ensures { result ≡ decided always never reach.now (node, way) }
{
    Rule {
        when: always,
        negated: match way {
            Decision2::Must => false,
            Decision2::Avoid => true,
        },
        one: number_at(reach, node),
        other: never,
    }
}

/// The rules of a question: each node that is reached ends or fails, none passes a site without a node that may not be passed, and the
/// decisions of the piece are kept.
///
/// `places` has for each node of the tree where the copies of its formula's nodes are, `reach` the bool that says that it is reached,
/// and `may` for each of its sites whether that may be passed where there is no node; `always` and `never` are bools that are true and
/// false. The piece names nodes by their numbers in the tree. `AllocError` comes where memory runs out.
pub fn rules_of(
    alloc: Global,
    q: &Linked,
    places: &Table,
    reach: &[usize],
    may: &[Items<bool>],
    always: usize,
    never: usize,
    piece: &[(usize, Decision2)],
) -> Result<Items<Rule>, AllocError>
    requires { length places.now ≡ length q.now.tree }
    ensures { IfOk result (λ rules. rules ≡ rules_of q.now places.now reach.now (may_by may.now) always never piece.now) }
{
    let mut rules = Items::new(alloc);
    for node in 0..q.tree.len() {
        push_over(q, places, reach, node, &mut rules)?;
        push_cuts(q, places, reach, may, node, &mut rules)?;
    }
    for decision in piece {
        rules.push(decided(always, never, reach, decision.0, decision.1))?;
    }
    Ok(rules)
}
