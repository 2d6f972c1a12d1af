//! Terms without maps, turned into nets: one word of wires for each node.
ghost use Rattle.std.specs.Prelude.{◌≡◌, ◌↔◌, ℕ, List, Bool, ◌+◌, ◌*◌, ◌<◌, ◌≤◌, [], ◌∷◌, length, nat_eq, slice_get, Some, IfOk, IsTrue, if◌then◌else◌};
ghost use Rattle.hy_term.specs.TermSorts.{are_plain, is_formula};
ghost use Rattle.hy_term.specs.Meaning.{CanHold};
ghost use Rattle.hy_term.specs.Variables.{variables};
ghost use Rattle.gate_net.specs.Encoding.{CanBeTrue};
ghost use Rattle.bit_blast.specs.Words.{AreWires, Grows, IsWire, IsWord, Means, carried, word};
ghost use Rattle.bit_blast.specs.Blasted.{IsNetOf, input_count, most_gates, reach};
ghost use Rattle.bit_blast.specs.Standing.{CarriesNode, HasConstants, Stands, TermLaws, starts_from};

use crate::bitwise::choose;
use crate::literal::literal;
use crate::operator::{binary, unary};
use crate::places::{Places, places_of, variable_word};
use gate_net::Net;
use hy_term::{
    Reduced, TermNode, Terms, each_node_has_its_sort, each_node_has_its_value,
    each_value_has_its_sort, lists_are_assignments, plain_variables_are_scalars,
    variables_are_listed, variables_decide_fits,
};
use sqlite_items::Items;
use std::alloc::{AllocError, Global};

// The laws of terms.
pub(crate) fn term_laws()
    ensures { TermLaws }
{
    each_node_has_its_value();
    each_node_has_its_sort();
    each_value_has_its_sort();
    variables_are_listed();
    plain_variables_are_scalars();
    variables_decide_fits();
    lists_are_assignments();
}

// The wires of a node.
fn word_of(words: &Items<Items<usize>>, node: usize) -> &[usize]
    requires { node < length words.now }
    ensures { slice_get words.now node ≡ Some result.now }
{
    match words.get(node) {
        Some(wires) => wires.as_slice(),
        None => unreachable!(),
    }
}

// The word `yes` where the one bit of `cond` is true, and else the word `no`.
fn choice(
    alloc: Global,
    net: &mut Net,
    cond: &[usize],
    yes: &[usize],
    no: &[usize],
) -> Result<Vec<usize>, AllocError>
    requires cond { IsWord net.old 1 cond.now }
    requires same { length no.now ≡ length yes.now }
    requires yes { AreWires net.old yes.now }
    requires no { AreWires net.old no.now }
    ensures grows { Grows net.old net.new (length yes.now) }
    ensures word { IfOk result (λ out. IsWord net.new (length yes.now) out.items) }
    ensures value { IfOk result (λ out. Means net.new out.items (λ ins. if nat_eq (word ins net.old cond.now) 1 then word ins net.old yes.now else word ins net.old no.now)) }
{
    let out = choose(alloc, net, cond[0], yes, no)?;
    Ok(out)
}

// The wires of the k-th node, from those of the nodes before it.
fn node_word(
    alloc: Global,
    net: &mut Net,
    terms: &Terms,
    places: &Places,
    words: &Items<Items<usize>>,
    k: usize,
    node: &TermNode,
) -> Result<Vec<usize>, AllocError>
    requires node { slice_get terms.now.nodes k ≡ Some node.now }
    requires plain { IsTrue (are_plain terms.now.nodes) }
    requires count { length words.now ≡ k }
    requires stands { Stands terms.now.nodes net.old words.now }
    requires variables { places.now.variables ≡ variables terms.now.nodes }
    requires starts { places.now.starts ≡ starts_from 0 places.now.variables }
    ensures grows { Grows net.old net.new (64 * (reach terms.now.nodes k node.now * reach terms.now.nodes k node.now)) }
    ensures carries { IfOk result (λ out. CarriesNode terms.now.nodes net.new k out.items) }
{
    term_laws();
    let _nodes = terms.nodes();
    let own = terms.sort_of(k);
    own.keeps_widths();
    match *node {
        TermNode::Lit(atom) => {
            let word = literal(alloc, net, atom)?;
            Ok(word)
        }
        TermNode::Variable { number, sort } => {
            let word = variable_word(alloc, net, places, number, sort)?;
            Ok(word)
        }
        TermNode::Unary { op, child } => {
            let word = unary(alloc, net, op, word_of(words, child))?;
            Ok(word)
        }
        TermNode::Binary { op, left, right } => {
            let word = binary(alloc, net, op, word_of(words, left), word_of(words, right))?;
            Ok(word)
        }
        TermNode::If { cond, yes, no } => {
            let word = choice(
                alloc,
                net,
                word_of(words, cond),
                word_of(words, yes),
                word_of(words, no),
            )?;
            Ok(word)
        }
        TermNode::ZeroMap { .. } => unreachable!(),
        TermNode::Select { .. } => unreachable!(),
        TermNode::Store { .. } => unreachable!(),
    }
}

// The wires of all nodes, by number, behind those of a net with the bits of the variables' values as its inputs.
fn all_words(
    alloc: Global,
    net: &mut Net,
    terms: &Terms,
    places: &Places,
) -> Result<Items<Items<usize>>, AllocError>
    requires plain { IsTrue (are_plain terms.now.nodes) }
    requires inputs { net.old.inputs ≡ input_count (variables terms.now.nodes) }
    requires constants { HasConstants net.old }
    requires variables { places.now.variables ≡ variables terms.now.nodes }
    requires starts { places.now.starts ≡ starts_from 0 places.now.variables }
    ensures grows { Grows net.old net.new (most_gates terms.now.nodes) }
    ensures stands { IfOk result (λ words. Stands terms.now.nodes net.new words) }
    ensures count { IfOk result (λ words. length words ≡ length terms.now.nodes) }
{
    term_laws();
    let mut words = Items::new(alloc);
    for (k, node) in terms.nodes().iter().enumerate() {
        let word = node_word(alloc, net, terms, places, &words, k, node)?;
        words.push(Items::from_vec(word))?;
    }
    Ok(words)
}

// The net of terms without maps.
fn net_of(alloc: Global, terms: &Terms) -> Result<Net, AllocError>
    requires { IsTrue (are_plain terms.now.nodes) }
    ensures net { IfOk result (λ n. IsNetOf terms.now n) }
    ensures can { IfOk result (λ n. CanBeTrue n.inputs n.gates.items n.root ↔ CanHold terms.now) }
    ensures count { IfOk result (λ n. length n.gates.items ≤ 2 + most_gates terms.now.nodes) }
{
    term_laws();
    let places = places_of(alloc, terms.nodes())?;
    let mut net = Net::new(alloc, places.count)?;
    let words = all_words(alloc, &mut net, terms, &places)?;
    let word = word_of(&words, terms.root());
    let root = word[0];
    net.set_root(root);
    Ok(net)
}

/// The net of terms without maps. Its inputs are the bits of the variables' values, one variable behind the other,
/// ascending by number, each lowest bit first, a bool as one bit; for each choice of those values its root carries
/// whether the terms hold. Each node takes at most 64 w^2 gates, where w is the greatest width of the node and its
/// children, a bool as 1; the two constants come on top.
///
/// `AllocError` comes where memory runs out; so many bits or gates that they can't be counted count as that.
pub fn blast(alloc: Global, terms: &Reduced) -> Result<Net, AllocError>
    ensures net { IfOk result (λ n. IsNetOf terms.now n) }
    ensures can { IfOk result (λ n. CanBeTrue n.inputs n.gates.items n.root ↔ CanHold terms.now) }
    ensures count { IfOk result (λ n. length n.gates.items ≤ 2 + most_gates terms.now.nodes) }
{
    let net = net_of(alloc, terms.terms())?;
    Ok(net)
}
