//! What a gate carries, and the gates that an earlier wire makes needless.

ghost use Rattle.std.specs.Prelude.{◌≡◌, ℕ, List, Bool, ◌+◌, ◌<◌, length, IfSome, IsTrue};
ghost use Rattle.gate_net.specs.Net.{Carries, IsConstant, gate_value, is_lower};

use crate::net::{Net, NetGate};

// What a gate carries where the lower wires carry these values.
pub(crate) fn carried(wires: &[bool], gate: NetGate) -> bool
    requires { IsTrue (is_lower (length wires.now) gate) }
    ensures { result ≡ gate_value wires.now gate }
{
    match gate {
        NetGate::False => false,
        NetGate::True => true,
        NetGate::And { a, b } => wires[a] && wires[b],
        NetGate::Xor { a, b } => wires[a] != wires[b],
        NetGate::Mux { pick, yes, no } => { if wires[pick] { wires[yes] } else { wires[no] } }
    }
}

// What the wire carries whatever the inputs are, where its gate is a constant.
fn constant(net: &Net, wire: usize) -> Option<bool>
    requires { wire < net.now.inputs + length net.now.gates.items }
    ensures { IfSome result (λ b. IsConstant net.now.inputs net.now.gates.items wire b) }
{
    if wire < net.inputs {
        return None;
    }
    match net.gates[wire - net.inputs] {
        NetGate::False => Some(false),
        NetGate::True => Some(true),
        NetGate::And { .. } => None,
        NetGate::Xor { .. } => None,
        NetGate::Mux { .. } => None,
    }
}

// The wire that carries what an And of these would.
fn folded_and(net: &Net, a: usize, b: usize) -> Option<usize>
    requires a { a < net.now.inputs + length net.now.gates.items }
    requires b { b < net.now.inputs + length net.now.gates.items }
    ensures { IfSome result (λ k. Carries net.now.inputs net.now.gates.items k (NetGate.And a b)) }
{
    if a == b {
        return Some(a);
    }
    match constant(net, a) {
        Some(true) => return Some(b),
        Some(false) => return Some(a),
        None => {}
    }
    match constant(net, b) {
        Some(true) => Some(a),
        Some(false) => Some(b),
        None => None,
    }
}

// The wire that carries what an Xor of these would.
fn folded_xor(net: &Net, a: usize, b: usize) -> Option<usize>
    requires a { a < net.now.inputs + length net.now.gates.items }
    requires b { b < net.now.inputs + length net.now.gates.items }
    ensures { IfSome result (λ k. Carries net.now.inputs net.now.gates.items k (NetGate.Xor a b)) }
{
    if let Some(false) = constant(net, a) {
        return Some(b);
    }
    match constant(net, b) {
        Some(false) => Some(a),
        Some(true) => None,
        None => None,
    }
}

// The wire that carries what a Mux of these would.
fn folded_mux(net: &Net, pick: usize, one: usize, other: usize) -> Option<usize>
    requires pick { pick < net.now.inputs + length net.now.gates.items }
    requires one { one < net.now.inputs + length net.now.gates.items }
    requires other { other < net.now.inputs + length net.now.gates.items }
    ensures { IfSome result (λ k. Carries net.now.inputs net.now.gates.items k (NetGate.Mux pick one other)) }
{
    if one == other {
        return Some(one);
    }
    match constant(net, pick) {
        Some(true) => Some(one),
        Some(false) => Some(other),
        None => None,
    }
}

// A wire of the net that carries what the gate would, where a constant or two equal wires show one.
pub(crate) fn folded(net: &Net, gate: NetGate) -> Option<usize>
    requires { IsTrue (is_lower (net.now.inputs + length net.now.gates.items) gate) }
    ensures { IfSome result (λ k. Carries net.now.inputs net.now.gates.items k gate) }
{
    match gate {
        NetGate::False => None,
        NetGate::True => None,
        NetGate::And { a, b } => folded_and(net, a, b),
        NetGate::Xor { a, b } => folded_xor(net, a, b),
        NetGate::Mux { pick, yes, no } => folded_mux(net, pick, yes, no),
    }
}
