//! Nets, and how they grow.

ghost use Rattle.std.specs.Prelude.{◌≡◌, ℕ, List, Bool, true, false, ◌+◌, ◌^◌, ◌<◌, ◌≤◌, [], ◌∷◌, ◌++◌, length, IfOk, OnOk, OnErr, IsTrue};
ghost use Rattle.gate_net.specs.Net.{IsKept, are_lower, gate_value, is_lower, value, values};

use crate::folding::{carried, folded};
use std::alloc::{AllocError, Global};

/// The most wires that a net has.
pub const MOST_WIRES: usize = 1 << 62;

/// A gate, over wires of lower numbers than its own.
#[derive(Clone, Copy, PartialEq, Eq, Debug)]
pub enum NetGate {
    /// False, whatever the inputs are.
    False,
    /// True, whatever the inputs are.
    True,
    /// True where both wires are.
    And { a: usize, b: usize },
    /// True where exactly one of the wires is.
    Xor { a: usize, b: usize },
    /// What `yes` carries where `pick` is true, and else what `no` carries.
    Mux { pick: usize, yes: usize, no: usize },
}

/// A net. Its wires are the inputs, numbered from 0, and then the gates in the order of the list.
#[derive(Drop)]
pub struct Net {
    /// How many inputs there are.
    pub inputs: usize,
    /// The gates. Each names wires of lower numbers than its own.
    pub gates: Vec<NetGate>,
    /// The wire that the net is about.
    pub root: usize,
    pub ghost lower: { IsTrue (are_lower inputs gates.items) },
    pub ghost root_in_range: { root < inputs + length gates.items },
    pub ghost few: { inputs + length gates.items ≤ 2 ^ 62 },
}

impl Net {
    /// A net of so many inputs with the two constants as its gates, first false and then true. Its root is the first.
    ///
    /// `AllocError` comes where memory runs out; so many inputs that the wires would be more than `MOST_WIRES` count as
    /// that.
    pub fn new(alloc: Global, inputs: usize) -> Result<Net, AllocError>
        ensures inputs { IfOk result (λ n. n.inputs ≡ inputs) }
        ensures gates { IfOk result (λ n. n.gates.items ≡ NetGate.False ∷ NetGate.True ∷ []) }
        ensures root { IfOk result (λ n. n.root ≡ inputs) }
        ensures never { IfOk result (λ n. (ins : List Bool) → length ins ≡ inputs → value ins n.gates.items inputs ≡ false) }
        ensures always { IfOk result (λ n. (ins : List Bool) → length ins ≡ inputs → value ins n.gates.items (inputs + 1) ≡ true) }
    {
        if inputs > MOST_WIRES - 2 {
            return Err(AllocError);
        }
        let mut gates = Vec::new(alloc);
        gates.push(NetGate::False)?;
        gates.push(NetGate::True)?;
        Ok(Net {
            inputs,
            gates,
            root: inputs,
        })
    }

    /// How many wires there are.
    pub fn wires(&self) -> usize
        ensures { result ≡ self.now.inputs + length self.now.gates.items }
    {
        self.inputs + self.gates.len()
    }

    /// Answers the number of a wire that carries what this gate would, whatever the inputs are: the gate is added, or
    /// an earlier wire is told where a constant or two equal wires make the gate needless. The gate has to name wires
    /// of the net.
    ///
    /// All wires carry what they did. `AllocError` comes where memory runs out, and the net is then as before; where
    /// there are `MOST_WIRES` wires already, that counts as the same.
    pub fn add(&mut self, gate: NetGate) -> Result<usize, AllocError>
        requires { IsTrue (is_lower (self.old.inputs + length self.old.gates.items) gate) }
        ensures inputs { self.new.inputs ≡ self.old.inputs }
        ensures root { self.new.root ≡ self.old.root }
        ensures grows { length self.old.gates.items ≤ length self.new.gates.items }
        ensures count { length self.new.gates.items ≤ length self.old.gates.items + 1 }
        ensures kept { IsKept self.old.inputs self.old.gates.items self.new.gates.items }
        ensures wire { IfOk result (λ k. k < self.new.inputs + length self.new.gates.items) }
        ensures value { IfOk result (λ k. (ins : List Bool) → length ins ≡ self.old.inputs → value ins self.new.gates.items k ≡ gate_value (values ins self.old.gates.items) gate) }
        ensures err { OnErr result (self.new.gates.items ≡ self.old.gates.items) }
    {
        if let Some(wire) = folded(self, gate) {
            return Ok(wire);
        }
        let wire = self.wires();
        if wire >= MOST_WIRES {
            return Err(AllocError);
        }
        self.gates.push(gate)?;
        Ok(wire)
    }

    /// Makes another wire the root.
    pub fn set_root(&mut self, root: usize)
        requires { root < self.old.inputs + length self.old.gates.items }
        ensures root { self.new.root ≡ root }
        ensures inputs { self.new.inputs ≡ self.old.inputs }
        ensures gates { self.new.gates.items ≡ self.old.gates.items }
    {
        self.root = root;
    }

    /// What every wire carries for these inputs, in the order of the wires.
    pub fn evaluate(&self, alloc: Global, inputs: &[bool]) -> Result<Vec<bool>, AllocError>
        requires { length inputs.now ≡ self.now.inputs }
        ensures { IfOk result (λ v. v.items ≡ values inputs.now self.now.gates.items) }
    {
        let mut wires = Vec::new(alloc);
        wires.extend_from_slice(inputs)?;
        for gate in &self.gates {
            let next = carried(wires.as_slice(), *gate);
            wires.push(next)?;
        }
        Ok(wires)
    }
}
