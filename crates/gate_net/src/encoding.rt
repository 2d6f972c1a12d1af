//! The clauses of a net: each gate is tied to its wires by the clauses of Tseitin's encoding (On the complexity of
//! derivation in propositional calculus, 1968), and the root is asked for.

ghost use Rattle.std.specs.Prelude.{◌≡◌, ℕ, List, Bool, true, false, ◌+◌, ◌*◌, ◌/◌, ◌^◌, ◌<◌, ◌≤◌, ◌↔◌, [], ◌∷◌, ◌++◌, ◌&&◌, length, IfOk, OnOk, IsTrue, if◌then◌else◌};
ghost use Rattle.cnf_form.specs.Literal.{Satisfiable, Satisfies};
ghost use Rattle.gate_net.specs.Net.{gate_value, is_lower, value, values, wire, xor};
ghost use Rattle.gate_net.specs.Encoding.{CanBeTrue, Encodes, IsRunOf, SatisfiableWith, Ties};

use crate::net::{Net, NetGate};
use cnf_form::{Clause, Cnf, Lit};
use std::alloc::{AllocError, Global};

// Adds the clause of one literal.
fn add_one(alloc: Global, cnf: &mut Cnf, p: Lit) -> Result<(), AllocError>
    requires { p / 2 < cnf.old.variables }
    ensures variables { cnf.new.variables ≡ cnf.old.variables }
    ensures clauses { OnOk result (cnf.new.clauses ≡ cnf.old.clauses ++ (p ∷ []) ∷ []) }
{
    cnf.push(Clause::from_slice(alloc, &[p])?)
}

// Adds the clause of two literals.
fn add_two(alloc: Global, cnf: &mut Cnf, p: Lit, q: Lit) -> Result<(), AllocError>
    requires p { p / 2 < cnf.old.variables }
    requires q { q / 2 < cnf.old.variables }
    ensures variables { cnf.new.variables ≡ cnf.old.variables }
    ensures clauses { OnOk result (cnf.new.clauses ≡ cnf.old.clauses ++ (p ∷ q ∷ []) ∷ []) }
{
    cnf.push(Clause::from_slice(alloc, &[p, q])?)
}

// Adds the clause of three literals.
fn add_three(alloc: Global, cnf: &mut Cnf, p: Lit, q: Lit, r: Lit) -> Result<(), AllocError>
    requires p { p / 2 < cnf.old.variables }
    requires q { q / 2 < cnf.old.variables }
    requires r { r / 2 < cnf.old.variables }
    ensures variables { cnf.new.variables ≡ cnf.old.variables }
    ensures clauses { OnOk result (cnf.new.clauses ≡ cnf.old.clauses ++ (p ∷ q ∷ r ∷ []) ∷ []) }
{
    cnf.push(Clause::from_slice(alloc, &[p, q, r])?)
}

// Makes the wire false.
fn tie_false(alloc: Global, cnf: &mut Cnf, to: usize) -> Result<(), AllocError>
    requires to { to < cnf.old.variables }
    requires few { cnf.old.variables ≤ 2 ^ 62 }
    ensures variables { cnf.new.variables ≡ cnf.old.variables }
    ensures count { OnOk result (length cnf.new.clauses ≤ length cnf.old.clauses + 4) }
    ensures ties { OnOk result (Ties cnf.old.clauses cnf.new.clauses (λ v. wire v to ≡ false)) }
{
    let off = Lit::negative(to);
    add_one(alloc, cnf, off)?;
    Ok(())
}

// Makes the wire true.
fn tie_true(alloc: Global, cnf: &mut Cnf, to: usize) -> Result<(), AllocError>
    requires to { to < cnf.old.variables }
    requires few { cnf.old.variables ≤ 2 ^ 62 }
    ensures variables { cnf.new.variables ≡ cnf.old.variables }
    ensures count { OnOk result (length cnf.new.clauses ≤ length cnf.old.clauses + 4) }
    ensures ties { OnOk result (Ties cnf.old.clauses cnf.new.clauses (λ v. wire v to ≡ true)) }
{
    let on = Lit::positive(to);
    add_one(alloc, cnf, on)?;
    Ok(())
}

// Makes the wire true exactly where both others are.
fn tie_and(alloc: Global, cnf: &mut Cnf, to: usize, a: usize, b: usize) -> Result<(), AllocError>
    requires to { to < cnf.old.variables }
    requires a { a < cnf.old.variables }
    requires b { b < cnf.old.variables }
    requires few { cnf.old.variables ≤ 2 ^ 62 }
    ensures variables { cnf.new.variables ≡ cnf.old.variables }
    ensures count { OnOk result (length cnf.new.clauses ≤ length cnf.old.clauses + 4) }
    ensures ties { OnOk result (Ties cnf.old.clauses cnf.new.clauses (λ v. wire v to ≡ (wire v a && wire v b))) }
{
    let on = Lit::positive(to);
    let off = Lit::negative(to);
    let a_on = Lit::positive(a);
    let a_off = Lit::negative(a);
    let b_on = Lit::positive(b);
    let b_off = Lit::negative(b);
    add_two(alloc, cnf, off, a_on)?;
    add_two(alloc, cnf, off, b_on)?;
    add_three(alloc, cnf, on, a_off, b_off)?;
    Ok(())
}

// Makes the wire true exactly where one of the others is.
fn tie_xor(alloc: Global, cnf: &mut Cnf, to: usize, a: usize, b: usize) -> Result<(), AllocError>
    requires to { to < cnf.old.variables }
    requires a { a < cnf.old.variables }
    requires b { b < cnf.old.variables }
    requires few { cnf.old.variables ≤ 2 ^ 62 }
    ensures variables { cnf.new.variables ≡ cnf.old.variables }
    ensures count { OnOk result (length cnf.new.clauses ≤ length cnf.old.clauses + 4) }
    ensures ties { OnOk result (Ties cnf.old.clauses cnf.new.clauses (λ v. wire v to ≡ xor (wire v a) (wire v b))) }
{
    let on = Lit::positive(to);
    let off = Lit::negative(to);
    let a_on = Lit::positive(a);
    let a_off = Lit::negative(a);
    let b_on = Lit::positive(b);
    let b_off = Lit::negative(b);
    add_three(alloc, cnf, off, a_on, b_on)?;
    add_three(alloc, cnf, off, a_off, b_off)?;
    add_three(alloc, cnf, on, a_off, b_on)?;
    add_three(alloc, cnf, on, a_on, b_off)?;
    Ok(())
}

// Makes the wire carry what `yes` does where `pick` is true, and else what `other` does.
fn tie_mux(
    alloc: Global,
    cnf: &mut Cnf,
    to: usize,
    pick: usize,
    one: usize,
    other: usize,
) -> Result<(), AllocError>
    requires to { to < cnf.old.variables }
    requires pick { pick < cnf.old.variables }
    requires one { one < cnf.old.variables }
    requires other { other < cnf.old.variables }
    requires few { cnf.old.variables ≤ 2 ^ 62 }
    ensures variables { cnf.new.variables ≡ cnf.old.variables }
    ensures count { OnOk result (length cnf.new.clauses ≤ length cnf.old.clauses + 4) }
    ensures ties { OnOk result (Ties cnf.old.clauses cnf.new.clauses (λ v. wire v to ≡ (if wire v pick then wire v one else wire v other))) }
{
    let on = Lit::positive(to);
    let off = Lit::negative(to);
    let pick_on = Lit::positive(pick);
    let pick_off = Lit::negative(pick);
    let one_on = Lit::positive(one);
    let one_off = Lit::negative(one);
    let other_on = Lit::positive(other);
    let other_off = Lit::negative(other);
    add_three(alloc, cnf, pick_off, off, one_on)?;
    add_three(alloc, cnf, pick_off, on, one_off)?;
    add_three(alloc, cnf, pick_on, off, other_on)?;
    add_three(alloc, cnf, pick_on, on, other_off)?;
    Ok(())
}

// Ties a gate's wire to what the gate carries.
fn tie_gate(alloc: Global, cnf: &mut Cnf, to: usize, gate: NetGate) -> Result<(), AllocError>
    requires to { to < cnf.old.variables }
    requires lower { IsTrue (is_lower to gate) }
    requires few { cnf.old.variables ≤ 2 ^ 62 }
    ensures variables { cnf.new.variables ≡ cnf.old.variables }
    ensures count { OnOk result (length cnf.new.clauses ≤ length cnf.old.clauses + 4) }
    ensures ties { OnOk result (Ties cnf.old.clauses cnf.new.clauses (λ v. wire v to ≡ gate_value v gate)) }
{
    match gate {
        NetGate::False => tie_false(alloc, cnf, to),
        NetGate::True => tie_true(alloc, cnf, to),
        NetGate::And { a, b } => tie_and(alloc, cnf, to, a, b),
        NetGate::Xor { a, b } => tie_xor(alloc, cnf, to, a, b),
        NetGate::Mux { pick, yes, no } => tie_mux(alloc, cnf, to, pick, yes, no),
    }
}

// Ties all gates of the net.
fn tie_gates(alloc: Global, cnf: &mut Cnf, net: &Net) -> Result<(), AllocError>
    requires variables { cnf.old.variables ≡ net.now.inputs + length net.now.gates.items }
    requires clauses { cnf.old.clauses ≡ [] }
    ensures variables { cnf.new.variables ≡ cnf.old.variables }
    ensures count { OnOk result (length cnf.new.clauses ≤ 4 * length net.now.gates.items) }
    ensures encodes { OnOk result (Encodes net.now.inputs net.now.gates.items cnf.new.variables cnf.new.clauses) }
{
    for (i, gate) in net.gates.iter().enumerate() {
        tie_gate(alloc, cnf, net.inputs + i, *gate)?;
    }
    Ok(())
}

/// The formula of a net, with one variable for each wire: the variable of a wire has the wire's number, so the inputs
/// come first. Takes time and memory in proportion to the net. `AllocError` comes where memory runs out.
pub fn clauses(alloc: Global, net: &Net) -> Result<Cnf, AllocError>
    ensures variables { IfOk result (λ c. c.variables ≡ net.now.inputs + length net.now.gates.items) }
    ensures count { IfOk result (λ c. length c.clauses ≤ 4 * length net.now.gates.items + 4) }
    // the formula can be satisfied exactly where the root can be true
    ensures satisfiable { IfOk result (λ c. Satisfiable c.variables c.clauses ↔ CanBeTrue net.now.inputs net.now.gates.items net.now.root) }
    // with these values as its first, exactly where the root is true under them
    ensures inputs { IfOk result (λ c. (ins : List Bool) → length ins ≡ net.now.inputs → SatisfiableWith ins c.variables c.clauses ↔ (value ins net.now.gates.items net.now.root ≡ true)) }
    // and what satisfies it is what the wires carry for its first values, and makes the root true
    ensures wires { IfOk result (λ c. (v : List Bool) → length v ≡ c.variables → Satisfies v c.clauses → IsRunOf net.now.inputs net.now.gates.items net.now.root v) }
{
    let mut cnf = Cnf::new(alloc, net.wires());
    tie_gates(alloc, &mut cnf, net)?;
    tie_true(alloc, &mut cnf, net.root)?;
    Ok(cnf)
}
