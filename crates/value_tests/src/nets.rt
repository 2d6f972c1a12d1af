//! Small nets, with what their wires carry and which values satisfy their clauses.

ghost use Rattle.std.specs.Prelude.{◌≡◌, IsTrue, ◌<◌, ◌≤◌, ◌+◌, length, IfOk};
ghost use Rattle.gate_net.specs.Net.{is_lower};

use cnf_form::Cnf;
use gate_net::{Net, NetGate, clauses};
use std::alloc::{AllocError, Global};
use std::process::Abort;
use std::test::Fail;

// Three inputs, the two constants, and one gate as the root.
fn one_gate(alloc: Global, gate: NetGate) -> Result<Net, AllocError>
    requires { IsTrue (is_lower 5 gate) }
    ensures { IfOk result (λ n. n.inputs ≡ 3) }
{
    let mut net = Net::new(alloc, 3)?;
    let root = net.add(gate)?;
    net.set_root(root);
    Ok(net)
}

// Whether the values make every clause true.
fn satisfies(values: &[bool], cnf: &Cnf) -> bool {
    for clause in cnf.clauses.as_slice() {
        let mut holds = false;
        for lit in clause.as_slice() {
            let value = values.get(lit.variable()) == Some(&true);
            holds = holds || value != lit.is_negated();
        }
        if !holds {
            return false;
        }
    }
    true
}

// The root carries these values as the three inputs count up, the first input slowest, and what the wires carry
// satisfies the clauses exactly where the root is true.
fn check_table(
    rt: &impl Abort,
    alloc: Global,
    net: &Net,
    expected: [bool; 8],
) -> Result<(), AllocError>
    requires { net.now.inputs ≡ 3 }
{
    let cnf = clauses(alloc, net)?;
    for (place, wanted) in expected.iter().enumerate() {
        let inputs = [place / 4 % 2 == 1, place / 2 % 2 == 1, place % 2 == 1];
        let wires = net.evaluate(alloc, &inputs)?;
        assert_eq!(rt; wires.get(net.root), Some(wanted));
        assert_eq!(rt; satisfies(wires.as_slice(), &cnf), *wanted);
    }
    Ok(())
}

#[test]
fn gates_carry_their_tables(rt: HostRuntime) -> Result<(), Fail> {
    let alloc = rt.alloc();
    let (f, t) = (false, true);
    check_table(
        &rt,
        alloc,
        &one_gate(alloc, NetGate::False)?,
        [f, f, f, f, f, f, f, f],
    )?;
    check_table(
        &rt,
        alloc,
        &one_gate(alloc, NetGate::True)?,
        [t, t, t, t, t, t, t, t],
    )?;
    check_table(
        &rt,
        alloc,
        &one_gate(alloc, NetGate::And { a: 0, b: 1 })?,
        [f, f, f, f, f, f, t, t],
    )?;
    check_table(
        &rt,
        alloc,
        &one_gate(alloc, NetGate::Xor { a: 0, b: 2 })?,
        [f, t, f, t, t, f, t, f],
    )?;
    check_table(
        &rt,
        alloc,
        &one_gate(
            alloc,
            NetGate::Mux {
                pick: 0,
                yes: 1,
                no: 2,
            },
        )?,
        [f, t, f, t, f, f, t, t],
    )?;
    check_table(
        &rt,
        alloc,
        &one_gate(alloc, NetGate::Xor { a: 1, b: 4 })?,
        [t, t, f, f, t, t, f, f],
    )?;
    Ok(())
}

// How many lists of six values satisfy the clauses.
fn count_satisfying(cnf: &Cnf) -> u64 {
    let mut count = 0u64;
    for code in 0..64u64 {
        let values = [
            code / 32 % 2 == 1,
            code / 16 % 2 == 1,
            code / 8 % 2 == 1,
            code / 4 % 2 == 1,
            code / 2 % 2 == 1,
            code % 2 == 1,
        ];
        if satisfies(&values, cnf) {
            count = count.saturating_add(1);
        }
    }
    count
}

// Adds a gate over the first four wires.
fn added(net: &mut Net, gate: NetGate) -> Result<usize, AllocError>
    requires lower { IsTrue (is_lower 4 gate) }
    requires wires { 4 ≤ net.old.inputs + length net.old.gates.items }
    ensures wires { 4 ≤ net.new.inputs + length net.new.gates.items }
    ensures wire { IfOk result (λ k. k < net.new.inputs + length net.new.gates.items) }
{
    net.add(gate)
}

// Two inputs, the two constants, and two gates: the first is the root, and then the second.
#[test]
fn only_what_the_wires_carry_satisfies(rt: HostRuntime) -> Result<(), Fail> {
    let alloc = rt.alloc();
    let mut net = Net::new(alloc, 2)?;
    let first = added(
        &mut net,
        NetGate::Mux {
            pick: 0,
            yes: 3,
            no: 1,
        },
    )?;
    net.set_root(first);
    let second = added(&mut net, NetGate::And { a: 0, b: 1 })?;
    let one_or_both = clauses(alloc, &net)?;
    net.set_root(second);
    let both = clauses(alloc, &net)?;
    net.set_root(2);
    let never = clauses(alloc, &net)?;
    assert_eq!(rt; one_or_both.variables, 6);
    assert_eq!(rt; count_satisfying(&one_or_both), 3);
    assert_eq!(rt; count_satisfying(&both), 1);
    assert_eq!(rt; count_satisfying(&never), 0);
    Ok(())
}

// Two inputs, 0 and 1, and the constants, false as 2 and true as 3.
#[test]
fn needless_gates_are_not_added(rt: HostRuntime) -> Result<(), Fail> {
    let mut net = Net::new(rt.alloc(), 2)?;
    assert_eq!(rt; added(&mut net, NetGate::And { a: 0, b: 0 })?, 0);
    assert_eq!(rt; added(&mut net, NetGate::And { a: 3, b: 1 })?, 1);
    assert_eq!(rt; added(&mut net, NetGate::And { a: 1, b: 2 })?, 2);
    assert_eq!(rt; added(&mut net, NetGate::Xor { a: 2, b: 1 })?, 1);
    assert_eq!(rt;
        added(
            &mut net,
            NetGate::Mux {
                pick: 2,
                yes: 0,
                no: 1
            }
        )?,
        1
    );
    assert_eq!(rt;
        added(
            &mut net,
            NetGate::Mux {
                pick: 1,
                yes: 0,
                no: 0
            }
        )?,
        0
    );
    assert_eq!(rt; net.wires(), 4);
    assert_eq!(rt; added(&mut net, NetGate::Xor { a: 0, b: 3 })?, 4);
    Ok(())
}
