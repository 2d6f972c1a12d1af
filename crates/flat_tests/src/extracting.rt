//! The flat programs of small programs, written out: which procedures there are, which variables they have, their
//! blocks in order, and what each block comes from.

use crate::listing::flat_text;
use crate::programs::{
    BROKEN, CARRIED, CHANGED, COUNTED, DEEP, NESTED, ONCE, RECURSIVE, RETURNED, TWICE, program,
};
use loop_extract::extract;
use std::alloc::{AllocError, Global};
use std::test::Fail;

const COUNTED_FLAT: &[&str] = &[
    "constants () globals ()",
    "source 0 () () (bv8 bv32)",
    "block 0: l0 := 0bv8; goto 1",
    "enter 1: call 1 l0 -> l0 l1; goto 3",
    "block 3: assume Not(Ne(l0, 3bv8)); assert 0 1 false; return",
    "pass 1 0: assume Eq(l1, 0bv32); goto 2",
    "loop 0 1 (bv8) (bv8 bv32) ()",
    "block 1: goto 1 2",
    "block 2: assume Ne(l1, 3bv8); l1 := BvAdd(l1, 1bv8); goto 3",
    "leave 0: l2 := 0bv32; return",
    "again 1: call 1 l1 -> l1 l2; return",
];

const RECURSIVE_FLAT: &[&str] = &[
    "constants () globals (bv8)",
    "source 0 () () (bv8 bv32)",
    "block 0: g0 := BvAdd(g0, 1bv8); l0 := 0bv8; goto 1",
    "enter 1: call 2 l0 -> l0 l1; goto 3",
    "block 6: assume Not(Ne(l0, 3bv8)); return",
    "pass 1 0: assume Eq(l1, 0bv32); goto 2",
    "source 1 () () ()",
    "block 0: g0 := 0bv8; call 0 ->; return",
    "loop 0 1 (bv8) (bv8 bv32) ()",
    "block 1: goto 1 5",
    "block 2: assume Ne(l1, 3bv8); assert 0 1 Ne(g0, 2bv8); goto 2 3",
    "block 3: assume Eq(l1, 2bv8); call 0 ->; goto 4",
    "block 4: assume Not(Eq(l1, 2bv8)); goto 4",
    "block 5: l1 := BvAdd(l1, 1bv8); goto 6",
    "leave 0: l2 := 0bv32; return",
    "again 1: call 2 l1 -> l1 l2; return",
];

const NESTED_FLAT: &[&str] = &[
    "constants () globals ()",
    "source 0 () () (bv8 bv8 bv8 bv32)",
    "block 0: l0 := 0bv8; l2 := 0bv8; goto 1",
    "enter 1: call 1 l0 l1 l2 -> l0 l1 l2 l3; goto 3",
    "block 6: assume Not(Ne(l0, 2bv8)); assert 0 1 Ne(l2, 4bv8); return",
    "pass 1 0: assume Eq(l3, 0bv32); goto 2",
    "loop 0 1 (bv8 bv8 bv8) (bv8 bv8 bv8 bv32) ()",
    "block 1: goto 1 5",
    "block 2: assume Ne(l3, 2bv8); l4 := 0bv8; goto 2",
    "enter 3: call 2 l3 l4 l5 -> l3 l4 l5 l6; goto 4",
    "block 5: assume Not(Ne(l4, 2bv8)); l3 := BvAdd(l3, 1bv8); goto 6",
    "pass 3 0: assume Eq(l6, 0bv32); goto 3",
    "leave 0: l6 := 0bv32; return",
    "again 1: call 1 l3 l4 l5 -> l3 l4 l5 l6; return",
    "loop 0 3 (bv8 bv8 bv8) (bv8 bv8 bv8 bv32) ()",
    "block 3: goto 1 2",
    "block 4: assume Ne(l4, 2bv8); l4 := BvAdd(l4, 1bv8) l5 := BvAdd(l5, 1bv8); goto 3",
    "leave 0: l6 := 0bv32; return",
    "again 3: call 2 l3 l4 l5 -> l3 l4 l5 l6; return",
];

const DEEP_FLAT: &[&str] = &[
    "constants () globals ()",
    "source 0 (bv8) () ()",
    "block 0: assert 0 1 Ne(l0, 2bv8); call 0 BvAdd(l0, 1bv8) ->; return",
    "source 1 () () ()",
    "block 0: call 0 0bv8 ->; return",
];

const TWICE_FLAT: &[&str] = &[
    "constants () globals ()",
    "source 0 () () ()",
    "block 0: goto 1 1",
    "block 1: assert 0 1 false; return",
];

const ONCE_FLAT: &[&str] = &[
    "constants () globals ()",
    "source 0 () () ()",
    "block 0: goto 1",
    "block 1: assert 0 1 false; return",
];

const BROKEN_FLAT: &[&str] = &[
    "constants () globals ()",
    "source 0 () () (bool bv32)",
    "block 0: goto 1",
    "enter 1: call 1 l0 -> l0 l1; goto 3 4",
    "block 6: assert 0 1 false; return",
    "pass 1 0: assume Eq(l1, 0bv32); goto 2",
    "pass 1 1: assume Eq(l1, 1bv32); goto 2",
    "loop 0 1 (bool) (bool bv32) ()",
    "block 1: goto 1 5",
    "block 2: goto 2 3",
    "block 3: assume l1; goto 6",
    "block 4: assume Not(l1); goto 4",
    "block 5: havoc l1; goto 7",
    "leave 0: l2 := 0bv32; return",
    "leave 1: l2 := 1bv32; return",
    "again 1: call 1 l1 -> l1 l2; return",
];

const RETURNED_FLAT: &[&str] = &[
    "constants () globals ()",
    "source 0 () () (bv32)",
    "block 0: goto 1",
    "enter 1: call 1 -> l0; goto 3 4",
    "block 3: assert 0 1 false; return",
    "pass 1 0: assume Eq(l0, 0bv32); goto 2",
    "pass 1 1: assume Eq(l0, 1bv32); return",
    "loop 0 1 () (bv32) ()",
    "block 1: goto 1 2",
    "block 2: goto 3",
    "leave 0: l0 := 0bv32; return",
    "leave 1: l0 := 1bv32; return",
    "again 1: call 1 -> l0; return",
];

const CARRIED_FLAT: &[&str] = &[
    "constants () globals ()",
    "source 0 (bool) (bv8) (bv8 bv32)",
    "block 0: goto 1",
    "enter 1: call 1 l0 l1 l2 -> l0 l1 l2 l3; goto 3",
    "block 3: assume Not(l0); return",
    "pass 1 0: assume Eq(l3, 0bv32); goto 2",
    "loop 0 1 (bool bv8 bv8) (bool bv8 bv8 bv32) ()",
    "block 1: goto 1 2",
    "block 2: assume l3; l4 := l5; goto 3",
    "leave 0: l6 := 0bv32; return",
    "again 1: call 1 l3 l4 l5 -> l3 l4 l5 l6; return",
];

const CHANGED_FLAT: &[&str] = &[
    "constants (bool bv8) 1 c0 globals (bv8 bv8)",
    "source 0 () () (bv8)",
    "block 0: l0 := g0; return",
    "source 1 () (bv8) ()",
    "block 0: l0 := g1; return",
    "source 2 () () ()",
    "block 0: call 1 -> g0; return",
    "source 3 () () ()",
    "block 0: havoc g1; return",
    "source 4 () () (bv32)",
    "block 0: goto 1",
    "enter 1: call 5 -> l0; goto 3",
    "block 3: call 0 ->; return",
    "pass 1 0: assume Eq(l0, 0bv32); goto 2",
    "loop 4 1 () (bv32) ()",
    "block 1: goto 1 2",
    "block 2: call 2 ->; g1 := g0; goto 3",
    "leave 0: l0 := 0bv32; return",
    "again 1: call 5 -> l0; return",
];

// The lines, one below the other.
fn joined(alloc: Global, lines: &[&str]) -> Result<String, AllocError> {
    let mut text = String::new(alloc);
    for line in lines {
        text.push_str(line)?;
        text.push_str("\n")?;
    }
    Ok(text)
}

// The text of the flat program of a text.
fn listing(alloc: Global, text: &[u8]) -> Result<String, AllocError> {
    let prog = program(alloc, text)?;
    let extracted = extract(alloc, &prog)?;
    flat_text(alloc, &extracted)
}

#[test]
fn loops_become_procedures(rt: HostRuntime) -> Result<(), Fail> {
    for (text, lines) in [
        (COUNTED, COUNTED_FLAT),
        (RECURSIVE, RECURSIVE_FLAT),
        (NESTED, NESTED_FLAT),
        (DEEP, DEEP_FLAT),
        (TWICE, TWICE_FLAT),
        (ONCE, ONCE_FLAT),
        (BROKEN, BROKEN_FLAT),
        (RETURNED, RETURNED_FLAT),
        (CARRIED, CARRIED_FLAT),
        (CHANGED, CHANGED_FLAT),
    ] {
        let shown = listing(rt.alloc(), text)?;
        let wanted = joined(rt.alloc(), lines)?;
        assert_eq!(rt; shown.as_str(), wanted.as_str());
    }
    Ok(())
}

#[test]
fn each_loop_adds_a_procedure(rt: HostRuntime) -> Result<(), Fail> {
    for (text, count) in [(COUNTED, 2), (RECURSIVE, 3), (NESTED, 3), (DEEP, 2)] {
        let prog = program(rt.alloc(), text)?;
        let extracted = extract(rt.alloc(), &prog)?;
        assert_eq!(rt; extracted.flat.procs().len(), count);
    }
    Ok(())
}
