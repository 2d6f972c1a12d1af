//! Programs with loops, branches, recursion and calls, and the status and the names of their runs on lists of
//! choices.

use crate::whole_programs::{COUNTED, DRIVER, NESTED, RECURSIVE, program};
use hy_val::{Atom, BitVec, MapValue, Scalar, Value, Width};
use sqlite_items::Items;
use src_run::{Choice, Status, asked, replay};
use std::alloc::{AllocError, Global};
use std::test::Fail;

// Constants that no axiom allows.
const NO_CONSTANT: &[u8] =
    b"const c: bool;\naxiom c; axiom !c;\nprocedure main() { assert false; }\n";

// An assert that is false before an assume that is.
const FALSE_TWICE: &[u8] = b"procedure main() { assert false; assume false; }\n";

// A recursion whose third frame fails.
const DEEP: &[u8] =
    b"function {:bvbuiltin \"bvadd\"} ADD(a: bv8, b: bv8) returns (r: bv8);\nprocedure r(n: bv8) { assert n != 2bv8; call r(ADD(n, 1bv8)); }\nprocedure main() { call r(0bv8); }\n";

// Outs that are taken in order, and an assignment that swaps.
const SWAPPED: &[u8] =
    b"var g: bv8;\nprocedure two() returns (a: bv8, b: bool) { var c: bv4; a := 7bv8; b := c == 3bv4; }\nprocedure main() modifies g; {\n  var x: bv8; var y: bool; var z: bv8;\n  call x, y := two();\n  assume y;\n  z := 9bv8;\n  x, z := z, x;\n  g := x;\n  havoc y, z;\n  assert g == 9bv8 && y && z != 5bv8;\n}\n";

// A choice, short enough for tables.
#[derive(Clone, Copy)]
enum Short {
    // A bool.
    Bool(bool),
    // So many bits, as a number.
    Bits(u32, u64),
    // The map from 32 to 8 bits that is zero everywhere.
    Zeros,
    // A target.
    Go(u32),
}

fn bits_value(width: u32, bits: u64) -> Result<Value, AllocError> {
    let width = Width::try_new(width).ok_or(AllocError)?;
    let bits = BitVec::try_new(width, bits).ok_or(AllocError)?;
    Ok(Value::Atom(Atom::bits(bits)))
}

fn zeros(alloc: Global) -> Value {
    let index = Scalar::bits(Width::new(32));
    Value::Map(MapValue::zero(alloc, index, Scalar::bits(Width::new(8))))
}

fn choice(alloc: Global, short: Short) -> Result<Choice, AllocError> {
    match short {
        Short::Bool(value) => Ok(Choice::Val(Value::Atom(Atom::bool(value)))),
        Short::Bits(width, bits) => Ok(Choice::Val(bits_value(width, bits)?)),
        Short::Zeros => Ok(Choice::Val(zeros(alloc))),
        Short::Go(place) => Ok(Choice::Go(place)),
    }
}

fn choices(alloc: Global, given: &[Short]) -> Result<Items<Choice>, AllocError> {
    let mut all = Items::new(alloc);
    for short in given {
        all.push(choice(alloc, *short)?)?;
    }
    Ok(all)
}

// The status of the run of a procedure of a text on these choices.
fn status(
    alloc: Global,
    text: &[u8],
    entry: u32,
    bound: u32,
    given: &[Short],
) -> Result<Status, AllocError> {
    let prog = program(alloc, text)?;
    if entry as usize >= prog.procs().len() {
        return Err(AllocError);
    }
    let all = choices(alloc, given)?;
    replay(alloc, &prog, entry, bound, all.as_slice())
}

// The names of the choices of such a run, each with a space behind it, and `-` for a target.
fn names(
    alloc: Global,
    text: &[u8],
    entry: u32,
    bound: u32,
    given: &[Short],
) -> Result<Vec<u8>, AllocError> {
    let prog = program(alloc, text)?;
    if entry as usize >= prog.procs().len() {
        return Err(AllocError);
    }
    let all = choices(alloc, given)?;
    let found = asked(alloc, &prog, entry, bound, all.as_slice())?;
    let mut shown = Vec::new(alloc);
    for name in found.as_slice() {
        match name {
            Some(bytes) => shown.extend_from_slice(bytes.as_slice())?,
            None => shown.push(b'-')?,
        }
        shown.push(b' ')?;
    }
    Ok(shown)
}

// The same of the loop that counts to three.
fn counted(alloc: Global, bound: u32, given: &[Short]) -> Result<Status, AllocError> {
    status(alloc, COUNTED, 0, bound, given)
}

#[test]
fn a_loop_fails_within_its_bound(rt: HostRuntime) -> Result<(), Fail> {
    let alloc = rt.alloc();
    let all = [
        Short::Bits(8, 0),
        Short::Go(0),
        Short::Go(0),
        Short::Go(0),
        Short::Go(1),
        Short::Go(0),
    ];
    let failed = Status::Failed { proc: 0, assert: 1 };
    assert_eq!(rt; counted(alloc, 3, &all[..5])?, failed);
    assert_eq!(rt; counted(alloc, 3, &all)?, Status::BadChoice { index: 5 });
    assert_eq!(rt;
        counted(alloc, 2, &all[..5])?,
        Status::BadChoice { index: 4 }
    );
    assert_eq!(rt; counted(alloc, 2, &all[..4])?, Status::Cut);
    assert_eq!(rt; counted(alloc, 2, &all[..3])?, Status::Going);
    assert_eq!(rt; counted(alloc, 2, &[])?, Status::Going);
    let shown = names(alloc, COUNTED, 0, 3, &all)?;
    assert_eq!(rt; shown.as_slice(), b"i - - - - ".as_slice());
    Ok(())
}

#[test]
fn a_bad_choice_is_named(rt: HostRuntime) -> Result<(), Fail> {
    let alloc = rt.alloc();
    let wrong_sort = [Short::Bits(16, 0)];
    assert_eq!(rt;
        counted(alloc, 3, &wrong_sort)?,
        Status::BadChoice { index: 0 }
    );
    let no_value = [Short::Go(0), Short::Go(0)];
    assert_eq!(rt;
        counted(alloc, 3, &no_value)?,
        Status::BadChoice { index: 0 }
    );
    let past = [Short::Bits(8, 0), Short::Go(2)];
    assert_eq!(rt; counted(alloc, 3, &past)?, Status::BadChoice { index: 1 });
    let no_target = [Short::Bits(8, 0), Short::Bool(true)];
    assert_eq!(rt;
        counted(alloc, 3, &no_target)?,
        Status::BadChoice { index: 1 }
    );
    let blocked = [Short::Bits(8, 0), Short::Go(1)];
    assert_eq!(rt; counted(alloc, 3, &blocked)?, Status::Blocked);
    Ok(())
}

#[test]
fn a_call_in_a_loop_fails_in_the_second_frame(rt: HostRuntime) -> Result<(), Fail> {
    let alloc = rt.alloc();
    let all = [
        Short::Bits(8, 0),
        Short::Bits(8, 0),
        Short::Go(0),
        Short::Go(1),
        Short::Go(0),
        Short::Go(1),
        Short::Go(0),
        Short::Go(0),
        Short::Bits(8, 0),
        Short::Go(0),
    ];
    let failed = Status::Failed { proc: 0, assert: 1 };
    assert_eq!(rt; status(alloc, RECURSIVE, 1, 2, &all)?, failed);
    assert_eq!(rt; status(alloc, RECURSIVE, 1, 1, &all[..6])?, Status::Cut);
    Ok(())
}

#[test]
fn an_inner_loop_counts_anew_each_time(rt: HostRuntime) -> Result<(), Fail> {
    let alloc = rt.alloc();
    let all = [
        Short::Bits(8, 0),
        Short::Bits(8, 0),
        Short::Bits(8, 0),
        Short::Go(0),
        Short::Go(0),
        Short::Go(0),
        Short::Go(1),
        Short::Go(0),
        Short::Go(0),
        Short::Go(0),
        Short::Go(1),
        Short::Go(1),
    ];
    let failed = Status::Failed { proc: 0, assert: 1 };
    assert_eq!(rt; status(alloc, NESTED, 0, 2, &all)?, failed);
    assert_eq!(rt; status(alloc, NESTED, 0, 1, &all[..6])?, Status::Cut);
    Ok(())
}

#[test]
fn a_driver_releases_twice(rt: HostRuntime) -> Result<(), Fail> {
    let alloc = rt.alloc();
    let all = [
        Short::Bits(8, 0),
        Short::Bits(8, 1),
        Short::Zeros,
        Short::Bits(32, 0),
        Short::Bits(32, 0),
        Short::Bits(32, 0),
        Short::Bits(32, 0),
        Short::Bits(8, 0),
        Short::Bits(8, 2),
        Short::Bits(32, 0),
        Short::Bool(false),
        Short::Go(0),
        Short::Go(1),
        Short::Go(0),
        Short::Go(0),
    ];
    let failed = Status::Failed { proc: 1, assert: 1 };
    assert_eq!(rt; status(alloc, DRIVER, 5, 2, &all)?, failed);
    let shown = names(alloc, DRIVER, 5, 2, &all)?;
    let wanted = b"LOCK_FREE LOCK_HELD $M $count dev n v raw raw k last - - - - ";
    assert_eq!(rt; shown.as_slice(), wanted.as_slice());
    let equal = [Short::Bits(8, 1), Short::Bits(8, 1)];
    assert_eq!(rt; status(alloc, DRIVER, 5, 2, &equal)?, Status::Blocked);
    Ok(())
}

#[test]
fn axioms_asserts_and_frames_end_runs(rt: HostRuntime) -> Result<(), Fail> {
    let alloc = rt.alloc();
    let given = [Short::Bool(true)];
    assert_eq!(rt; status(alloc, NO_CONSTANT, 0, 1, &given)?, Status::Blocked);
    let failed = Status::Failed { proc: 0, assert: 1 };
    assert_eq!(rt; status(alloc, FALSE_TWICE, 0, 1, &[])?, failed);
    assert_eq!(rt; status(alloc, DEEP, 1, 2, &[])?, Status::Cut);
    assert_eq!(rt; status(alloc, DEEP, 1, 3, &[])?, failed);
    Ok(())
}

#[test]
fn outs_are_taken_in_order(rt: HostRuntime) -> Result<(), Fail> {
    let alloc = rt.alloc();
    let all = [
        Short::Bits(8, 1),
        Short::Bits(8, 2),
        Short::Bool(false),
        Short::Bits(8, 3),
        Short::Bits(8, 4),
        Short::Bool(false),
        Short::Bits(4, 3),
        Short::Bool(true),
        Short::Bits(8, 6),
    ];
    assert_eq!(rt; status(alloc, SWAPPED, 1, 1, &all)?, Status::Ended);
    let shown = names(alloc, SWAPPED, 1, 1, &all)?;
    assert_eq!(rt; shown.as_slice(), b"g x y z a b c y z ".as_slice());
    let mut last = all;
    last[8] = Short::Bits(8, 5);
    let failed = Status::Failed { proc: 1, assert: 1 };
    assert_eq!(rt; status(alloc, SWAPPED, 1, 1, &last)?, failed);
    let mut early = all;
    early[6] = Short::Bits(4, 2);
    assert_eq!(rt; status(alloc, SWAPPED, 1, 1, &early[..7])?, Status::Blocked);
    Ok(())
}
