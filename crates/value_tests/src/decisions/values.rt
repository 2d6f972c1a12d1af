//! All values of small sorts, by number.

use super::digits::Digits;
use hy_val::{Atom, BitVec, MapValue, Scalar, ScalarKind, Sort, SortKind, Value, store};
use std::alloc::{AllocError, Global};

// How many values a scalar sort has.
fn atom_count(scalar: Scalar) -> u64 {
    match scalar.kind() {
        ScalarKind::Bool => 2,
        ScalarKind::Bv { width } => width.ones().saturating_add(1),
    }
}

// The value of a rank among those of a scalar sort.
fn atom(scalar: Scalar, rank: u64) -> Option<Atom> {
    match scalar.kind() {
        ScalarKind::Bool => Some(Atom::bool(rank == 1)),
        ScalarKind::Bv { width } => {
            let bits = BitVec::try_new(width, rank)?;
            Some(Atom::bits(bits))
        }
    }
}

// How many maps there are from one scalar sort to another.
fn map_count(index: Scalar, elem: Scalar) -> u64 {
    let mut count: u64 = 1;
    for _ in 0..atom_count(index) {
        count = count.saturating_mul(atom_count(elem));
    }
    count
}

/// How many values a sort has.
pub fn value_count(sort: Sort) -> u64 {
    match sort.kind() {
        SortKind::Scalar(scalar) => atom_count(scalar),
        SortKind::Map { index, elem } => map_count(index, elem),
    }
}

// Writes an entry, where both are there and have the map's sorts.
fn put(map: &mut MapValue, index: Option<Atom>, entry: Option<Atom>) -> Result<(), AllocError> {
    let Some(index) = index else {
        return Ok(());
    };
    let Some(entry) = entry else {
        return Ok(());
    };
    if index.has_sort(map.index()) && entry.has_sort(map.elem()) {
        store(map, index, entry)?;
    }
    Ok(())
}

// The map whose entries are the digits of the number.
fn map_value(
    alloc: Global,
    index: Scalar,
    elem: Scalar,
    number: u64,
) -> Result<MapValue, AllocError> {
    let mut map = MapValue::zero(alloc, index, elem);
    let mut digits = Digits::new(number);
    for rank in 0..atom_count(index) {
        let entry = digits.below(atom_count(elem));
        put(&mut map, atom(index, rank), atom(elem, entry))?;
    }
    Ok(map)
}

/// The value of this number among those of the sort, from 0.
pub fn value(alloc: Global, sort: Sort, number: u64) -> Result<Value, AllocError> {
    match sort.kind() {
        SortKind::Scalar(scalar) => match atom(scalar, number) {
            Some(atom) => Ok(Value::Atom(atom)),
            None => Ok(Value::zero(alloc, sort)),
        },
        SortKind::Map { index, elem } => {
            let map = map_value(alloc, index, elem, number)?;
            Ok(Value::Map(map))
        }
    }
}
