//! Map values: a sorted list of the entries that aren't zero.
ghost use Rattle.std.specs.Prelude.{◌≡◌, ◌↔◌, [], nat_lt, slice_get, OnOk, OnErr, IfOk, IsTrue};
ghost use Rattle.hy_val.specs.Maps.{select, put, stored, ascends, is_map, WritesAt};
ghost use Rattle.hy_val.specs.Places.{count_below, is_at, entry_at};
ghost use Rattle.hy_val.specs.Sorts.{has_scalar, rank};

use crate::atom::Atom;
use crate::sort::Scalar;
use sqlite_items::at;
use std::alloc::{AllocError, Global};
use std::marker::Model;

/// A total map from the atoms of one scalar sort to those of another. It lists the entries that
/// aren't zero, each behind its index, ascending: false before true, bits by size.
/// Contracts see a `Table`, the record of the two sorts and the pairs.
#[derive(Drop)]
pub struct MapValue {
    index: Scalar,
    elem: Scalar,
    pairs: Vec<(Atom, Atom)>,
}

impl Model for MapValue {
    ghost use Rattle.std.specs.Prelude.{IsTrue};
    ghost use Rattle.hy_val.specs.Table.{Table};
    ghost use Rattle.hy_val.specs.Maps.{is_map};

    ghost Value = { Table };

    ghost view = { λ m. record { index = m.index; elem = m.elem; pairs = m.pairs.items } };

    ghost invariant = { λ m. IsTrue (is_map (record { index = m.index; elem = m.elem; pairs = m.pairs.items })) };
}

impl MapValue {
    /// The map whose every entry is zero.
    pub fn zero(alloc: Global, index: Scalar, elem: Scalar) -> MapValue
        ensures { result ≡ record { index = index; elem = elem; pairs = [] } }
    {
        MapValue {
            index,
            elem,
            pairs: Vec::new(alloc),
        }
    }

    /// The sort of the indexes.
    pub fn index(&self) -> Scalar
        ensures { result ≡ self.now.index }
    {
        self.index
    }

    /// The sort of the entries.
    pub fn elem(&self) -> Scalar
        ensures { result ≡ self.now.elem }
    {
        self.elem
    }

    /// The entries that aren't zero, each behind its index, ascending by index.
    pub fn pairs(&self) -> &[(Atom, Atom)]
        ensures value { result.now ≡ self.now.pairs }
        ensures kept { IsTrue (is_map self.now) }
    {
        self.pairs.as_slice()
    }

    /// Whether the two are equal: the same sorts and the same entries. It takes no memory.
    pub fn same(&self, other: &MapValue) -> bool
        ensures { IsTrue result ↔ (self.now ≡ other.now) }
    {
        self.index == other.index
            && self.elem == other.elem
            && same_pairs(self.pairs.as_slice(), other.pairs.as_slice())
    }

    /// An equal map.
    pub fn copy(&self, alloc: Global) -> Result<MapValue, AllocError>
        ensures { IfOk result (λ m. m ≡ self.now) }
    {
        let pairs = Vec::from_slice(alloc, self.pairs.as_slice())?;
        Ok(MapValue {
            index: self.index,
            elem: self.elem,
            pairs,
        })
    }
}

// Whether two pairs are equal.
fn same_pair(left: &(Atom, Atom), right: &(Atom, Atom)) -> bool
    ensures { IsTrue result ↔ (left.now ≡ right.now) }
{
    left.0 == right.0 && left.1 == right.1
}

// Whether two lists of pairs are equal.
fn same_pairs(left: &[(Atom, Atom)], right: &[(Atom, Atom)]) -> bool
    ensures { IsTrue result ↔ (left.now ≡ right.now) }
{
    if left.len() != right.len() {
        return false;
    }
    for i in 0..left.len() {
        if !same_pair(&left[i], &right[i]) {
            return false;
        }
    }
    true
}

// How many pairs have an index below i: the place of i.
fn place(pairs: &[(Atom, Atom)], i: Atom) -> usize
    requires { IsTrue (ascends pairs.now) }
    ensures { result ≡ count_below i pairs.now }
{
    pairs.partition_point(
        |pair: &(Atom, Atom)| -> bool
            ensures { result ≡ nat_lt (rank pair.now.0) (rank i) }
        { pair.0.rank() < i.rank() },
    )
}

// Whether the pair at a place has the index i.
fn is_at(pairs: &[(Atom, Atom)], place: usize, i: Atom) -> bool
    ensures { result ≡ is_at i (slice_get pairs.now place) }
{
    match at(pairs, place) {
        None => false,
        Some(pair) => pair.0.rank() == i.rank(),
    }
}

// The entry of the pair at a place, where its index is i.
fn entry_at(pairs: &[(Atom, Atom)], place: usize, i: Atom, none: Atom) -> Atom
    ensures { result ≡ entry_at none i (slice_get pairs.now place) }
{
    match at(pairs, place) {
        None => none,
        Some(pair) => {
            if pair.0.rank() == i.rank() {
                pair.1
            } else {
                none
            }
        }
    }
}

/// The entry at an index of the map's index sort, and zero where none is listed.
pub fn select(m: &MapValue, i: Atom) -> Atom
    requires { IsTrue (has_scalar i m.now.index) }
    ensures { result ≡ select m.now i }
{
    let pairs = m.pairs();
    entry_at(pairs, place(pairs, i), i, Atom::zero(m.elem()))
}

// Puts v at i in place of what was there. After want of memory nothing has changed.
fn put(pairs: &mut Vec<(Atom, Atom)>, i: Atom, v: Atom) -> Result<(), AllocError>
    requires { IsTrue (ascends pairs.old.items) }
    ensures ok { OnOk result (pairs.new.items ≡ put i v pairs.old.items) }
    ensures err { OnErr result (pairs.new.items ≡ pairs.old.items) }
{
    let place = place(pairs.as_slice(), i);
    let there = is_at(pairs.as_slice(), place, i);
    if v.is_zero() {
        if there {
            pairs.remove(place);
        }
        return Ok(());
    }
    if there {
        pairs[place] = (i, v);
        return Ok(());
    }
    pairs.insert(place, (i, v))?;
    Ok(())
}

/// Makes the entry at i, an index of the map's index sort, v, which has its element sort. The map
/// differs at i alone. After want of memory it is unchanged.
pub fn store(m: &mut MapValue, i: Atom, v: Atom) -> Result<(), AllocError>
    requires index { IsTrue (has_scalar i m.old.index) }
    requires elem { IsTrue (has_scalar v m.old.elem) }
    ensures ok { OnOk result (m.new ≡ stored m.old i v) }
    ensures alone { OnOk result (WritesAt m.old m.new i v) }
    ensures err { OnErr result (m.new ≡ m.old) }
{
    put(&mut m.pairs, i, v)?;
    Ok(())
}
