//! Values of all sorts.
ghost use Rattle.std.specs.Prelude.{◌≡◌, ◌↔◌, IfOk, IsTrue};
ghost use Rattle.hy_val.specs.Values.{sort_of, has_sort, zero_of};
ghost use Rattle.hy_val.specs.Maps.{is_map};

use crate::atom::Atom;
use crate::map::MapValue;
use crate::sort::{Sort, SortKind};
use std::alloc::{AllocError, Global};

/// A value: an atom, or a map.
#[derive(Drop)]
pub enum Value {
    Atom(Atom),
    Map(MapValue),
}

// The sort of a map.
fn sort_of_map(m: &MapValue) -> Sort
    ensures value { result ≡ SortKind.Map m.now.index m.now.elem }
    ensures kept { IsTrue (is_map m.now) }
{
    let _pairs = m.pairs();
    Sort::map(m.index(), m.elem())
}

impl Value {
    /// The sort that the value has.
    pub fn sort(&self) -> Sort
        ensures value { result ≡ sort_of self.now }
        ensures kept { IsTrue (has_sort self.now result) }
    {
        match self {
            Value::Atom(a) => Sort::scalar(a.sort()),
            Value::Map(m) => sort_of_map(m),
        }
    }

    /// The zero of a sort: false, the bits 0, or the map that is zero everywhere. It takes no memory.
    pub fn zero(alloc: Global, sort: Sort) -> Value
        ensures { result ≡ zero_of sort }
    {
        match sort.kind() {
            SortKind::Scalar(scalar) => Value::Atom(Atom::zero(scalar)),
            SortKind::Map { index, elem } => Value::Map(MapValue::zero(alloc, index, elem)),
        }
    }

    /// Whether the two are equal. It takes no memory.
    pub fn same(&self, other: &Value) -> bool
        ensures { IsTrue result ↔ (self.now ≡ other.now) }
    {
        match self {
            Value::Atom(a) => match other {
                Value::Atom(b) => *a == *b,
                Value::Map(_) => false,
            },
            Value::Map(m) => match other {
                Value::Atom(_) => false,
                Value::Map(n) => m.same(n),
            },
        }
    }

    /// Whether it is a value of the sort.
    pub fn has_sort(&self, sort: Sort) -> bool
        ensures { result ≡ has_sort self.now sort }
    {
        match self {
            Value::Atom(a) => match sort.kind() {
                SortKind::Scalar(scalar) => a.has_sort(scalar),
                SortKind::Map { index: _, elem: _ } => false,
            },
            Value::Map(m) => match sort.kind() {
                SortKind::Scalar(_) => false,
                SortKind::Map { index, elem } => {
                    let _pairs = m.pairs();
                    m.index() == index && m.elem() == elem
                }
            },
        }
    }

    /// An equal value.
    pub fn copy(&self, alloc: Global) -> Result<Value, AllocError>
        ensures { IfOk result (λ v. v ≡ self.now) }
    {
        match self {
            Value::Atom(a) => Ok(Value::Atom(*a)),
            Value::Map(m) => {
                let map = m.copy(alloc)?;
                Ok(Value::Map(map))
            }
        }
    }
}
