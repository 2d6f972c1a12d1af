//! Values without maps: truth values and bit vectors.
ghost use Rattle.std.specs.Prelude.{◌≡◌, ◌<◌, ◌^◌, ◌↔◌, IsTrue, IsSome, IfSome};

use crate::sort::{Scalar, ScalarKind, Width};
use std::marker::Model;

/// A bit vector: its width, and its bits as a number below 2 to the width, lowest bit first.
/// Contracts see a `Word`, the record of the two.
#[derive(Clone, Copy, Debug, PartialEq, Eq, Hash)]
pub struct BitVec {
    width: Width,
    bits: u64,
}

impl Model for BitVec {
    ghost use Rattle.std.specs.Prelude.{◌<◌, ◌^◌};
    ghost use Rattle.hy_val.specs.Word.{Word};

    ghost Value = { Word };

    ghost view = { λ v. record { width = v.width; bits = v.bits } };

    ghost invariant = { λ v. v.bits < 2 ^ v.width };

    ghost inverse = { λ v. record { width = v.width; bits = v.bits } };
}

impl BitVec {
    /// The bit vector of this width and number, which is below 2 to the width.
    pub fn new(width: Width, bits: u64) -> BitVec
        requires { bits < 2 ^ width }
        ensures { result ≡ record { width = width; bits = bits } }
    {
        BitVec { width, bits }
    }

    /// The bit vector of this width and number, where the number is below 2 to the width.
    pub fn try_new(width: Width, bits: u64) -> Option<BitVec>
        ensures fits { IsSome result ↔ (bits < 2 ^ width) }
        ensures value { IfSome result (λ v. v ≡ record { width = width; bits = bits }) }
    {
        if bits <= width.ones() {
            Some(BitVec { width, bits })
        } else {
            None
        }
    }

    /// How many bits there are.
    pub fn width(self) -> Width
        ensures { result ≡ self.width }
    {
        self.width
    }

    /// The bits as a number, below 2 to the width.
    pub fn bits(self) -> u64
        ensures value { result ≡ self.bits }
        ensures within { result < 2 ^ self.width }
    {
        self.bits
    }
}

/// What a value of a scalar sort is: a truth value, or a bit vector.
#[derive(Clone, Copy, Debug, PartialEq, Eq, Hash)]
pub enum AtomKind {
    Bool(bool),
    Bv(BitVec),
}

/// A value of a scalar sort. Contracts see its kind.
#[derive(Clone, Copy, Debug, PartialEq, Eq, Hash)]
pub struct Atom {
    kind: AtomKind,
}

impl Model for Atom {
    ghost use Rattle.hy_val.specs.declared.atom.AtomKind.{AtomKind};

    ghost Value = { AtomKind };

    ghost view = { λ a. a.kind };

    ghost inverse = { λ k. record { kind = k } };
}

impl Atom {
    ghost use Rattle.hy_val.specs.Sorts.{scalar_of, has_scalar, zero_of_scalar, rank, is_zero};

    /// The value of this kind.
    pub fn new(kind: AtomKind) -> Atom
        ensures { result ≡ kind }
    {
        Atom { kind }
    }

    /// A truth value, or which bit vector.
    pub fn kind(self) -> AtomKind
        ensures { result ≡ self }
    {
        self.kind
    }

    /// The truth value as a value.
    pub fn bool(value: bool) -> Atom
        ensures { result ≡ AtomKind.Bool value }
    {
        Atom::new(AtomKind::Bool(value))
    }

    /// The bit vector as a value.
    pub fn bits(value: BitVec) -> Atom
        ensures { result ≡ AtomKind.Bv value }
    {
        Atom::new(AtomKind::Bv(value))
    }

    /// The sort that the value has.
    pub fn sort(self) -> Scalar
        ensures value { result ≡ scalar_of self }
        ensures kept { IsTrue (has_scalar self result) }
    {
        match self.kind() {
            AtomKind::Bool(_) => Scalar::bool(),
            AtomKind::Bv(v) => Scalar::bits(v.width()),
        }
    }

    /// Whether it is a value of the sort.
    pub fn has_sort(self, sort: Scalar) -> bool
        ensures { result ≡ has_scalar self sort }
    {
        match self.kind() {
            AtomKind::Bool(_) => sort == Scalar::bool(),
            AtomKind::Bv(v) => sort == Scalar::bits(v.width()),
        }
    }

    /// False, or the bit vector whose bits are all 0.
    pub fn zero(sort: Scalar) -> Atom
        ensures { result ≡ zero_of_scalar sort }
    {
        match sort.kind() {
            ScalarKind::Bool => Atom::bool(false),
            ScalarKind::Bv { width } => Atom::bits(BitVec::new(width, 0)),
        }
    }

    /// The place among the values of its sort: false before true, bits by size.
    pub fn rank(self) -> u64
        ensures { result ≡ rank self }
    {
        match self.kind() {
            AtomKind::Bool(b) => b as u64,
            AtomKind::Bv(v) => v.bits(),
        }
    }

    /// Whether it is the zero of its sort.
    pub fn is_zero(self) -> bool
        ensures { result ≡ is_zero self }
    {
        self.rank() == 0
    }
}
