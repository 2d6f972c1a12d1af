//! The sorts of values: bool, the bit vectors of 1 to 64 bits, and maps between those.
ghost use Rattle.std.specs.Prelude.{◌≡◌, ◌-◌, ◌<◌, ◌≤◌, ◌^◌, ◌↔◌, IsTrue, IsSome, IfSome};
ghost use Rattle.hy_val.specs.Sorts.{is_scalar};
ghost use Rattle.hy_val.specs.NodeSorts.{is_sort};

use std::marker::Model;

/// The number of bits of a bit-vector sort, from 1 to 64. Contracts see the number.
#[derive(Clone, Copy, Debug, PartialEq, Eq, Hash)]
pub struct Width {
    bits: u32,
}

impl Model for Width {
    ghost use Rattle.std.specs.Prelude.{ℕ, ◌<◌, ◌≤◌};

    ghost Value = { ℕ };

    ghost view = { λ w. w.bits };

    ghost invariant = { λ w. (0 < w.bits) × (w.bits ≤ 64) };

    ghost inverse = { λ n. record { bits = n } };
}

impl Width {
    /// The greatest width.
    pub const MAX: u32 = 64;

    /// The width of this many bits, of which there are 1 to 64.
    pub fn new(bits: u32) -> Width
        requires some { 0 < bits }
        requires within { bits ≤ 64 }
        ensures { result ≡ bits }
    {
        Width { bits }
    }

    /// The width of this many bits, where there are 1 to 64.
    pub fn try_new(bits: u32) -> Option<Width>
        ensures fits { IsSome result ↔ ((0 < bits) × (bits ≤ 64)) }
        ensures value { IfSome result (λ w. w ≡ bits) }
    {
        if bits > 0 && bits <= Width::MAX {
            Some(Width { bits })
        } else {
            None
        }
    }

    /// How many bits there are, from 1 to 64.
    pub fn bits(self) -> u32
        ensures value { result ≡ self }
        ensures some { 0 < result }
        ensures within { result ≤ 64 }
    {
        self.bits
    }

    /// The greatest number of this many bits: all ones.
    pub fn ones(self) -> u64
        ensures value { result ≡ 2 ^ self - 1 }
        ensures narrow { self ≤ 64 }
    {
        u64::MAX >> (64 - self.bits())
    }
}

/// What a scalar sort is: bool, or the bit vectors of a width.
#[derive(Clone, Copy, Debug, PartialEq, Eq, Hash)]
pub enum ScalarKind {
    Bool,
    Bv { width: Width },
}

/// A sort without maps. Contracts see its kind.
#[derive(Clone, Copy, Debug, PartialEq, Eq, Hash)]
pub struct Scalar {
    kind: ScalarKind,
}

impl Model for Scalar {
    ghost use Rattle.hy_val.specs.declared.sort.ScalarKind.{ScalarKind};

    ghost Value = { ScalarKind };

    ghost view = { λ s. s.kind };

    ghost inverse = { λ k. record { kind = k } };
}

impl Scalar {
    /// The sort of this kind.
    pub fn new(kind: ScalarKind) -> Scalar
        ensures { result ≡ kind }
    {
        Scalar { kind }
    }

    /// Bool, or the bit vectors of which width.
    pub fn kind(self) -> ScalarKind
        ensures { result ≡ self }
    {
        self.kind
    }

    /// That the width is 1 to 64, as the type keeps. It does nothing.
    pub fn keeps_width(self)
        ensures { IsTrue (is_scalar self) }
    {}

    /// The sort of the bools.
    pub fn bool() -> Scalar
        ensures { result ≡ ScalarKind.Bool }
    {
        Scalar::new(ScalarKind::Bool)
    }

    /// The sort of the bit vectors of this width.
    pub fn bits(width: Width) -> Scalar
        ensures { result ≡ ScalarKind.Bv width }
    {
        Scalar::new(ScalarKind::Bv { width })
    }
}

/// What a sort is: a scalar, or the maps from one scalar to another.
#[derive(Clone, Copy, Debug, PartialEq, Eq, Hash)]
pub enum SortKind {
    Scalar(Scalar),
    Map { index: Scalar, elem: Scalar },
}

/// A sort. Contracts see its kind.
#[derive(Clone, Copy, Debug, PartialEq, Eq, Hash)]
pub struct Sort {
    kind: SortKind,
}

impl Model for Sort {
    ghost use Rattle.hy_val.specs.declared.sort.SortKind.{SortKind};

    ghost Value = { SortKind };

    ghost view = { λ s. s.kind };

    ghost inverse = { λ k. record { kind = k } };
}

impl Sort {
    /// The sort of this kind.
    pub fn new(kind: SortKind) -> Sort
        ensures { result ≡ kind }
    {
        Sort { kind }
    }

    /// A scalar, or the maps from which to which.
    pub fn kind(self) -> SortKind
        ensures { result ≡ self }
    {
        self.kind
    }

    /// That widths are 1 to 64, as the types keep. It does nothing.
    pub fn keeps_widths(self)
        ensures { IsTrue (is_sort self) }
    {}

    /// A scalar as a sort.
    pub fn scalar(scalar: Scalar) -> Sort
        ensures { result ≡ SortKind.Scalar scalar }
    {
        Sort::new(SortKind::Scalar(scalar))
    }

    /// The sort of the maps from one scalar to another.
    pub fn map(index: Scalar, elem: Scalar) -> Sort
        ensures { result ≡ SortKind.Map index elem }
    {
        Sort::new(SortKind::Map { index, elem })
    }
}
