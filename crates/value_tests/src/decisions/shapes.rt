//! Small questions about maps, by number: `s == t` or `s != t` of entries of maps, alone or beside `i == j` or `i != j`.

use super::digits::Digits;
use hy_term::{TermBuilder, TermNode, Terms};
use hy_val::{BvOp, Scalar, Sort, UnOp};
use std::alloc::{AllocError, Global};

/// How many questions there are.
pub const COUNT: u64 = MAPS * 2 * (MAPS + 1) * 2 * 2 * 3;

// How many maps a question may read.
const MAPS: u64 = 7;

/// The sorts of the maps in a question.
#[derive(Clone, Copy)]
pub struct Family {
    /// That of the indexes.
    pub index: Scalar,
    /// That of the entries.
    pub elem: Scalar,
    /// Whether the second map is zero everywhere, and no variable.
    pub second_is_zero: bool,
}

// A question in the making. A node that doesn't fit gets a number that none has, so that nothing fits above it.
#[derive(Drop)]
struct Sketch {
    builder: TermBuilder,
    family: Family,
}

impl Sketch {
    fn new(alloc: Global, family: Family) -> Result<Sketch, AllocError> {
        let builder = TermBuilder::new(alloc)?;
        Ok(Sketch { builder, family })
    }

    fn add(&mut self, node: TermNode) -> Result<usize, AllocError> {
        let number = self.builder.try_add(node)?;
        Ok(number.unwrap_or(usize::MAX))
    }

    fn scalar(&mut self, number: usize, scalar: Scalar) -> Result<usize, AllocError> {
        self.add(TermNode::Variable {
            number,
            sort: Sort::scalar(scalar),
        })
    }

    fn binary(&mut self, op: BvOp, left: usize, right: usize) -> Result<usize, AllocError> {
        self.add(TermNode::Binary { op, left, right })
    }

    // The index i, or j.
    fn index(&mut self, choice: u64) -> Result<usize, AllocError> {
        let number = if choice == 0 { 2 } else { 3 };
        self.scalar(number, self.family.index)
    }

    // The entry v, or w.
    fn value(&mut self, choice: u64) -> Result<usize, AllocError> {
        let number = if choice == 0 { 4 } else { 5 };
        self.scalar(number, self.family.elem)
    }

    // The map m.
    fn first(&mut self) -> Result<usize, AllocError> {
        self.add(TermNode::Variable {
            number: 0,
            sort: Sort::map(self.family.index, self.family.elem),
        })
    }

    // The map n, or the one that is zero everywhere.
    fn second(&mut self) -> Result<usize, AllocError> {
        let Family {
            index,
            elem,
            second_is_zero,
        } = self.family;
        if second_is_zero {
            self.add(TermNode::ZeroMap { index, elem })
        } else {
            self.add(TermNode::Variable {
                number: 1,
                sort: Sort::map(index, elem),
            })
        }
    }

    // `map[i := v]`, or `map[j := w]`.
    fn stored(&mut self, map: usize, choice: u64) -> Result<usize, AllocError> {
        let index = self.index(choice)?;
        let value = self.value(choice)?;
        self.add(TermNode::Store { map, index, value })
    }

    // `if c then yes else no`.
    fn picked(&mut self, cond: usize, yes: usize, no: usize) -> Result<usize, AllocError> {
        self.add(TermNode::If { cond, yes, no })
    }

    // `i == j`.
    fn same_index(&mut self) -> Result<usize, AllocError> {
        let i = self.index(0)?;
        let j = self.index(1)?;
        self.binary(BvOp::Eq, i, j)
    }

    // `m[i := v][j := w]`.
    fn stored_twice(&mut self) -> Result<usize, AllocError> {
        let map = self.first()?;
        let once = self.stored(map, 0)?;
        self.stored(once, 1)
    }

    // `if b then m else n`.
    fn one_of_two(&mut self) -> Result<usize, AllocError> {
        let cond = self.scalar(6, Scalar::bool())?;
        let yes = self.first()?;
        let no = self.second()?;
        self.picked(cond, yes, no)
    }

    // `if i == j then n[j := w] else m[i := v]`.
    fn one_of_two_stored(&mut self) -> Result<usize, AllocError> {
        let cond = self.same_index()?;
        let second = self.second()?;
        let yes = self.stored(second, 1)?;
        let first = self.first()?;
        let no = self.stored(first, 0)?;
        self.picked(cond, yes, no)
    }

    // One of the maps.
    fn map(&mut self, choice: u64) -> Result<usize, AllocError> {
        match choice {
            0 => self.first(),
            1 => self.second(),
            2 => {
                let map = self.first()?;
                self.stored(map, 0)
            }
            3 => {
                let map = self.second()?;
                self.stored(map, 1)
            }
            4 => self.stored_twice(),
            5 => self.one_of_two(),
            _ => self.one_of_two_stored(),
        }
    }

    // An entry of a map, at i or at j.
    fn entry(&mut self, map: u64, choice: u64) -> Result<usize, AllocError> {
        let map = self.map(map)?;
        let index = self.index(choice)?;
        self.add(TermNode::Select { map, index })
    }

    // An entry of a map, or v or w.
    fn entry_or_value(&mut self, map: u64, choice: u64) -> Result<usize, AllocError> {
        if map < MAPS {
            self.entry(map, choice)
        } else {
            self.value(choice)
        }
    }

    // The fact alone, or beside `i == j` or `i != j`.
    fn beside(&mut self, choice: u64, fact: usize) -> Result<usize, AllocError> {
        if choice == 0 {
            return Ok(fact);
        }
        let same = self.same_index()?;
        if choice == 1 {
            return self.binary(BvOp::And, same, fact);
        }
        let other = self.add(TermNode::Unary {
            op: UnOp::Not,
            child: same,
        })?;
        self.binary(BvOp::And, other, fact)
    }
}

/// The question of this number; those from `COUNT` on are the same again.
pub fn question(alloc: Global, family: &Family, number: u64) -> Result<Option<Terms>, AllocError> {
    let mut sketch = Sketch::new(alloc, *family)?;
    let mut digits = Digits::new(number);
    let left = sketch.entry(digits.below(MAPS), digits.below(2))?;
    let right = sketch.entry_or_value(digits.below(MAPS + 1), digits.below(2))?;
    let op = if digits.below(2) == 0 {
        BvOp::Eq
    } else {
        BvOp::Ne
    };
    let fact = sketch.binary(op, left, right)?;
    let root = sketch.beside(digits.below(3), fact)?;
    Ok(sketch.builder.finish(root))
}
