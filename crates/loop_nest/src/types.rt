//! The loops of a procedure, as a list.

ghost use Rattle.std.specs.Prelude.{◌≡◌};

use sqlite_items::Items;
use std::marker::Model;

/// A loop of a procedure: a `while` whose head is reached.
#[derive(Drop)]
pub struct Loop {
    /// The number of the block at which it is entered.
    pub head: u32,
    /// The numbers of its reached blocks, ascending, the head first.
    pub blocks: Items<u32>,
    /// The place, in the list of the procedure's loops, of the innermost loop around it; None where there is none.
    pub outer: Option<usize>,
}

/// The loops of a procedure, by head. Contracts see the list.
#[derive(Drop)]
pub struct Nest {
    loops: Items<Loop>,
}

impl Model for Nest {
    ghost use Rattle.std.specs.Prelude.{List};
    ghost use Rattle.loop_nest.specs.declared.types.Loop.{Loop};

    ghost Value = { List Loop };

    ghost view = { λ n. n.loops };
}

impl Nest {
    /// The list of these loops. Takes no memory.
    pub fn new(loops: Items<Loop>) -> Nest
        ensures { result ≡ loops }
    {
        Nest { loops }
    }

    /// The loops, ascending by head.
    pub fn loops(&self) -> &[Loop]
        ensures { result.now ≡ self.now }
    {
        self.loops.as_slice()
    }
}
