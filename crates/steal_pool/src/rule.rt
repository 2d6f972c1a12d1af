//! The rule that every deque of a pool keeps, and what each step on a deque tells the pass that takes it.
//!
//! A pass is what a thread holds of a deque. The owner has one, and each other seat has one. What a pass knows, its
//! view, exists in proofs alone.

use crossbeam_deque::protocol::{Join, Lesson, Outcome, Protocol, Split};
use std::collections::LinkedList;

/// A ticket: a number that the pool hands on and never looks at. Two tickets may be equal.
#[derive(Clone, Copy, PartialEq, Eq, Debug)]
pub struct Ticket(pub u64);

/// The view of a pass: what was done by it on its deque. No value of it is made.
pub struct View {
    /// Its parts of the right to know the whole; all passes of a deque have 64.
    pub parts: u64,
    /// What the owner put, in order. A thief's is empty.
    pub puts: LinkedList<Ticket>,
    /// What the owner popped, in order. A thief's is empty.
    pub pops: LinkedList<Ticket>,
    /// What a thief stole, in order. The owner's is empty.
    pub steals: LinkedList<Ticket>,
    /// What the passes stole that were joined to this one.
    pub olds: LinkedList<Ticket>,
}

/// The rule of a deque: its content is a suffix of what the owner put, and each ticket is as often in what was put as
/// in the content, the pops, all steals and all takings of joined passes together.
pub struct TicketsKept;

impl Protocol<Ticket, View> for TicketsKept {
    ghost use Rattle.std.specs.Prelude.{[]};
    ghost use Rattle.steal_pool.specs.Rule.{view_of, Balanced};

    ghost holds = { Balanced };

    ghost first = { view_of 64 [] [] [] [] };

    ghost guest = { view_of 0 [] [] [] [] };
}

/// A pass is split, so that another seat has one, or is joined to the owner's.
pub struct OnePart;

impl Split<View> for OnePart {
    ghost use Rattle.std.specs.Prelude.{[], ◌-◌};
    ghost use Rattle.steal_pool.specs.Rule.{view_of};

    ghost left = { λ v. view_of (v.parts - 1) v.puts v.pops v.steals v.olds };

    ghost right = { λ _. view_of 1 [] [] [] [] };
}

impl Join<View> for OnePart {
    ghost use Rattle.std.specs.Prelude.{[]};
    ghost use Rattle.steal_pool.specs.Rule.{view_of, joined};

    ghost both = { joined };

    ghost spent = { view_of 0 [] [] [] [] };
}

/// The owner put a ticket.
pub struct PutStep;

impl Outcome<Ticket, View> for PutStep {
    ghost use Rattle.steal_pool.specs.Rule.{AfterPut};

    ghost then = { AfterPut };
}

/// The owner popped the first ticket.
pub struct PopStep;

impl Outcome<Ticket, View> for PopStep {
    ghost use Rattle.steal_pool.specs.Rule.{AfterPop};

    ghost then = { AfterPop };
}

/// A thief took the first ticket.
pub struct StealStep;

impl Outcome<Ticket, View> for StealStep {
    ghost use Rattle.steal_pool.specs.Rule.{AfterSteal};

    ghost then = { AfterSteal };
}

/// What the owner learns of the content once all other passes are joined to its own.
pub struct Settlement;

impl Lesson<Ticket, View> for Settlement {
    ghost use Rattle.steal_pool.specs.Rule.{IsAccounted};

    ghost fact = { IsAccounted };
}
