//! The pool, its seats, and what a seat does on its own deque.

ghost use Rattle.std.specs.Prelude.{◌≡◌, ◌≤◌, [], ◌∷◌, ◌++◌, length, IfErr, IfNone, IfSome, OnErr, OnOk};
ghost use Rattle.steal_pool.specs.Seats.{IsSeatOf, SameSteals, number_of, pops_of, puts_of, room_of, seat_count};

use crate::rule::{PopStep, PutStep, Ticket, TicketsKept, View};
use crossbeam_deque::{Pass, Stealer, Worker};
use std::alloc::Global;

/// The most tickets that a seat puts, so that the sums of 64 seats fit their type.
pub(crate) const MOST: u64 = 1 << 57;

/// The end of a deque at which its seat puts and pops.
pub(crate) type Owner = Worker<Ticket, Global, View, TicketsKept>;

/// The end of a deque at which the other seats steal.
pub(crate) type Thief = Stealer<Ticket, Global, View, TicketsKept>;

/// What a seat holds of another's deque.
pub(crate) type TicketPass = Pass<Ticket, View>;

/// The deques, one for each seat, numbered from 0 as the seats are. Threads share it by reference.
#[derive(Drop)]
pub struct Pool {
    pub(crate) stealers: Vec<Thief>,
}

impl Pool {
    /// How many seats the pool was made with, at most 64. Takes no memory.
    pub fn seats(&self) -> usize
        ensures { result ≡ seat_count self.now }
    {
        self.stealers.len()
    }
}

/// One thread's place in a pool: its own deque, and a pass on each other one.
#[derive(Drop)]
pub struct Seat {
    pub(crate) number: usize,
    pub(crate) room: u64,
    pub(crate) put: u64,
    pub(crate) popped: u64,
    pub(crate) owner: Owner,
    /// The passes on the deques below this seat's number, in order.
    pub(crate) below: Vec<TicketPass>,
    /// The passes on the deques above this seat's number, in order.
    pub(crate) above: Vec<TicketPass>,
}

impl Seat {
    /// The number of the seat, below the number of seats of its pool. Takes no memory.
    pub fn number(&self) -> usize
        ensures { result ≡ number_of self.now }
    {
        self.number
    }

    /// How many tickets `put` surely takes, counted from when the seat was made: the lesser of 2^57 and the slots that
    /// its deque began with. Takes no memory.
    pub fn room(&self) -> u64
        ensures { result ≡ room_of self.now }
    {
        self.room
    }
}

/// Puts a ticket behind the others on the seat's own deque. The seat has to be one of the pool's, and stays that.
///
/// The ticket comes back, and nothing has changed, only where this seat has already put at least `room` tickets: then
/// the deque found no memory, or met its own limits, or the seat has put 2^57 tickets.
pub fn put(pool: &Pool, seat: &mut Seat, ticket: Ticket) -> Result<(), Ticket>
    requires { IsSeatOf pool.now seat.old }
    ensures seat { IsSeatOf pool.now seat.new × SameSteals seat.old seat.new }
    ensures pops { pops_of seat.new ≡ pops_of seat.old }
    ensures taken { OnOk result (puts_of seat.new ≡ puts_of seat.old ++ ticket ∷ []) }
    ensures back { IfErr result (λ t. (t ≡ ticket) × (puts_of seat.new ≡ puts_of seat.old)) }
    ensures cause { OnErr result (room_of seat.old ≤ length (puts_of seat.old)) }
{
    // Only the condition speaks of the pool.
    let _ = pool;
    if seat.put >= MOST {
        return Err(ticket);
    }
    seat.owner.push_as::<PutStep>(ticket)?;
    seat.put += 1;
    Ok(())
}

/// Takes the first ticket of the seat's own deque. The seat has to be one of the pool's, and stays that.
///
/// None is the deque's own answer: it was empty at one moment of the call. No clause repeats this, since a seat knows
/// only what it did itself. None changes nothing. Takes no memory.
pub fn pop(pool: &Pool, seat: &mut Seat) -> Option<Ticket>
    requires { IsSeatOf pool.now seat.old }
    ensures seat { IsSeatOf pool.now seat.new × SameSteals seat.old seat.new }
    ensures puts { puts_of seat.new ≡ puts_of seat.old }
    ensures none { IfNone result (pops_of seat.new ≡ pops_of seat.old) }
    ensures some { IfSome result (λ t. pops_of seat.new ≡ pops_of seat.old ++ t ∷ []) }
{
    // Only the condition speaks of the pool.
    let _ = pool;
    let ticket = seat.owner.pop_as::<PopStep>()?;
    seat.popped += 1;
    Some(ticket)
}
