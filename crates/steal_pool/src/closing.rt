//! How a pool is closed: its seats leave one at a time, the last first, and what each deque holds is then known.

ghost use Rattle.std.specs.Prelude.{◌≡◌, ℕ, ◌+◌, ◌<◌, ◌∷◌, [], ◌++◌, length};
ghost use Rattle.std.specs.List.{sum_by};
ghost use Rattle.crossbeam_deque.specs.Handles.{worker_deque, worker_port, worker_view};
ghost use Rattle.steal_pool.specs.Closing.{AreCounted, Departs, HaveNoOlds, Leaves, Members, Parts, popped_length, put_length, stolen_total};
ghost use Rattle.steal_pool.specs.Seats.{AreSeatsOf, IsThief};

use crate::rule::{OnePart, Settlement};
use crate::seats::{Pool, Seat, TicketPass};

/// What went through a pool, in tickets: `put = popped + stolen + left`.
#[derive(Clone, Copy, PartialEq, Eq, Debug)]
pub struct Tally {
    /// How many tickets were put by all seats.
    pub put: u64,
    /// How many of them were popped by the seat that put them.
    pub popped: u64,
    /// How many of them were stolen.
    pub stolen: u64,
    /// How many of them are left on the deques.
    pub left: u64,
}

// Takes in a pass on this seat's deque, and gives up the seat's own last pass.
fn part(seat: &mut Seat, pass: TicketPass) -> TicketPass
    requires own { (worker_port seat.old.owner ≡ 0) × (0 < (worker_view seat.old.owner).parts) }
    requires pass { IsThief (worker_deque seat.old.owner) pass }
    requires last { 0 < length seat.old.above.items }
    ensures { Parts seat.old pass seat.new result }
{
    seat.owner.absorb::<OnePart>(pass);
    match seat.above.pop() {
        Some(last) => last,
        None => unreachable!(),
    }
}

// Takes the last seat out of the pool, and says how many tickets are left on its deque.
fn depart(others: &mut Vec<Seat>, mut seat: Seat) -> u64
    requires { Members (others.old.items ++ seat ∷ []) }
    ensures { Departs others.old.items seat others.new.items result }
{
    while let Some(pass) = seat.below.pop() {
        let at = seat.below.len();
        let other = &mut others[at];
        let last = part(other, pass);
        seat.owner.absorb::<OnePart>(last);
    }
    seat.owner.len_as::<Settlement>() as u64
}

// How many tickets are left on all deques.
fn drained(mut seats: Vec<Seat>) -> u64
    requires members { Members seats.items }
    requires olds { HaveNoOlds seats.items }
    ensures { Leaves seats.items result }
{
    let mut left = 0;
    while let Some(seat) = seats.pop() {
        left += depart(&mut seats, seat);
    }
    left
}

// How many tickets all seats have put, and popped.
fn counted(seats: &Vec<Seat>) -> (u64, u64)
    requires { AreCounted seats.now.items }
    ensures put { result.0 ≡ sum_by put_length seats.now.items }
    ensures popped { result.1 ≡ sum_by popped_length seats.now.items }
{
    let mut put = 0;
    let mut popped = 0;
    for seat in seats {
        put += seat.put;
        popped += seat.popped;
    }
    (put, popped)
}

/// Closes a pool, given all its seats in the order of their numbers, and says what went through it.
///
/// What is left on a deque is a suffix of what its owner put, and each ticket was put there as often as it was popped,
/// stolen or left. Takes no memory.
pub fn close(pool: Pool, seats: Vec<Seat>) -> Tally
    requires { AreSeatsOf pool seats.items }
    ensures put { result.put ≡ sum_by put_length seats.items }
    ensures popped { result.popped ≡ sum_by popped_length seats.items }
    ensures stolen { result.stolen ≡ stolen_total seats.items 0 seats.items }
    ensures left { Leaves seats.items result.left }
    ensures whole { result.put ≡ result.popped + result.stolen + result.left }
{
    let (put, popped) = counted(&seats);
    let left = drained(seats);
    drop(pool);
    // No counter of steals is kept: the sum of 64 * 63 of them could not be shown to fit.
    Tally {
        put,
        popped,
        stolen: put - popped - left,
        left,
    }
}
