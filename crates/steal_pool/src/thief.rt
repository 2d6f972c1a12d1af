//! What a seat takes from the deques of the others.

ghost use Rattle.std.specs.Prelude.{◌≡◌, ◌≢◌, ℕ, ◌<◌, length};
ghost use Rattle.crossbeam_deque.specs.Handles.{stealer_deque};
ghost use Rattle.steal_pool.specs.Seats.{IsSeatOf, IsThief, stolen_by, stolen_from};
ghost use Rattle.steal_pool.specs.Thief.{ChangesAt, Grows, HasThief, IsOther, SameOwn};

use crate::rule::{StealStep, Ticket};
use crate::seats::{Pool, Seat, Thief, TicketPass};
use crossbeam_deque::Steal;

/// The answer of an attempt to steal.
#[derive(Clone, Copy, PartialEq, Eq, Debug)]
pub enum Stolen {
    /// The first ticket of the other seat's deque, which is now gone from there.
    Ticket(Ticket),
    /// The deque was empty at one moment of the call.
    Empty,
    /// Another thread was faster. The call did not try again.
    Lost,
}

// Steals by a pass.
fn steal_by(thief: &Thief, pass: &mut TicketPass) -> Stolen
    requires { IsThief (stealer_deque thief.now) pass.old }
    ensures pass { IsThief (stealer_deque thief.now) pass.new }
    ensures stolen { Grows result (stolen_by pass.old) (stolen_by pass.new) }
{
    match thief.steal_as::<StealStep>(pass) {
        Steal::Success(ticket) => Stolen::Ticket(ticket),
        Steal::Empty => Stolen::Empty,
        Steal::Retry => Stolen::Lost,
    }
}

// Steals by the pass at a place of the list.
fn steal_at(thief: &Thief, passes: &mut Vec<TicketPass>, at: usize) -> Stolen
    requires pass { HasThief (stealer_deque thief.now) at passes.old.items }
    requires at { at < length passes.old.items }
    ensures { ChangesAt (stealer_deque thief.now) at passes.old.items passes.new.items (Grows result) }
{
    let pass = &mut passes[at];
    steal_by(thief, pass)
}

/// Takes the first ticket of another seat's deque, whose number is `victim`. The seat has to be one of the pool's, and
/// stays that; the victim has to be another one.
///
/// Empty and Lost are the deque's own answers, and change nothing. No clause says when they come, since a seat knows
/// only what it did itself. Takes no memory.
pub fn steal(pool: &Pool, seat: &mut Seat, victim: usize) -> Stolen
    requires seat { IsSeatOf pool.now seat.old }
    requires victim { IsOther pool.now seat.old victim }
    ensures seat { IsSeatOf pool.now seat.new × SameOwn seat.old seat.new }
    ensures stolen { Grows result (stolen_from victim seat.old) (stolen_from victim seat.new) }
    ensures others { (j : ℕ) → j ≢ victim → stolen_from j seat.new ≡ stolen_from j seat.old }
{
    let thief = &pool.stealers[victim];
    if victim < seat.number {
        return steal_at(thief, &mut seat.below, victim);
    }
    steal_at(thief, &mut seat.above, victim - seat.number - 1)
}
