//! What threads need of the pool's types: a reference to the pool may be used by several threads at once, and a seat, a
//! ticket and the answers may move from one thread to another.

use crate::closing::Tally;
use crate::rule::Ticket;
use crate::seats::{Pool, Seat};
use crate::thief::Stolen;

// Accepts what several threads may use at once.
fn share<T: Sync>(_shared: &T) {}

// Hands on what may move to another thread.
fn send<T: Send>(sent: T) -> T {
    sent
}

// Threads share the pool, and a seat moves to its thread and back.
fn cross(pool: Pool, seat: Seat) -> (Pool, Seat) {
    share(&pool);
    (send(pool), send(seat))
}

// Tickets and answers move, and may be looked at from anywhere.
fn cross_answers(ticket: Ticket, stolen: Stolen, tally: Tally) -> (Ticket, Stolen, Tally) {
    share(&ticket);
    share(&stolen);
    share(&tally);
    (send(ticket), send(stolen), send(tally))
}
