//! A pool of work-stealing deques of tickets, one deque for each seat.
//!
//! Each thread has a seat: it puts tickets on its own deque, takes them from there, and steals from the deques of the
//! others. A deque is first in, first out for its owner and for thieves alike. No call waits and none takes a handle.
//!
//! No ticket is lost and none is doubled, whatever the threads do and in whatever order: `close` says of each deque
//! that what is left there is a suffix of what its owner put, and that each ticket was put as often as it was popped,
//! stolen or left. Nothing says that a thread is ever served: `pop` may answer None, and `steal` Empty or Lost.
#![tactic(auto)]

mod build;
mod closing;
mod crossing;
mod rule;
mod seats;
#[cfg(test)]
mod tests;
mod thief;

pub use build::{SLOTS, make};
pub use closing::{Tally, close};
pub use rule::Ticket;
pub use seats::{Pool, Seat, pop, put};
pub use thief::{Stolen, steal};
