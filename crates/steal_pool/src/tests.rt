//! Two seats by hand, and several threads at once. A list of seats that was used is still the seats of the pool.

ghost use Rattle.std.specs.Prelude.{◌≡◌, ◌≢◌, ◌<◌, length};
ghost use Rattle.steal_pool.specs.Seats.{AreSeatsOf, IsSeatOf, number_of, seat_count};

use crate::build::make;
use crate::closing::{Tally, close};
use crate::rule::Ticket;
use crate::seats::{Pool, Seat, pop, put};
use crate::thief::{Stolen, steal};
use std::alloc::{AllocError, Global};
use std::sync::atomic::{AtomicU64, Ordering};
use std::test::Fail;
use std::thread;
use std::thread::Threads;

fn put_at(pool: &Pool, seats: &mut Vec<Seat>, at: usize, ticket: Ticket) -> Result<(), Ticket>
    requires all { AreSeatsOf pool.now seats.old.items }
    requires at { at < length seats.old.items }
    ensures all { AreSeatsOf pool.now seats.new.items }
    ensures length { length seats.new.items ≡ length seats.old.items }
{
    let seat = &mut seats[at];
    put(pool, seat, ticket)
}

fn pop_at(pool: &Pool, seats: &mut Vec<Seat>, at: usize) -> Option<Ticket>
    requires all { AreSeatsOf pool.now seats.old.items }
    requires at { at < length seats.old.items }
    ensures all { AreSeatsOf pool.now seats.new.items }
    ensures length { length seats.new.items ≡ length seats.old.items }
{
    let seat = &mut seats[at];
    pop(pool, seat)
}

fn steal_at_seat(pool: &Pool, seats: &mut Vec<Seat>, at: usize, victim: usize) -> Stolen
    requires all { AreSeatsOf pool.now seats.old.items }
    requires at { at < length seats.old.items }
    requires victim { (victim < length seats.old.items) × (victim ≢ at) }
    ensures all { AreSeatsOf pool.now seats.new.items }
    ensures length { length seats.new.items ≡ length seats.old.items }
{
    let seat = &mut seats[at];
    steal(pool, seat, victim)
}

#[test]
fn two_seats(rt: HostRuntime) -> Result<(), Fail> {
    let (pool, mut seats) = make(rt.alloc(), 2)?;
    assert_eq!(rt; pool.seats(), 2);
    assert_eq!(rt; put_at(&pool, &mut seats, 0, Ticket(7)), Ok(()));
    assert_eq!(rt; put_at(&pool, &mut seats, 0, Ticket(8)), Ok(()));
    assert_eq!(rt;
        steal_at_seat(&pool, &mut seats, 1, 0),
        Stolen::Ticket(Ticket(7))
    );
    assert_eq!(rt; pop_at(&pool, &mut seats, 0), Some(Ticket(8)));
    assert_eq!(rt; pop_at(&pool, &mut seats, 0), None);
    assert_eq!(rt; steal_at_seat(&pool, &mut seats, 1, 0), Stolen::Empty);
    let tally = close(pool, seats);
    assert_eq!(rt;
        tally,
        Tally {
            put: 2,
            popped: 1,
            stolen: 1,
            left: 0
        }
    );
    Ok(())
}

// A seat puts past its room, since its deque grows; what it put comes back in order, to itself and to a thief.
#[test]
fn first_in_first_out(rt: HostRuntime) -> Result<(), Fail> {
    let (pool, mut seats) = make(rt.alloc(), 3)?;
    for number in 0..200 {
        assert_eq!(rt; put_at(&pool, &mut seats, 1, Ticket(number)), Ok(()));
    }
    for turn in 0..60 {
        assert_eq!(rt;
            steal_at_seat(&pool, &mut seats, 2, 1),
            Stolen::Ticket(Ticket(3 * turn))
        );
        assert_eq!(rt; pop_at(&pool, &mut seats, 1), Some(Ticket(3 * turn + 1)));
        assert_eq!(rt;
            steal_at_seat(&pool, &mut seats, 0, 1),
            Stolen::Ticket(Ticket(3 * turn + 2))
        );
    }
    assert_eq!(rt; pop_at(&pool, &mut seats, 0), None);
    assert_eq!(rt; steal_at_seat(&pool, &mut seats, 0, 2), Stolen::Empty);
    let tally = close(pool, seats);
    assert_eq!(rt;
        tally,
        Tally {
            put: 200,
            popped: 60,
            stolen: 120,
            left: 20
        }
    );
    Ok(())
}

#[test]
fn seats_as_made(rt: HostRuntime) -> Result<(), Fail> {
    let (pool, seats) = make(rt.alloc(), 64)?;
    for (place, seat) in seats.iter().enumerate() {
        assert_eq!(rt; seat.number(), place);
        assert_eq!(rt; seat.room(), 64);
    }
    let tally = close(pool, seats);
    assert_eq!(rt;
        tally,
        Tally {
            put: 0,
            popped: 0,
            stolen: 0,
            left: 0
        }
    );
    Ok(())
}

// How many tickets each seat puts.
const EACH: u64 = 2500;

// What the threads counted themselves, beside the pool.
#[derive(Drop)]
struct Board {
    put: AtomicU64,
    popped: AtomicU64,
    stolen: AtomicU64,
    doubled: AtomicU64,
    taken: Vec<AtomicU64>,
}

impl Board {
    fn new(alloc: Global, tickets: u64) -> Result<Board, AllocError> {
        let mut taken = Vec::new(alloc);
        for _ in 0..tickets {
            taken.push(AtomicU64::new(0))?;
        }
        Ok(Board {
            put: AtomicU64::new(0),
            popped: AtomicU64::new(0),
            stolen: AtomicU64::new(0),
            doubled: AtomicU64::new(0),
            taken,
        })
    }

    // Marks the ticket, and notes where it was marked before.
    fn mark(&self, ticket: Ticket) {
        let before = match self.taken.get(ticket.0 as usize) {
            Some(mark) => mark.fetch_add(1, Ordering::SeqCst),
            None => 1,
        };
        if before > 0 {
            self.doubled.fetch_add(1, Ordering::SeqCst);
        }
    }

    // How many tickets are marked.
    fn marked(&self) -> u64 {
        let mut count = 0u64;
        for mark in &self.taken {
            if mark.load(Ordering::SeqCst) > 0 {
                count = count.saturating_add(1);
            }
        }
        count
    }
}

fn try_put(pool: &Pool, seat: &mut Seat, ticket: Ticket, board: &Board)
    requires { IsSeatOf pool.now seat.old }
    ensures { IsSeatOf pool.now seat.new × (number_of seat.new ≡ number_of seat.old) }
{
    if put(pool, seat, ticket).is_ok() {
        board.put.fetch_add(1, Ordering::SeqCst);
    }
}

fn try_pop(pool: &Pool, seat: &mut Seat, board: &Board)
    requires { IsSeatOf pool.now seat.old }
    ensures { IsSeatOf pool.now seat.new × (number_of seat.new ≡ number_of seat.old) }
{
    if let Some(ticket) = pop(pool, seat) {
        board.popped.fetch_add(1, Ordering::SeqCst);
        board.mark(ticket);
    }
}

fn try_steal(pool: &Pool, seat: &mut Seat, board: &Board)
    requires seat { IsSeatOf pool.now seat.old }
    requires pool { 1 < seat_count pool.now }
    ensures { IsSeatOf pool.now seat.new × (number_of seat.new ≡ number_of seat.old) }
{
    let next = seat.number() + 1;
    let victim = if next < pool.seats() { next } else { 0 };
    if let Stolen::Ticket(ticket) = steal(pool, seat, victim) {
        board.stolen.fetch_add(1, Ordering::SeqCst);
        board.mark(ticket);
    }
}

// What one thread does: it puts its tickets, and meanwhile takes some of its own and some of the next seat's.
fn use_seat(pool: &Pool, seat: &mut Seat, board: &Board)
    requires seat { IsSeatOf pool.now seat.old }
    requires pool { 1 < seat_count pool.now }
    ensures { IsSeatOf pool.now seat.new × (number_of seat.new ≡ number_of seat.old) }
{
    let first = seat.number() as u64 * EACH;
    for turn in 0..EACH {
        try_put(pool, seat, Ticket(first + turn), board);
        if turn % 3 == 0 {
            try_pop(pool, seat, board);
        }
        try_steal(pool, seat, board);
    }
}

fn use_all<R: Threads + Sync>(rt: &R, pool: &Pool, seats: &mut Vec<Seat>, board: &Board)
    requires all { AreSeatsOf pool.now seats.old.items }
    requires pool { 1 < seat_count pool.now }
    ensures { AreSeatsOf pool.now seats.new.items }
{
    thread::for_each_mut(
        rt,
        seats.as_mut_slice(),
        4,
        &|_: usize, seat: &mut Seat|
            requires { IsSeatOf pool.now seat.now × (1 < seat_count pool.now) }
            ensures { IsSeatOf pool.entry.now seat.exit.now × (number_of seat.exit.now ≡ number_of seat.entry.now) }
        { use_seat(pool, seat, board) },
    );
}

// Whatever the schedule: no ticket is taken twice, and the tally closes over what the threads counted.
#[test]
fn several_threads(rt: HostRuntime) -> Result<(), Fail> {
    let board = Board::new(rt.alloc(), 4 * EACH)?;
    let (pool, mut seats) = make(rt.alloc(), 4)?;
    use_all(&rt, &pool, &mut seats, &board);
    let tally = close(pool, seats);
    let popped = board.popped.load(Ordering::SeqCst);
    let stolen = board.stolen.load(Ordering::SeqCst);
    assert_eq!(rt; board.doubled.load(Ordering::SeqCst), 0);
    assert_eq!(rt; tally.put, board.put.load(Ordering::SeqCst));
    assert_eq!(rt; tally.popped, popped);
    assert_eq!(rt; tally.stolen, stolen);
    assert_eq!(rt; board.marked(), popped.saturating_add(stolen));
    assert_eq!(rt; tally.left, tally.put.saturating_sub(board.marked()));
    Ok(())
}
