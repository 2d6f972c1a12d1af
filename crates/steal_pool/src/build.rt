//! How a pool is put together: its seats come one at a time, and each new one exchanges passes with the earlier ones.

ghost use Rattle.std.specs.Prelude.{◌≡◌, ◌^◌, ◌<◌, ◌≤◌, ◌∷◌, [], ◌++◌, All, IfOk, OnOk, length, min};
ghost use Rattle.crossbeam_deque.specs.Handles.{worker_port, worker_view};
ghost use Rattle.steal_pool.specs.Build.{AreFresh, IsNew, IsUnused, Meets};
ghost use Rattle.steal_pool.specs.Seats.{AreSeatsOf, deque_of, owners, room_of, seat_count};

use crate::rule::OnePart;
use crate::seats::{MOST, Owner, Pool, Seat};
use std::alloc::{AllocError, Global};

/// The slots that each deque begins with. It grows as tickets are put.
pub const SLOTS: usize = 64;

// A seat with a deque of its own, and no pass on another.
fn newcomer(alloc: Global, number: usize) -> Result<Seat, AllocError>
    ensures { IfOk result (λ s. IsNew number s) }
{
    let owner = Owner::fifo_as(alloc, SLOTS)?;
    let room = (owner.capacity() as u64).min(MOST);
    Ok(Seat {
        number,
        room,
        put: 0,
        popped: 0,
        owner,
        below: Vec::new(alloc),
        above: Vec::new(alloc),
    })
}

// Two seats give each other a pass: the earlier one's comes last below, and the new one's last above.
fn meet(old: &mut Seat, new: &mut Seat) -> Result<(), AllocError>
    requires ports { (worker_port old.old.owner ≡ 0) × (worker_port new.old.owner ≡ 0) }
    requires old { 1 < (worker_view old.old.owner).parts }
    requires new { 1 < (worker_view new.old.owner).parts }
    ensures { OnOk result (Meets old.old old.new new.old new.new) }
{
    let theirs = old.owner.another::<OnePart>();
    new.below.push(theirs)?;
    let mine = new.owner.another::<OnePart>();
    old.above.push(mine)?;
    Ok(())
}

// Brings a new seat into the pool.
fn introduce(all: &mut Vec<Seat>, mut new: Seat) -> Result<(), AllocError>
    requires all { AreFresh all.old.items × (length all.old.items < 64) }
    requires new { IsNew (length all.old.items) new }
    ensures fresh { OnOk result (AreFresh all.new.items) }
    ensures owners { OnOk result (owners all.new.items ≡ owners all.old.items ++ deque_of new ∷ []) }
{
    let mut at = 0;
    while at < all.len() {
        let old = &mut all[at];
        meet(old, &mut new)?;
        at += 1;
    }
    all.push(new)?;
    Ok(())
}

/// Makes a pool with 1 to 64 seats, numbered from 0 in the order of the list, through which nothing went yet.
///
/// Each seat has room for 64 tickets at least, since its deque begins with 64 slots. `AllocError` comes where memory
/// runs out.
pub fn make(alloc: Global, seats: usize) -> Result<(Pool, Vec<Seat>), AllocError>
    requires { seats ≤ 64 }
    ensures seats { IfOk result (λ r. AreSeatsOf r.0 r.1.items × (seat_count r.0 ≡ seats)) }
    ensures unused { IfOk result (λ r. All IsUnused r.1.items) }
    ensures room { IfOk result (λ r. All (λ s. room_of s ≡ min (2 ^ 57) SLOTS) r.1.items) }
{
    let mut all = Vec::new(alloc);
    let mut stealers = Vec::new(alloc);
    for number in 0..seats {
        let new = newcomer(alloc, number)?;
        stealers.push(new.owner.stealer()?)?;
        introduce(&mut all, new)?;
    }
    Ok((Pool { stealers }, all))
}
