//! The caps on site paths, which bound recursion and loops (after Corral): how often a procedure may be open at once, and how often
//! a loop goes round in one activation. Nothing here takes memory.
ghost use Rattle.std.specs.Prelude.{◌≡◌, slice_get, length, ◌+◌, ◌<◌, ◌^◌, [], List, ℕ, Some, if◌then◌else◌, reverse};
ghost use Rattle.flat_prog.specs.Caps.{may_follow, kind_of, within};
ghost use Rattle.flat_prog.specs.Shape.{is_loop_kind};
ghost use Rattle.call_tree.specs.Tallies.{tally_of};
ghost use Rattle.call_tree.specs.Walks.{walked, may_stand};

use crate::path::SitePath;
use crate::sites::callee;
use flat_prog::{Flat, FlatKind};

// How often a procedure stands on a way, and how often in a row at its end.
#[derive(Clone, Copy, Debug, PartialEq, Eq)]
struct Tally {
    times: usize,
    row: usize,
}

// The tally with one procedure more on the way.
fn counted(tally: Tally, same: bool) -> Tally
    requires times { tally.times + 1 < 2 ^ 64 }
    requires row { tally.row + 1 < 2 ^ 64 }
    ensures { result ≡ (if same then record { times = tally.times + 1; row = tally.row + 1 } else record { times = tally.times; row = 0 }) }
{
    if same {
        Tally {
            times: tally.times + 1,
            row: tally.row + 1,
        }
    } else {
        Tally {
            times: tally.times,
            row: 0,
        }
    }
}

// The tally of a procedure among those before the one to which a path leads.
fn count_passed(flat: &Flat, entry: u32, path: &[u32], proc: u32) -> Tally
    requires { length path.now < 2 ^ 64 }
    ensures { (passed : List ℕ) (last : ℕ) → walked flat.now [] entry path.now ≡ Some (passed, last) → result ≡ tally_of proc passed }
{
    let mut tally = Tally { times: 0, row: 0 };
    let mut at = entry;
    for index in 0..path.len() {
        tally = counted(tally, at == proc);
        match callee(flat, at, path[index]) {
            Some(next) => at = next,
            None => return tally,
        }
    }
    tally
}

// Whether a procedure is made of a loop.
fn is_loop(flat: &Flat, proc: u32) -> bool
    ensures { result ≡ is_loop_kind (kind_of (slice_get flat.now.procs proc)) }
{
    match flat.procs().get(proc as usize) {
        Some(q) => match q.kind {
            FlatKind::Source { .. } => false,
            FlatKind::Loop { .. } => true,
        },
        None => false,
    }
}

// Whether a procedure may stand behind some, among which it has this tally.
fn allows(flat: &Flat, bound: u32, proc: u32, tally: Tally) -> bool
    ensures { (passed : List ℕ) → tally ≡ tally_of proc passed → result ≡ may_stand flat.now bound passed proc }
{
    if is_loop(flat, proc) {
        tally.row <= bound as usize
    } else {
        tally.times < bound as usize
    }
}

// The tally of a procedure on a way.
fn count_way(way: &[u32], proc: u32) -> Tally
    requires { length way.now < 2 ^ 64 }
    ensures { result ≡ tally_of proc (reverse way.now) }
{
    let mut tally = Tally { times: 0, row: 0 };
    for other in way {
        tally = counted(tally, *other == proc);
    }
    tally
}

/// Whether a procedure may stand behind those on a way, the entry first, where these are within the caps.
pub fn may_follow(flat: &Flat, bound: u32, way: &[u32], proc: u32) -> bool
    requires { length way.now < 2 ^ 64 }
    ensures { result ≡ may_follow bound (kind_of (slice_get flat.now.procs proc)) proc (reverse way.now) }
{
    allows(flat, bound, proc, count_way(way, proc))
}

// Whether a procedure may stand behind those of a path.
fn stands(flat: &Flat, entry: u32, bound: u32, path: &[u32], proc: u32) -> bool
    requires { length path.now < 2 ^ 64 }
    ensures { (passed : List ℕ) (last : ℕ) → walked flat.now [] entry path.now ≡ Some (passed, last) → result ≡ may_stand flat.now bound passed proc }
{
    allows(flat, bound, proc, count_passed(flat, entry, path, proc))
}

/// Whether a path exists from the entry, and on it, the entry counted, each source procedure stands at most `bound` times and
/// each loop procedure at most `bound + 1` times in a row.
pub fn within_caps(flat: &Flat, entry: u32, bound: u32, path: &SitePath) -> bool
    ensures { result ≡ within flat.now entry bound path.now }
{
    let sites = path.sites();
    let mut at = entry;
    for index in 0..sites.len() {
        if !stands(flat, entry, bound, &sites[..index], at) {
            return false;
        }
        match callee(flat, at, sites[index]) {
            Some(next) => at = next,
            None => return false,
        }
    }
    stands(flat, entry, bound, sites, at)
}
