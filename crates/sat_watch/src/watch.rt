//! The two literals that a clause watches.
ghost use Rattle.std.specs.Prelude.{◌≡◌, ◌<◌, length, slice_index_or};
ghost use Rattle.sat_watch.specs.Watches.{watch_at, other_watch};

use cnf_form::Lit;

/// The two different literals that a clause watches. Where they are equal it watches none.
#[derive(Clone, Copy)]
pub(crate) struct Watch {
    pub(crate) first: Lit,
    pub(crate) second: Lit,
}

/// No literal is watched.
pub(crate) fn unwatched() -> Watch
    ensures { result.first ≡ result.second }
{
    let lit = Lit::new(0);
    Watch {
        first: lit,
        second: lit,
    }
}

/// The two literals that the clause of this number watches.
pub(crate) fn watch_of(watches: &[Watch], id: usize) -> Watch
    ensures { result ≡ watch_at watches.now id }
{
    if id < watches.len() {
        watches[id]
    } else {
        let lit = Lit::new(0);
        Watch {
            first: lit,
            second: lit,
        }
    }
}

/// The other literal that the clause of this number watches, if it watches this one.
pub(crate) fn other_of(watches: &[Watch], id: usize, lit: Lit) -> Option<Lit>
    ensures { result ≡ other_watch (watch_at watches.now id) lit }
{
    let watch = watch_of(watches, id);
    if watch.first == watch.second {
        None
    } else if watch.first == lit {
        Some(watch.second)
    } else if watch.second == lit {
        Some(watch.first)
    } else {
        None
    }
}
