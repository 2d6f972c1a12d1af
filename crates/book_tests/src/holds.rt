//! Leaves are taken and given back, whoever holds them, up to a hundred thousand events.
use crate::programs::asked;
use piece_core::{Book, EventRefusal, Verdict2};
use std::alloc::{AllocError, Global};
use std::process::Abort;
use std::test::Fail;

fn opened(alloc: Global) -> Result<Book, AllocError> {
    let task = asked(alloc)?;
    Book::open(alloc, task)
}

// What a book said, in words.
fn said(answer: Result<(), EventRefusal>) -> (&'static str, u64) {
    match answer {
        Ok(()) => ("booked", 0),
        Err(EventRefusal::NoNode { nodes }) => ("no node", nodes as u64),
        Err(EventRefusal::Stale { .. }) => ("stale", 0),
        Err(EventRefusal::Held { by }) => ("held", by as u64),
        Err(EventRefusal::NotHeld) => ("not held", 0),
        Err(EventRefusal::Moved) => ("moved", 0),
        Err(EventRefusal::NoMemory) => ("no memory", 0),
    }
}

// Takes a leaf, with room made for it.
fn take(book: &mut Book, worker: u32, node: usize) -> Result<(&'static str, u64), AllocError> {
    book.make_room(2)?;
    Ok(said(book.take(worker, node)))
}

fn back(book: &mut Book, worker: u32, node: usize) -> (&'static str, u64) {
    said(book.back(worker, node))
}

#[test]
fn an_opened_book_has_one_live_leaf(rt: HostRuntime) -> Result<(), Fail> {
    let book = opened(rt.alloc())?;
    assert!(rt; book.live() == Some(0));
    assert!(rt; book.verdict() == Verdict2::Unfinished);
    assert!(rt; book.journal().is_empty());
    assert!(rt; book.leaf(1).is_none());
    let leaf = book.leaf(0).ok_or("no leaf")?;
    assert!(rt; leaf.piece.decisions().is_empty());
    assert!(rt; leaf.tree.nodes().len() == 1);
    assert!(rt; leaf.holder.is_none());
    Ok(())
}

#[test]
fn refusals_name_their_cause(rt: HostRuntime) -> Result<(), Fail> {
    let mut book = opened(rt.alloc())?;
    assert!(rt; back(&mut book, 3, 0) == ("not held", 0));
    assert!(rt; take(&mut book, 3, 0)? == ("booked", 0));
    assert!(rt; take(&mut book, 4, 0)? == ("held", 3));
    assert!(rt; take(&mut book, 3, 0)? == ("held", 3));
    assert!(rt; take(&mut book, 3, 1)? == ("no node", 1));
    assert!(rt; back(&mut book, 3, 1) == ("no node", 1));
    assert!(rt; book.sight(rt.alloc(), 1).is_err());
    assert!(rt; book.sight(rt.alloc(), 0).is_ok());
    assert!(rt; back(&mut book, 4, 0) == ("booked", 0));
    assert!(rt; back(&mut book, 3, 0) == ("not held", 0));
    assert!(rt; book.journal().len() == 2);
    Ok(())
}

#[test]
fn a_hundred_thousand_events_are_booked(rt: HostRuntime) -> Result<(), Fail> {
    let mut book = opened(rt.alloc())?;
    for worker in 0..50000u32 {
        assert!(rt; take(&mut book, worker, 0)? == ("booked", 0));
        assert!(rt; back(&mut book, worker, 0) == ("booked", 0));
    }
    assert!(rt; book.journal().len() == 100000);
    assert!(rt; book.live() == Some(0));
    Ok(())
}
