//! Caps on site paths, where paths lead, and what may follow a way.
use crate::codes::path_of;
use crate::programs::{looping_program, recursive_program};
use call_tree::{SitePath, callee, may_follow, proc_at, within_caps};
use sqlite_items::Items;
use std::alloc::{AllocError, Global};
use std::process::Abort;
use std::test::Fail;

// A procedure is open at most as often as the bound says, the entry counted.
#[test]
fn recursion_is_capped(rt: HostRuntime) -> Result<(), Fail> {
    let flat = recursive_program(rt.alloc())?;
    for (entry, bound, code, wanted) in [
        (1, 2, 1, true),
        (1, 2, 100, true),
        (1, 2, 1000, false),
        (0, 1, 1, true),
        (0, 1, 10, false),
        (1, 2, 11, false),
    ] {
        let path = path_of(rt.alloc(), code)?;
        assert!(rt; within_caps(&flat, entry, bound, &path) == wanted);
    }
    Ok(())
}

// A loop stands at most once more in a row than the bound says, and a new row begins behind each entry from outside.
#[test]
fn loops_are_capped_by_rows(rt: HostRuntime) -> Result<(), Fail> {
    let flat = looping_program(rt.alloc())?;
    for (bound, code, wanted) in [
        (2, 1001100, true),
        (1, 10011, false),
        (1, 1000, false),
        (2, 100110011, true),
        (2, 1001100111, false),
    ] {
        let path = path_of(rt.alloc(), code)?;
        assert!(rt; within_caps(&flat, 1, bound, &path) == wanted);
    }
    Ok(())
}

// A path of so many sites, all the first.
fn chain(alloc: Global, length: usize) -> Result<SitePath, AllocError> {
    let sites = vec![in alloc; 0u32; length]?;
    Ok(SitePath::new(Items::from_vec(sites)))
}

#[test]
fn long_paths_are_capped(rt: HostRuntime) -> Result<(), Fail> {
    let flat = recursive_program(rt.alloc())?;
    for (length, wanted) in [(999, true), (1000, false)] {
        let path = chain(rt.alloc(), length)?;
        assert!(rt; within_caps(&flat, 0, 1000, &path) == wanted);
    }
    Ok(())
}

#[test]
fn paths_lead_to_callees(rt: HostRuntime) -> Result<(), Fail> {
    let flat = looping_program(rt.alloc())?;
    for (proc, site, wanted) in [(2, 1, Some(2)), (2, 2, None), (3, 0, None)] {
        assert!(rt; callee(&flat, proc, site) == wanted);
    }
    for (code, wanted) in [(1, 1), (1001, 2), (10010, 0), (17, 0)] {
        let path = path_of(rt.alloc(), code)?;
        assert!(rt; proc_at(&flat, 1, &path) == wanted);
    }
    Ok(())
}

#[test]
fn callees_follow_ways(rt: HostRuntime) -> Result<(), Fail> {
    let recursive = recursive_program(rt.alloc())?;
    assert!(rt; may_follow(&recursive, 2, &[1, 0], 0));
    assert!(rt; !may_follow(&recursive, 2, &[1, 0, 0], 0));
    let looping = looping_program(rt.alloc())?;
    assert!(rt; may_follow(&looping, 1, &[1, 0, 2], 2));
    assert!(rt; !may_follow(&looping, 1, &[1, 0, 2, 2], 2));
    assert!(rt; may_follow(&looping, 1, &[1, 0, 2, 2, 0], 2));
    Ok(())
}
