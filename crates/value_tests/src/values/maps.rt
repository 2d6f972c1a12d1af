//! Maps: what is stored is selected, and nothing else.

use super::operators::word;
use hy_val::{Atom, MapValue, maps_that_agree_are_equal, select, store};
use std::test::Fail;

#[test]
fn a_stored_entry_is_selected(rt: HostRuntime) -> Result<(), Fail> {
    let i = word(&rt, 8, 7);
    let v = Atom::bool(true);
    let mut m = MapValue::zero(rt.alloc(), i.sort(), v.sort());
    let before = select(&m, i);
    assert_eq!(rt; before, Atom::bool(false));
    store(&mut m, i, v)?;
    let after = select(&m, i);
    assert_eq!(rt; after, v);
    let copy = m.copy(rt.alloc())?;
    assert_eq!(rt; copy.pairs().len(), 1);
    maps_that_agree_are_equal();
    Ok(())
}
