//! Sorts.
ghost use Rattle.std.specs.Prelude.{◌≡◌, ◌↔◌, true};
ghost use Rattle.bpl_ast.specs.Alike.{bare_sort};

use crate::lists::Compare;
use crate::names::texts;
use bpl_ast::Sort;

/// Whether two sorts are alike.
fn sorts(a: &Sort, b: &Sort) -> bool
    ensures { result ≡ true ↔ bare_sort a.now ≡ bare_sort b.now }
{
    match (a, b) {
        (Sort::Boolean { .. }, Sort::Boolean { .. }) => true,
        (
            Sort::Bits {
                width: w,
                text: x,
                ..
            },
            Sort::Bits {
                width: v,
                text: y,
                ..
            },
        ) => { w == v && texts(x.as_slice(), y.as_slice()) }
        (Sort::Named { name: x }, Sort::Named { name: y }) => x.is_like(y),
        (
            Sort::Map {
                index: i,
                elem: x,
                ..
            },
            Sort::Map {
                index: j,
                elem: y,
                ..
            },
        ) => { sorts(i.get(), j.get()) && sorts(x.get(), y.get()) }
        _ => false,
    }
}

impl Compare for Sort {
    ghost bare = { bare_sort };

    fn is_like(&self, other: &Sort) -> bool {
        sorts(self, other)
    }
}
