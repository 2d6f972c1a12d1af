//! Numbers and lists of numbers by index.
ghost use Rattle.std.specs.Prelude.{◌≡◌, slice_index};
ghost use Rattle.tree_terms.specs.Tables.{row};

use sqlite_items::{Items, at};

/// The number at an index; 0 where there is none.
pub fn number_at(numbers: &[usize], index: usize) -> usize
    ensures { result ≡ slice_index numbers.now index }
{
    match numbers.get(index) {
        None => 0,
        Some(number) => *number,
    }
}

/// The list at an index; the empty one where there is none.
pub fn row_at(rows: &[Items<usize>], index: usize) -> &[usize]
    ensures { result.now ≡ row rows.now index }
{
    match at(rows, index) {
        None => &[],
        Some(numbers) => numbers.as_slice(),
    }
}
