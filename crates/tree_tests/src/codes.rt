//! Paths as numbers, so that cases can stand in tables: a one and then the sites, each a digit. The root is 1, and `0/2` is 102.
use call_tree::SitePath;
use sqlite_items::Items;
use std::alloc::{AllocError, Global};

// The digits of a number but for its first, the last one first.
fn digits(alloc: Global, code: u64) -> Result<Vec<u32>, AllocError> {
    let mut left = code;
    let mut found = Vec::new(alloc);
    for _digit in 0..19 {
        if left < 10 {
            return Ok(found);
        }
        found.push((left % 10) as u32)?;
        left /= 10;
    }
    Ok(found)
}

/// The path of a number.
pub fn path_of(alloc: Global, code: u64) -> Result<SitePath, AllocError> {
    let found = digits(alloc, code)?;
    let mut sites = Vec::new(alloc);
    for digit in found.as_slice().iter().rev() {
        sites.push(*digit)?;
    }
    Ok(SitePath::new(Items::from_vec(sites)))
}

// The number of a path.
fn code_of(path: &SitePath) -> u64 {
    let mut code: u64 = 1;
    for site in path.sites() {
        code = code.wrapping_mul(10).wrapping_add(*site as u64);
    }
    code
}

/// The numbers of some paths, each below ten thousand, one behind the other.
pub fn codes_of(paths: &[SitePath]) -> u64 {
    let mut codes: u64 = 0;
    for path in paths {
        codes = codes.wrapping_mul(10000).wrapping_add(code_of(path));
    }
    codes
}
