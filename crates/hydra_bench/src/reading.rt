//! The reader on a long text.

use bpl_ast::Ast;
use bpl_parse::parse;
use bpl_show::show;
use bpl_tok::tokens;
use std::alloc::{AllocError, Global};

/// A procedure, which is repeated.
const UNIT: &[u8] =
    b"procedure p(x: bv32) returns (y: bv32) { y := add(x, 12bv32); /* up */ assert y != 0bv32; }\n";

/// Bytes in a MiB.
const MIB: u64 = 1_048_576;

/// Counts of the reader's work.
#[derive(Clone, Copy)]
pub struct Counts {
    /// The bytes of the text.
    pub bytes: usize,
    /// Its tokens.
    pub tokens: usize,
    /// The declarations of its tree, where one was read.
    pub declarations: usize,
    /// The bytes of its canonical text, where it was shown.
    pub shown: usize,
}

/// Procedures of at least so many MiB together.
fn text(alloc: Global, mib: u64) -> Result<Vec<u8>, AllocError> {
    let mut text = Vec::new(alloc);
    let count = mib.saturating_mul(MIB) / 92 + 1;
    for _ in 0..count {
        text.extend_from_slice(UNIT)?;
    }
    Ok(text)
}

/// Makes a text of at least so many MiB and cuts it into tokens.
pub fn cut(alloc: Global, mib: u64) -> Result<Counts, AllocError> {
    let text = text(alloc, mib)?;
    let count = tokens(alloc, text.as_slice()).map_or(0, |found| found.len());
    Ok(Counts {
        bytes: text.len(),
        tokens: count,
        declarations: 0,
        shown: 0,
    })
}

/// A text that was read.
#[derive(Drop)]
struct Sample {
    bytes: usize,
    tokens: usize,
    tree: Ast,
}

// Makes a text of at least so many MiB and reads its tree.
fn tree(alloc: Global, mib: u64) -> Result<Sample, AllocError> {
    let text = text(alloc, mib)?;
    let Ok(found) = tokens(alloc, text.as_slice()) else {
        return Err(AllocError);
    };
    let Ok(tree) = parse(alloc, text.as_slice(), found.as_slice()) else {
        return Err(AllocError);
    };
    Ok(Sample {
        bytes: text.len(),
        tokens: found.len(),
        tree,
    })
}

/// Makes a text of at least so many MiB and reads it as a program.
pub fn read(alloc: Global, mib: u64) -> Result<Counts, AllocError> {
    let read = tree(alloc, mib)?;
    Ok(Counts {
        bytes: read.bytes,
        tokens: read.tokens,
        declarations: read.tree.decls.as_slice().len(),
        shown: 0,
    })
}

/// Makes a text of at least so many MiB, reads it as a program and shows that.
pub fn shown(alloc: Global, mib: u64) -> Result<Counts, AllocError> {
    let read = tree(alloc, mib)?;
    let text = show(alloc, &read.tree)?;
    Ok(Counts {
        bytes: read.bytes,
        tokens: read.tokens,
        declarations: read.tree.decls.as_slice().len(),
        shown: text.as_slice().len(),
    })
}
