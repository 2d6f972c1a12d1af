//! Names and attributes.

use sqlite_items::Items;

/// An identifier.
#[derive(Debug, Drop)]
pub struct Name {
    /// The offset of its first byte in the source.
    pub at: usize,
    /// Its bytes.
    pub text: Items<u8>,
}

/// A token inside an attribute, spelt as in the source.
#[derive(Debug, Drop)]
pub struct Lexeme {
    /// The offset of its first byte in the source.
    pub at: usize,
    /// Its bytes; those of a string begin and end with its quotes.
    pub text: Items<u8>,
}

/// An attribute, `{:name token token ..}`.
#[derive(Debug, Drop)]
pub struct Attribute {
    /// The offset of its brace.
    pub at: usize,
    /// The name after the colon.
    pub name: Name,
    /// The tokens after the name, none of them a brace.
    pub tokens: Items<Lexeme>,
}
