//! Faults of a program's text.

use bpl_ast::Word;

/// Why the tokens are no program.
#[derive(Clone, Copy, Debug, PartialEq, Eq)]
pub enum ParseKind {
    /// The token continues no program.
    Unexpected,
    /// The tokens end inside a declaration.
    EndTooSoon,
    /// The token would make the nesting 201.
    TooDeep,
    /// The token begins a form that is left out.
    LeftOut {
        /// Which form.
        what: Word,
    },
}

/// The first fault of a program's text.
#[derive(Clone, Copy, Debug, PartialEq, Eq)]
pub struct ParseFault {
    /// The offset of the token, or the length of the source where the tokens end too soon.
    pub at: usize,
    /// Which fault it is.
    pub kind: ParseKind,
}
