//! Faults of typing, and which of two is told.

ghost use Rattle.std.specs.Prelude.{◌≡◌};
ghost use Rattle.type_pass.specs.Faults.{earlier, is_before, rank};

use bpl_ast::Word;

/// Why a program has no typing.
#[derive(Clone, Copy, Debug, PartialEq, Eq)]
pub enum TypeKind {
    /// A name that nothing declares.
    Unknown,
    /// A name that is declared again, a body that stands a second time, or a variable twice on one left side.
    Twice,
    /// A part whose sort is not the one that its place asks for.
    Mismatch,
    /// Too few or too many arguments, targets or values.
    Arity,
    /// Widths that don't fit.
    Width,
    /// A type that stands for itself, or a function that uses itself.
    Cyclic,
    /// A constant or an in-parameter as a target.
    NotAssignable,
    /// An expression of more than 10,000,000 nodes once functions are replaced.
    Large,
    /// A form that is left out.
    LeftOut {
        /// Which form.
        what: Word,
    },
}

/// The first fault of the first pass that has one.
#[derive(Clone, Copy, Debug, PartialEq, Eq)]
pub struct TypeFault {
    /// The offset of the first token of the smallest part at fault; for a fault of a name, that of the name.
    pub at: usize,
    /// Which fault it is.
    pub kind: TypeKind,
}

impl TypeKind {
    // The place of a kind among those of one offset.
    fn rank(self) -> u8
        ensures { result ≡ rank self }
    {
        match self {
            TypeKind::Unknown => 0,
            TypeKind::Arity => 1,
            TypeKind::Mismatch => 2,
            TypeKind::Width => 3,
            TypeKind::NotAssignable => 4,
            TypeKind::Twice => 5,
            TypeKind::LeftOut { what: _ } => 6,
            TypeKind::Cyclic => 7,
            TypeKind::Large => 8,
        }
    }
}

impl TypeFault {
    /// Whether this fault is told before another one: its offset is less, or the same and its kind
    /// comes before.
    pub fn is_before(self, other: TypeFault) -> bool
        ensures { result ≡ is_before self other }
    {
        self.at < other.at || (self.at == other.at && self.kind.rank() < other.kind.rank())
    }
}

/// The one that is told first of two faults that may be there: the one that `found` has unless that
/// of `more` is before it.
pub fn earlier(found: Option<TypeFault>, more: Option<TypeFault>) -> Option<TypeFault>
    ensures { result ≡ earlier found more }
{
    match found {
        None => more,
        Some(fault) => match more {
            None => Some(fault),
            Some(other) => {
                if other.is_before(fault) {
                    Some(other)
                } else {
                    Some(fault)
                }
            }
        },
    }
}
