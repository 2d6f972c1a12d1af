//! Tokens, their kinds, and the faults of a text that cannot be cut into them.

ghost use Rattle.std.specs.Prelude.{◌≡◌};

/// The terminal symbol of the grammar that a token is. It has no payload, so that a test on it is
/// a comparison of two small numbers; what a token says besides is in its `TokKind`.
#[derive(Clone, Copy, Debug, PartialEq, Eq)]
pub enum Terminal {
    /// An identifier that is no keyword.
    Ident,
    /// `bv` and digits, with a value from 1 to 64.
    Width,
    /// `bv` and digits, with the value 0 or one above 64.
    WideWidth,
    /// A number.
    Number,
    /// A bit-vector literal.
    Literal,
    /// A string.
    Str,
    /// `type`, which the language of proofs has as a word of its own.
    TypeWord,
    /// `const`
    Const,
    /// `unique`
    Unique,
    /// `function`
    Function,
    /// `axiom`
    Axiom,
    /// `var`
    Var,
    /// `procedure`
    Procedure,
    /// `implementation`
    Implementation,
    /// `returns`
    Returns,
    /// `modifies`
    Modifies,
    /// `requires`
    Requires,
    /// `ensures`
    Ensures,
    /// `free`
    Free,
    /// `where`
    Where,
    /// `assert`
    Assert,
    /// `assume`
    Assume,
    /// `havoc`
    Havoc,
    /// `call`
    Call,
    /// `goto`
    Goto,
    /// `return`
    Return,
    /// `if`
    If,
    /// `then`
    Then,
    /// `else`
    Else,
    /// `while`
    While,
    /// `break`
    Break,
    /// `invariant`
    Invariant,
    /// `bool`, which the language of proofs has as a type of its own.
    BoolWord,
    /// `int`
    Int,
    /// `real`
    Real,
    /// `true`
    True,
    /// `false`
    False,
    /// `old`
    Old,
    /// `forall`
    Forall,
    /// `exists`
    Exists,
    /// `lambda`
    Lambda,
    /// `extends`
    Extends,
    /// `complete`
    Complete,
    /// `async`
    Async,
    /// `par`
    Par,
    /// `yield`
    Yield,
    /// `div`
    Div,
    /// `mod`
    Mod,
    /// `(`
    LeftParen,
    /// `)`
    RightParen,
    /// `[`
    LeftBracket,
    /// `]`
    RightBracket,
    /// `{`
    LeftBrace,
    /// `}`
    RightBrace,
    /// `,`
    Comma,
    /// `;`
    Semicolon,
    /// `:`
    Colon,
    /// `:=`
    Assign,
    /// `=`
    EqualsSign,
    /// `==`
    Equal,
    /// `!=`
    NotEqual,
    /// `<==>`
    Equivalent,
    /// `==>`
    Implies,
    /// `<==`
    ImpliedBy,
    /// `<=`
    AtMost,
    /// `>=`
    AtLeast,
    /// `<`
    Less,
    /// `>`
    Greater,
    /// `&&`
    AndAnd,
    /// `||`
    OrOr,
    /// `!`
    Bang,
    /// `++`
    PlusPlus,
    /// `+`
    Plus,
    /// `-`
    Minus,
    /// `*`
    Star,
    /// `/`
    Slash,
    /// `%`
    Percent,
}

/// What kind of token it is, with what it stands for.
#[derive(Clone, Copy, Debug, PartialEq, Eq)]
pub enum TokKind {
    /// An identifier that is no keyword.
    Ident,
    /// A keyword other than `bvN`: which one, a terminal that is written as a word.
    Keyword(Terminal),
    /// The keyword `bvN`: its width N where that is 1 to 64, else nothing. Leading zeros don't count.
    Width(Option<u32>),
    /// A number, by value.
    Number(u128),
    /// A bit-vector literal: its width, from 1 to 64, and its bits, below 2 to the width.
    BvLit {
        /// The width in bits.
        width: u32,
        /// The bits as an unsigned number.
        bits: u64,
    },
    /// A string, with its two quotes.
    Str,
    /// A sign: which one, a terminal that is written in signs.
    Sign(Terminal),
}

impl TokKind {
    ghost use Rattle.bpl_tok.specs.Terminals.{terminal_of};

    /// The terminal symbol of the grammar.
    pub fn terminal(self) -> Terminal
        ensures { result ≡ terminal_of self }
    {
        match self {
            TokKind::Ident => Terminal::Ident,
            TokKind::Keyword(word) => word,
            TokKind::Width(Some(_)) => Terminal::Width,
            TokKind::Width(None) => Terminal::WideWidth,
            TokKind::Number(_) => Terminal::Number,
            TokKind::BvLit { .. } => Terminal::Literal,
            TokKind::Str => Terminal::Str,
            TokKind::Sign(sign) => sign,
        }
    }
}

/// A token of a source.
#[derive(Clone, Copy, Debug, PartialEq, Eq)]
pub struct Token {
    /// What kind of token it is, with what it stands for.
    pub kind: TokKind,
    /// The offset of its first byte in the source.
    pub at: usize,
    /// How many bytes it takes.
    pub len: usize,
}

/// Why a text cannot be cut into tokens.
#[derive(Clone, Copy, Debug, PartialEq, Eq)]
pub enum LexKind {
    /// A byte that begins no token, comment or white space.
    BadByte,
    /// The outermost `/*` that is never closed.
    OpenComment,
    /// A quote whose string meets a line feed or the end.
    OpenString,
    /// A literal whose width is 0 or above 64, or whose value is at least 2 to the width; or a
    /// number of at least 2 to the 128.
    LiteralTooWide,
}

/// The first fault of a text.
#[derive(Clone, Copy, Debug, PartialEq, Eq)]
pub struct LexFault {
    /// The offset where it is told: of the byte, of the `/*`, of the quote, of the first digit.
    pub at: usize,
    /// Which fault it is.
    pub kind: LexKind,
}
