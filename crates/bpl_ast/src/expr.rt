//! Expressions.

use crate::name::Name;
use sqlite_items::{Boxed, Items};

/// What stands in brackets after an operand. Brackets are a list, so that a tree is no deeper than its phrases nest.
#[derive(Debug, Drop)]
#[cycle(expression)]
pub enum Bracket {
    /// `map[index]`
    Select {
        /// The index.
        index: Expr,
    },
    /// `map[index := value]`
    Store {
        /// The index.
        index: Expr,
        /// The value at the index.
        value: Expr,
    },
    /// `operand[high:low]`, the bits from low on, below high.
    Extract {
        /// The first bit above the extract.
        high: u128,
        /// The lowest bit of the extract.
        low: u128,
    },
}

/// An expression. A node whose first operand stands in parentheses begins at the parenthesis.
#[derive(Debug, Drop)]
#[cycle(expression)]
pub enum Expr {
    /// `true`
    True {
        /// The offset of the first token.
        at: usize,
    },
    /// `false`
    False {
        /// The offset of the first token.
        at: usize,
    },
    /// A bit-vector literal.
    Literal {
        /// The offset of the first token.
        at: usize,
        /// The width in bits, from 1 to 64.
        width: u32,
        /// The bits as an unsigned number, below 2 to the width.
        bits: u64,
    },
    /// The name of a variable, a parameter or a constant.
    Variable {
        /// The name.
        name: Name,
    },
    /// `function(argument, ..)`
    Apply {
        /// The name of the function.
        function: Name,
        /// The arguments, any number of them.
        arguments: Items<Expr>,
    },
    /// `operand[..][..]..`: each bracket applies to all that stands before it.
    Post {
        /// The offset of the first token.
        at: usize,
        /// What the first bracket applies to.
        operand: Boxed<Expr>,
        /// One bracket or more.
        brackets: Items<Bracket>,
    },
    /// `!operand`
    Not {
        /// The offset of the first token.
        at: usize,
        /// The operand.
        operand: Boxed<Expr>,
    },
    /// `operand ++ operand ++ ..`, which groups from the left.
    Concat {
        /// The offset of the first token.
        at: usize,
        /// Two operands or more.
        operands: Items<Expr>,
    },
    /// `left == right`
    Equal {
        /// The offset of the first token.
        at: usize,
        /// The left side.
        left: Boxed<Expr>,
        /// The right side.
        right: Boxed<Expr>,
    },
    /// `left != right`
    NotEqual {
        /// The offset of the first token.
        at: usize,
        /// The left side.
        left: Boxed<Expr>,
        /// The right side.
        right: Boxed<Expr>,
    },
    /// `operand && operand && ..`
    And {
        /// The offset of the first token.
        at: usize,
        /// Two operands or more.
        operands: Items<Expr>,
    },
    /// `operand || operand || ..`
    Or {
        /// The offset of the first token.
        at: usize,
        /// Two operands or more.
        operands: Items<Expr>,
    },
    /// `left ==> right`, which groups from the right.
    Implies {
        /// The offset of the first token.
        at: usize,
        /// The premise.
        left: Boxed<Expr>,
        /// The conclusion.
        right: Boxed<Expr>,
    },
    /// `operand <== operand <== ..`, which groups from the left; `a <== b` means `b ==> a`.
    ImpliedBy {
        /// The offset of the first token.
        at: usize,
        /// Two operands or more.
        operands: Items<Expr>,
    },
    /// `operand <==> operand <==> ..`, which groups from the left.
    Equivalent {
        /// The offset of the first token.
        at: usize,
        /// Two operands or more.
        operands: Items<Expr>,
    },
    /// `if condition then yes else no`
    Choice {
        /// The offset of the first token.
        at: usize,
        /// The condition.
        condition: Boxed<Expr>,
        /// The value where the condition is true.
        yes: Boxed<Expr>,
        /// The value where it is false.
        no: Boxed<Expr>,
    },
}
