//! Declarations, and whole programs.

use crate::expr::Expr;
use crate::name::{Attribute, Name};
use crate::sort::Sort;
use crate::stmt::Stmt;
use sqlite_items::Items;

/// `type name = sort;`
#[derive(Debug, Drop)]
pub struct Synonym {
    /// The offset of the word `type`.
    pub at: usize,
    /// Its attributes.
    pub attributes: Items<Attribute>,
    /// The declared name.
    pub name: Name,
    /// What it stands for.
    pub sort: Sort,
}

/// `const name, ..: sort;` or `const unique name, ..: sort;`
#[derive(Debug, Drop)]
pub struct Constants {
    /// The offset of the word `const`.
    pub at: usize,
    /// Its attributes.
    pub attributes: Items<Attribute>,
    /// Whether `unique` stands.
    pub unique: bool,
    /// One name or more.
    pub names: Items<Name>,
    /// The sort of all of them.
    pub sort: Sort,
}

/// An argument of a function, `name: sort` or `sort`.
#[derive(Debug, Drop)]
pub struct FunctionArgument {
    /// The offset of the first token.
    pub at: usize,
    /// The name.
    pub name: Option<Name>,
    /// The sort.
    pub sort: Sort,
}

/// The result of a function.
#[derive(Debug, Drop)]
pub enum FunctionResult {
    /// `returns (argument)`
    Returns {
        /// The offset of the word.
        at: usize,
        /// What stands in the parentheses.
        argument: FunctionArgument,
    },
    /// `: sort`
    Plain {
        /// The offset of the colon.
        at: usize,
        /// The sort.
        sort: Sort,
    },
}

/// `function name(argument, ..) result;` or the same with a body in braces.
#[derive(Debug, Drop)]
pub struct Function {
    /// The offset of the word `function`.
    pub at: usize,
    /// Its attributes.
    pub attributes: Items<Attribute>,
    /// The declared name.
    pub name: Name,
    /// The arguments, any number of them.
    pub arguments: Items<FunctionArgument>,
    /// The result.
    pub output: FunctionResult,
    /// The body.
    pub body: Option<Expr>,
}

/// `axiom condition;`
#[derive(Debug, Drop)]
pub struct Axiom {
    /// The offset of the word `axiom`.
    pub at: usize,
    /// Its attributes.
    pub attributes: Items<Attribute>,
    /// The condition.
    pub condition: Expr,
}

/// `name, ..: sort`
#[derive(Debug, Drop)]
pub struct Group {
    /// The offset of the first name.
    pub at: usize,
    /// One name or more.
    pub names: Items<Name>,
    /// The sort of all of them.
    pub sort: Sort,
}

/// `var name, ..: sort, ..;`, of the program or of a body.
#[derive(Debug, Drop)]
pub struct Variables {
    /// The offset of the word `var`.
    pub at: usize,
    /// Its attributes.
    pub attributes: Items<Attribute>,
    /// One group or more.
    pub groups: Items<Group>,
}

/// A group of parameters, which may have attributes before its names.
#[derive(Debug, Drop)]
pub struct ParameterGroup {
    /// The offset of the first token.
    pub at: usize,
    /// Its attributes.
    pub attributes: Items<Attribute>,
    /// One name or more.
    pub names: Items<Name>,
    /// The sort of all of them.
    pub sort: Sort,
}

/// `(ins) returns (outs)`; no `returns` and an empty one are the same.
#[derive(Debug, Drop)]
pub struct Heads {
    /// The offset of the first parenthesis.
    pub at: usize,
    /// The groups of in-parameters, any number of them.
    pub ins: Items<ParameterGroup>,
    /// The groups of out-parameters, any number of them.
    pub outs: Items<ParameterGroup>,
}

/// `modifies name, ..;`
#[derive(Debug, Drop)]
pub struct Modifies {
    /// The offset of the word.
    pub at: usize,
    /// Its attributes.
    pub attributes: Items<Attribute>,
    /// Any number of names.
    pub names: Items<Name>,
}

/// The body of a procedure, in braces.
#[derive(Debug, Drop)]
pub struct Body {
    /// The offset of the first brace.
    pub at: usize,
    /// The lines of local variables.
    pub locals: Items<Variables>,
    /// The statements.
    pub statements: Items<Stmt>,
}

/// `procedure name heads; specs` or `procedure name heads specs body`
#[derive(Debug, Drop)]
pub struct Procedure {
    /// The offset of the word `procedure`.
    pub at: usize,
    /// Its attributes.
    pub attributes: Items<Attribute>,
    /// The declared name.
    pub name: Name,
    /// The parameters.
    pub heads: Heads,
    /// What it says that it modifies.
    pub specs: Items<Modifies>,
    /// The body, which stands where no `;` follows the heads.
    pub body: Option<Body>,
}

/// `implementation name heads body`
#[derive(Debug, Drop)]
pub struct Implementation {
    /// The offset of the word `implementation`.
    pub at: usize,
    /// Its attributes.
    pub attributes: Items<Attribute>,
    /// The name of the procedure.
    pub name: Name,
    /// The parameters.
    pub heads: Heads,
    /// The body.
    pub body: Body,
}

/// A declaration.
#[derive(Debug, Drop)]
pub enum Decl {
    /// `type`
    Synonym(Synonym),
    /// `const`
    Constants(Constants),
    /// `function`
    Function(Function),
    /// `axiom`
    Axiom(Axiom),
    /// `var`
    Variables(Variables),
    /// `procedure`
    Procedure(Procedure),
    /// `implementation`
    Implementation(Implementation),
}

/// A program: its declarations in the order of the text.
#[derive(Debug, Drop)]
pub struct Ast {
    /// The declarations.
    pub decls: Items<Decl>,
}
