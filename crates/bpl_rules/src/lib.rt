//! Rules of a grammar, which carry a meaning and a reader, and their laws.
//!
//! The crate has no code. `specs/Rules.antt` has the rules: one token, sequence, choice, any number, nesting and the rest. Each
//! says which tokens spell which value, which tokens have begun a phrase, and how a phrase is read. `specs/Reading.antt` says
//! what reading by a grammar promises of whole programs, in words of the grammar alone. `proofs/` has the laws of each rule
//! (`Lawful`), of a rule with one more level of nesting (`Rises`), and what they say of programs (`Whole`).
#![tactic(auto)]
