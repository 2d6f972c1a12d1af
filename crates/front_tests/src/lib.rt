//! Tests of the front end, each over public calls: words, tokens, the grammar, the text of trees,
//! typing, flow, numbered programs, loops, traces and replay. The crate has no code.
#![tactic(auto)]

#[cfg(test)]
mod flow;
#[cfg(test)]
mod grammar;
#[cfg(test)]
mod numbering;
#[cfg(test)]
mod plain_search;
#[cfg(test)]
mod replays;
#[cfg(test)]
mod tokens;
#[cfg(test)]
mod traces;
#[cfg(test)]
mod tree_equality;
#[cfg(test)]
mod tree_text;
#[cfg(test)]
mod whole_programs;
#[cfg(test)]
mod words;
