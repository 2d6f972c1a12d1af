//! Tests of values and of what decides questions about them, each over public calls: texts, files,
//! expressions, terms, circuits, nets and decisions. The crate has no code.
#![tactic(auto)]

#[cfg(test)]
mod circuits;
#[cfg(test)]
mod decisions;
#[cfg(test)]
mod nets;
#[cfg(test)]
mod outside;
#[cfg(test)]
mod term_nets;
#[cfg(test)]
mod terms;
#[cfg(test)]
mod text;
#[cfg(test)]
mod values;
