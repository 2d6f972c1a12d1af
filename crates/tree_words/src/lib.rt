//! What an assignment says of a question's terms: views of the nodes of a partly inlined call tree, the runs that they stand for, and
//! that these are the members of the question (after Corral, CAV 2012). The nodes of such a run are read off the values of all terms,
//! and the rules, the root and the marks of a question are put together.
#![tactic(auto)]

mod laws;
mod lists;
mod marking;
mod reading;
mod rooting;
mod ruling;
mod sites;
#[cfg(test)]
mod tests;
mod track;
mod values;

pub use laws::{
    answers_are_members, composed_are_members, copied_are_composite, copies_can_be_assigned,
    copies_compose, copies_hold_sorts, copies_stay, edges_are_true, made_are_questions,
    members_are_over, members_are_read, members_have_choices, nodes_are_members, nodes_are_read,
    questions_stand, reaches_are_reached, reaches_stay, roots_are_made, roots_say, rules_are_fit,
    rules_are_said, runs_are_in_order, tracks_are_views,
};
pub use marking::marks;
pub use reading::read_nodes;
pub use rooting::{literal, root_of};
pub use ruling::rules_of;
pub use sites::sites_passed;
