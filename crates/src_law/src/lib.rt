//! Laws of the machine: on each list of choices a run comes to stand, with one status, whose cause
//! can be seen; a bad choice is the first one; what is asked for can be given; the open loops are
//! those around the block; the open frames are as many as the bound at most; values have their sorts;
//! each choice has the name of the variable that takes it.
#![tactic(auto)]

mod laws;

pub use laws::{
    bad_choices_are_first, each_ask_can_be_met, each_list_has_a_status, names_are_of_choices,
    names_are_unique, open_frames_are_bounded, open_loops_are_counted_once, statuses_are_unique,
    statuses_have_causes, values_have_their_sorts,
};
