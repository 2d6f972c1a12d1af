//! The laws of replay, each the contract of a function that does nothing.

ghost use Rattle.replay_law.specs.Laws.{PrintedTracesAreReplayed, ReplaysAreDetermined};

use src_law::{names_are_of_choices, names_are_unique, statuses_are_unique, statuses_have_causes};
use trace_text::laws::traces_are_read_back;

/// The replay of a text has one answer at most, so each answer comes exactly where its cause holds.
pub fn replays_are_determined()
    ensures { ReplaysAreDetermined }
{
    statuses_are_unique();
    names_are_unique();
}

/// The text that is printed of a failing run, replayed on the same program, entry and bound, is done, with the procedure and the
/// assert of that run, and nothing else: where the program's names are identifiers, as they are where it was read from a text.
pub fn printed_traces_are_replayed()
    ensures { PrintedTracesAreReplayed }
{
    replays_are_determined();
    statuses_are_unique();
    names_are_of_choices();
    statuses_have_causes();
    traces_are_read_back();
}
