//! Laws of the passive form.
ghost use Rattle.passive_form.specs.Laws.{ItemsSay, OrderedAreThere, ProcsAreSorted};
ghost use Rattle.passive_form.specs.SameRuns.{StartIs, LimitedRun, PlainRun};

use flat_prog::runs_keep_sorts;

/// The items of a block say of versions what its commands do to variables: under values of the versions that fit the items' definitions
/// the commands pass exactly if the items' conditions hold, and lead to the values of the last versions.
pub fn items_say_what_commands_do()
    ensures { ItemsSay }
{}

/// In a procedure whose commands have their sorts and which has a block, the blocks of an order are there, block 0 among them, and
/// what their havocs name is there.
pub fn ordered_blocks_are_there()
    ensures { OrderedAreThere }
{}

/// The procedures of a flat program have their sorts, as the passive form wants them.
pub fn procedures_have_their_sorts()
    ensures { ProcsAreSorted }
{}

/// A run begins in the same state, whether its variables stand in a store or in an environment.
pub fn runs_begin_alike()
    ensures { StartIs }
{}

/// A run whose callees left alone what they may not change is one where the results of its calls name the globals alone that the
/// callees may change.
pub fn limited_runs_are_runs()
    ensures { LimitedRun }
{}

/// A run where the results of its calls name the globals alone that the callees may change is one with the other globals as the calls
/// found them.
pub fn plain_runs_are_runs()
    ensures { PlainRun }
{
    runs_keep_sorts();
}
