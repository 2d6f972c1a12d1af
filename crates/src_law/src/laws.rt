//! The laws, each the contract of a function that does nothing.
ghost use Rattle.src_law.specs.AskedNames.{NamesAreUnique, NamesAreOfChoices};
ghost use Rattle.src_law.specs.Causes.{StatusesHaveCauses};
ghost use Rattle.src_law.specs.HeldValues.{ValuesHaveTheirSorts};
ghost use Rattle.src_law.specs.OpenFrames.{OpenFramesAreBounded};
ghost use Rattle.src_law.specs.OpenLoops.{OpenLoopsAreCountedOnce};
ghost use Rattle.src_law.specs.Statuses.{StatusesAreUnique, EachListHasAStatus, BadChoicesAreFirst, EachAskCanBeMet};

/// A run on a list of choices comes to stand with one status at most.
pub fn statuses_are_unique()
    ensures { StatusesAreUnique }
{}

/// A run of a program comes to stand on each list of choices, whatever the entry and the bound.
pub fn each_list_has_a_status()
    ensures { EachListHasAStatus }
{}

/// Behind the end of a run the next choice is bad. The index of a bad choice is that of the first
/// one: it is below the length of the list, the choices before it were taken, and those behind it
/// change nothing.
pub fn bad_choices_are_first()
    ensures { BadChoicesAreFirst }
{}

/// Where a run of a program asks for a choice, there is one that it takes.
pub fn each_ask_can_be_met()
    ensures { EachAskCanBeMet }
{}

/// Wherever a run of a program is, the open loops of each frame are those of its procedure that hold
/// its block, innermost first. No two have one head, so each loop has one count, and no count is
/// above the bound.
pub fn open_loops_are_counted_once()
    ensures { OpenLoopsAreCountedOnce }
{}

/// The cause of a run's end can be seen where the run stands, if the run is one of a program. Ended:
/// no frame is open. Failed: the next command is the assert that the status names, and it is false.
/// Blocked: the constants are not allowed, or the next command is an assumption that is false; never
/// for want of a procedure, a block, a target or a frame, where the entry is there. Cut: the next
/// command calls a procedure that has as many open frames as the bound, or the block's end has an
/// edge back to the head of an open loop whose count is the bound.
pub fn statuses_have_causes()
    ensures { StatusesHaveCauses }
{}

/// Wherever a run is, no more frames of a procedure are open than the bound allows, but one of the
/// entry where the bound is 0.
pub fn open_frames_are_bounded()
    ensures { OpenFramesAreBounded }
{}

/// Wherever a run of a program is, each constant and each global that it holds, and each local of each
/// open frame, has the sort of its declaration, and so has the value that is asked for next. None is
/// missing where the run does not ask for the first value of one: where it asks for nothing, for a
/// target, or for a new value of a variable, if the entry is there.
pub fn values_have_their_sorts()
    ensures { ValuesHaveTheirSorts }
{}

/// A run on a list of choices has one list of names at most.
pub fn names_are_unique()
    ensures { NamesAreUnique }
{}

/// Where each choice of a run of a program was taken, there are as many names as choices: None exactly
/// at a target, and at a value the name of a variable that the program declares, whose sort the value
/// has.
pub fn names_are_of_choices()
    ensures { NamesAreOfChoices }
{}
