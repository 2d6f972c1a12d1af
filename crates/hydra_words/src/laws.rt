//! Laws of reading words. These calls do nothing; what they ensure holds of all words.

ghost use Rattle.hydra_words.specs.Faults.{FaultsAreFirst};
ghost use Rattle.hydra_words.specs.Forms.{ReadsCommandsExactly, OptionsInEitherOrder};

/// The words that read as a command are those of its form, and no others: the name, the plain words
/// in order, each number in digits and in its range, and the options in either order, each at most
/// once.
pub fn commands_are_read_exactly()
    ensures { ReadsCommandsExactly }
{}

/// The options of `check` and of `solo` may stand in either order, with the same command.
pub fn options_stand_in_either_order()
    ensures { OptionsInEitherOrder }
{}

/// A fault names the first word with which no command goes on: some command begins with the words
/// before it, and whatever stands behind it the fault is the same. Where a word is missing, some
/// command begins with all the words, and their number is told.
pub fn faults_are_first()
    ensures { FaultsAreFirst }
{}
