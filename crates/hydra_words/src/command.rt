//! Commands, and the faults of words that are none.

use hy_text::{Or, Text};

/// What the words ask for. Texts are as they were given; numbers are in their ranges.
#[derive(Debug, Drop)]
pub enum Command {
    /// To search the runs of a procedure with several workers.
    Check {
        /// The name of the file.
        file: Text,
        /// The name of the procedure whose runs are searched.
        entry: Text,
        /// The bound on the rounds of loops and on nested calls, 1 to 1000.
        bound: u32,
        /// How many workers search, 1 to 64.
        workers: u32,
        /// How many calls are opened before a piece of work is divided, 1 to 1,000,000; 16 where
        /// it isn't given.
        grain: u32,
        /// Whether the journal of the search is printed.
        journal: bool,
    },
    /// To search the runs of a procedure with one worker.
    Solo {
        /// The name of the file.
        file: Text,
        /// The name of the procedure whose runs are searched.
        entry: Text,
        /// The bound on the rounds of loops and on nested calls, 1 to 1000.
        bound: u32,
        /// How many calls are opened before a piece of work is divided, 1 to 1,000,000; 16 where
        /// it isn't given.
        grain: u32,
        /// Whether the journal of the search is printed.
        journal: bool,
    },
    /// To replay a printed trace.
    Replay {
        /// The name of the file.
        file: Text,
        /// The name of the procedure that the trace is a run of.
        entry: Text,
        /// The bound on the rounds of loops and on nested calls, 1 to 1000.
        bound: u32,
        /// The name of the file that has the trace.
        trace: Text,
    },
    /// To show the tree of a file.
    Show {
        /// The name of the file.
        file: Text,
    },
    /// To make a program and search the runs of its `main`.
    Gen {
        /// The number that the program is made from, 0 to 4,294,967,295.
        seed: u64,
        /// How many procedures it has beside `main`, 1 to 1000.
        size: u64,
        /// The bound on the rounds of loops and on nested calls, 1 to 1000.
        bound: u32,
    },
}

/// How a word breaks the rule.
#[derive(Clone, Copy, Debug, PartialEq, Eq)]
pub enum WordKind {
    /// There is no word where one is due.
    Missing,
    /// No command or option has this name, or it is a word too many.
    Unexpected,
    /// A number is due, and the word is empty or has a byte that is no decimal digit.
    NotNumber,
    /// The word is a number, but none that may stand there.
    OutOfRange,
    /// An option that stands before already.
    Repeated,
}

/// The first word that breaks the rule.
#[derive(Clone, Copy, Debug, PartialEq, Eq)]
pub struct WordFault {
    /// Which word it is, from 0; the number of words where one is missing.
    pub index: usize,
    /// How it breaks the rule.
    pub kind: WordKind,
}

impl From<WordFault> for Or<WordFault> {
    ghost use Rattle.std.specs.Prelude.{◌≡◌};
    ghost use Rattle.hy_text.specs.declared.refusal.Or.TheVariants.{Fault};

    ghost from_gives = { λ fault refusal. refusal ≡ Fault fault };

    fn from(fault: WordFault) -> Or<WordFault> {
        Or::Fault(fault)
    }
}
