//! What the program reports.

ghost use Rattle.std.specs.Prelude.{◌≡◌};
ghost use Rattle.hydra_top.specs.Texts.{refusal_number, status_number};

use bpl_flow::FlowFault;
use bpl_parse::ParseFault;
use bpl_tok::LexFault;
use bpl_type::TypeFault;
use hy_text::Text;
use hydra_words::WordFault;
use sqlite_items::Items;
use src_run::{Choice, Status};
use trace_text::TraceFault;

/// What of the input is not built.
#[derive(Clone, Copy, Debug, PartialEq, Eq)]
pub enum NotBuilt {
    /// The words are the command `check` or `gen`, or `solo` with an option.
    Words,
    /// The entry is not plain: there are constants or axioms; or a variable of the program or of the entry is no bool; or the entry
    /// has in-parameters, more than one block or a call; or its globals, outs, locals and the names in its `havoc` commands are
    /// more than 16.
    Source,
}

/// Why the input is refused.
#[derive(Drop)]
pub enum Refusal {
    /// The words are no command: the first word at fault.
    Words(WordFault),
    /// What it asks for is not built.
    NotBuilt { part: NotBuilt },
    /// A file has more than 16,777,216 bytes: the first one, or the second, which has the trace.
    TooLong { second: bool },
    /// The bytes of the file are no tokens: the first fault.
    Lex(LexFault),
    /// The tokens of the file are no program: the first fault.
    Parse(ParseFault),
    /// The program has a fault of typing: the first one.
    Typing(TypeFault),
    /// The program has a fault of flow: the first one.
    Flow(FlowFault),
    /// No procedure of the file that has a body has that name.
    NoEntry { name: Text },
    /// The second file is no trace: its first fault.
    TraceText(TraceFault),
    /// The run on the trace's choices stands with this status, which isn't Failed. The index is that of the first bad choice, from
    /// 0, where there is one, and else the number of choices.
    NotFailed { status: Status, index: usize },
    /// The run fails, and this line of the trace, from 1, is the first that isn't as it is printed.
    Differs { line: usize },
}

/// What came of the words.
#[derive(Drop)]
pub enum Outcome {
    /// No run of the entry within the bound fails.
    Safe,
    /// The run of the entry on these choices fails, in the procedure of that number at the assert
    /// of that number, which counts from 1.
    Bug {
        choices: Items<Choice>,
        proc: u32,
        assert: u32,
    },
    /// The tree of the file was shown, or the trace was replayed: its choices fail, and it is the printed trace of that run.
    Done,
    /// The input is refused.
    Refused(Refusal),
    /// A file could not be opened or read.
    ReadFault,
    /// The text could not be written.
    WriteFault,
    /// A request for memory was refused.
    NoMemory,
}

/// The outcome, and the status with which the process ends: 0 for Safe and Done, 10 for Bug, 2 where the
/// words are refused and 3 for every other refusal, 4 and 5 for faults of reading and writing, 6 for want of memory.
#[derive(Drop)]
pub struct Report {
    pub status: u8,
    pub outcome: Outcome,
}

impl Report {
    /// The report of an outcome.
    pub fn of(outcome: Outcome) -> Report
        ensures outcome { result.outcome ≡ outcome }
        ensures status { result.status ≡ status_number outcome }
    {
        let status = status(&outcome);
        Report { status, outcome }
    }
}

fn status(outcome: &Outcome) -> u8
    ensures { result ≡ status_number outcome.now }
{
    match outcome {
        Outcome::Safe => 0,
        Outcome::Bug {
            choices: _,
            proc: _,
            assert: _,
        } => 10,
        Outcome::Done => 0,
        Outcome::Refused(refusal) => refusal_status(refusal),
        Outcome::ReadFault => 4,
        Outcome::WriteFault => 5,
        Outcome::NoMemory => 6,
    }
}

fn refusal_status(refusal: &Refusal) -> u8
    ensures { result ≡ refusal_number refusal.now }
{
    match refusal {
        Refusal::Words(_) => 2,
        Refusal::NotBuilt { part: _ } => 3,
        Refusal::TooLong { second: _ } => 3,
        Refusal::Lex(_) => 3,
        Refusal::Parse(_) => 3,
        Refusal::Typing(_) => 3,
        Refusal::Flow(_) => 3,
        Refusal::NoEntry { name: _ } => 3,
        Refusal::TraceText(_) => 3,
        Refusal::NotFailed {
            status: _,
            index: _,
        } => 3,
        Refusal::Differs { line: _ } => 3,
    }
}
