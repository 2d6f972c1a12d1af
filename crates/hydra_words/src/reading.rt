//! Reads a command.

ghost use Rattle.std.specs.Prelude.{◌≡◌, IfOk};
ghost use Rattle.hydra_words.specs.Forms.{IsInRange};
ghost use Rattle.hydra_words.specs.Words.{Gives, command_of, command_named, check_of, solo_of, replay_of, show_of, gen_of, bound_at};

use crate::command::{Command, WordFault, WordKind};
use crate::numbers::{ended_at, number_at, text_at};
use crate::options::options_from;
use hy_text::{Or, Text};
use std::alloc::Global;

/// The command that the words are, or the first word that breaks the rule. Memory is taken for the
/// texts of a command alone, so a fault needs none.
///
/// Missing comes at the number of words, where one more is due; Unexpected at a name that no
/// command or option has, and at a word too many; NotNumber where a number is due, at a word that
/// is empty or has a byte that is no digit; OutOfRange at a number outside its range; Repeated at
/// the name of an option that is given before.
#[tactic(auto, unfolding(crate::specs::Words::command_of))]
pub fn read_words(alloc: Global, words: &[Text]) -> Result<Command, Or<WordFault>>
    ensures answer { Gives result (command_of words.now) }
    ensures ranges { IfOk result IsInRange }
{
    let name = text_at(words, 0)?;
    command_named(alloc, name.as_str(), words)
}

// The command of that name.
fn command_named(alloc: Global, name: &str, words: &[Text]) -> Result<Command, Or<WordFault>>
    ensures { Gives result (command_named name.now words.now) }
{
    if name == "check" {
        return check_of(alloc, words);
    }
    if name == "solo" {
        return solo_of(alloc, words);
    }
    if name == "replay" {
        return replay_of(alloc, words);
    }
    if name == "show" {
        return show_of(alloc, words);
    }
    if name == "gen" {
        return gen_of(words);
    }
    let kind = WordKind::Unexpected;
    Err(Or::Fault(WordFault { index: 0, kind }))
}

// The bound at a place.
fn bound_at(words: &[Text], index: usize) -> Result<u32, WordFault>
    ensures { result ≡ bound_at words.now index }
{
    number_at(words, index, 1, 1000)
}

// `check FILE ENTRY BOUND WORKERS`, and options.
fn check_of(alloc: Global, words: &[Text]) -> Result<Command, Or<WordFault>>
    ensures { Gives result (check_of words.now) }
{
    let file = text_at(words, 1)?;
    let entry = text_at(words, 2)?;
    let bound = bound_at(words, 3)?;
    let workers = number_at(words, 4, 1, 64)?;
    let options = options_from(words, 5)?;
    Ok(Command::Check {
        file: file.copy(alloc)?,
        entry: entry.copy(alloc)?,
        bound,
        workers,
        grain: options.grain.number(),
        journal: options.journal,
    })
}

// `solo FILE ENTRY BOUND`, and options.
fn solo_of(alloc: Global, words: &[Text]) -> Result<Command, Or<WordFault>>
    ensures { Gives result (solo_of words.now) }
{
    let file = text_at(words, 1)?;
    let entry = text_at(words, 2)?;
    let bound = bound_at(words, 3)?;
    let options = options_from(words, 4)?;
    Ok(Command::Solo {
        file: file.copy(alloc)?,
        entry: entry.copy(alloc)?,
        bound,
        grain: options.grain.number(),
        journal: options.journal,
    })
}

// `replay FILE ENTRY BOUND TRACE`.
fn replay_of(alloc: Global, words: &[Text]) -> Result<Command, Or<WordFault>>
    ensures { Gives result (replay_of words.now) }
{
    let file = text_at(words, 1)?;
    let entry = text_at(words, 2)?;
    let bound = bound_at(words, 3)?;
    let trace = text_at(words, 4)?;
    ended_at(words, 5)?;
    Ok(Command::Replay {
        file: file.copy(alloc)?,
        entry: entry.copy(alloc)?,
        bound,
        trace: trace.copy(alloc)?,
    })
}

// `show FILE`.
fn show_of(alloc: Global, words: &[Text]) -> Result<Command, Or<WordFault>>
    ensures { Gives result (show_of words.now) }
{
    let file = text_at(words, 1)?;
    ended_at(words, 2)?;
    Ok(Command::Show {
        file: file.copy(alloc)?,
    })
}

// `gen SEED SIZE BOUND`.
fn gen_of(words: &[Text]) -> Result<Command, Or<WordFault>>
    ensures { Gives result (gen_of words.now) }
{
    let seed = number_at(words, 1, 0, u32::MAX)?;
    let size = number_at(words, 2, 1, 1000)?;
    let bound = bound_at(words, 3)?;
    ended_at(words, 4)?;
    Ok(Command::Gen {
        seed: u64::from(seed),
        size: u64::from(size),
        bound,
    })
}
