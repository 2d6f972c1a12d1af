//! Commands that are read from words, and the first fault of other words.

use hy_text::{Or, Text};
use hydra_words::{Command, WordFault, WordKind, read_words};
use std::alloc::{AllocError, Global};
use std::test::Fail;

// The words between the bars of a line.
fn words_of(alloc: Global, line: &str) -> Result<Vec<Text>, AllocError> {
    let mut words = Vec::new(alloc);
    for word in line.split('|') {
        words.push(Text::from_str(alloc, word)?)?;
    }
    Ok(words)
}

// A command with all that it has, in the order of its fields.
fn line_of(alloc: Global, command: &Command) -> Result<String, AllocError> {
    match command {
        Command::Check {
            file,
            entry,
            bound,
            workers,
            grain,
            journal,
        } => {
            let (file, entry) = (file.as_str(), entry.as_str());
            format!(in alloc; "Check|{file}|{entry}|{bound}|{workers}|{grain}|{journal}")
        }
        Command::Solo {
            file,
            entry,
            bound,
            grain,
            journal,
        } => {
            let (file, entry) = (file.as_str(), entry.as_str());
            format!(in alloc; "Solo|{file}|{entry}|{bound}|{grain}|{journal}")
        }
        Command::Replay {
            file,
            entry,
            bound,
            trace,
        } => {
            let (file, entry, trace) = (file.as_str(), entry.as_str(), trace.as_str());
            format!(in alloc; "Replay|{file}|{entry}|{bound}|{trace}")
        }
        Command::Show { file } => {
            let file = file.as_str();
            format!(in alloc; "Show|{file}")
        }
        Command::Gen { seed, size, bound } => format!(in alloc; "Gen|{seed}|{size}|{bound}"),
    }
}

#[test]
fn commands_are_read(rt: HostRuntime) -> Result<(), Fail> {
    let cases = [
        ("check|a|main|1|2", "Check|a|main|1|2|16|false"),
        ("check|a|main|1000|64", "Check|a|main|1000|64|16|false"),
        ("check|a|main|0001|001", "Check|a|main|1|1|16|false"),
        ("check|a|main|1|2|--journal", "Check|a|main|1|2|16|true"),
        ("check|a|main|1|2|--grain|1", "Check|a|main|1|2|1|false"),
        (
            "check|a|main|1|2|--grain|1000000",
            "Check|a|main|1|2|1000000|false",
        ),
        (
            "check|a|main|1|2|--grain|3|--journal",
            "Check|a|main|1|2|3|true",
        ),
        (
            "check|a|main|1|2|--journal|--grain|3",
            "Check|a|main|1|2|3|true",
        ),
        ("check||--journal|1|2", "Check||--journal|1|2|16|false"),
        ("check|a|--grain|1|1", "Check|a|--grain|1|1|16|false"),
        ("check|check|a b|1|1", "Check|check|a b|1|1|16|false"),
        ("solo|a|main|1", "Solo|a|main|1|16|false"),
        ("solo|a|main|1000|--journal", "Solo|a|main|1000|16|true"),
        ("solo|a|main|7|--grain|2", "Solo|a|main|7|2|false"),
        ("solo|a|main|7|--grain|2|--journal", "Solo|a|main|7|2|true"),
        ("solo|a|main|7|--journal|--grain|2", "Solo|a|main|7|2|true"),
        ("replay|a|main|1|t", "Replay|a|main|1|t"),
        ("replay|a|main|1000|--grain", "Replay|a|main|1000|--grain"),
        ("show|a", "Show|a"),
        ("show|", "Show|"),
        ("show|--help", "Show|--help"),
        ("gen|0|1|1", "Gen|0|1|1"),
        ("gen|4294967295|1000|1000", "Gen|4294967295|1000|1000"),
        ("gen|7|6|2", "Gen|7|6|2"),
    ];
    for (line, told) in cases {
        let words = words_of(rt.alloc(), line)?;
        let command = read_words(rt.alloc(), words.as_slice())?;
        let text = line_of(rt.alloc(), &command)?;
        assert_eq!(rt; text.as_str(), told, "at {line}");
    }
    Ok(())
}

// The fault of some words, where they have one.
fn fault_of(alloc: Global, words: &[Text]) -> Result<Option<WordFault>, AllocError> {
    match read_words(alloc, words) {
        Ok(_) => Ok(None),
        Err(Or::Fault(fault)) => Ok(Some(fault)),
        Err(Or::NoMemory) => Err(AllocError),
    }
}

#[test]
fn the_first_fault_is_told(rt: HostRuntime) -> Result<(), Fail> {
    let none = Vec::new(rt.alloc());
    let fault = fault_of(rt.alloc(), none.as_slice())?;
    let kind = WordKind::Missing;
    assert_eq!(rt; fault, Some(WordFault { index: 0, kind }));
    let cases = [
        ("check", 1, WordKind::Missing),
        ("check|a|main|0|1", 3, WordKind::OutOfRange),
        ("check|a|main|1001|1", 3, WordKind::OutOfRange),
        ("check|a|main|1|0", 4, WordKind::OutOfRange),
        ("check|a|main|1|65", 4, WordKind::OutOfRange),
        ("check|a|main|x|1", 3, WordKind::NotNumber),
        (
            "check|a|main|1|2|--grain|2|--grain|3",
            7,
            WordKind::Repeated,
        ),
        ("check|a|main|1|2|--grain", 6, WordKind::Missing),
        ("solo|a|main|1|extra", 4, WordKind::Unexpected),
        ("", 0, WordKind::Unexpected),
        ("--help", 0, WordKind::Unexpected),
        ("--version", 0, WordKind::Unexpected),
        ("Check|a|main|1|1", 0, WordKind::Unexpected),
        ("check |a|main|1|1", 0, WordKind::Unexpected),
        ("--journal|check|a|main|1|1", 0, WordKind::Unexpected),
        ("check|a", 2, WordKind::Missing),
        ("check|a|main", 3, WordKind::Missing),
        ("check|a|main|1", 4, WordKind::Missing),
        ("check|a|main|x", 3, WordKind::NotNumber),
        ("check|a|main||1", 3, WordKind::NotNumber),
        ("check|a|main|+1|1", 3, WordKind::NotNumber),
        ("check|a|main|-1|1", 3, WordKind::NotNumber),
        ("check|a|main| 1|1", 3, WordKind::NotNumber),
        ("check|a|main|1|2x", 4, WordKind::NotNumber),
        ("check|a|main|0|x", 3, WordKind::OutOfRange),
        (
            "check|a|main|18446744073709551615|1",
            3,
            WordKind::OutOfRange,
        ),
        (
            "check|a|main|18446744073709551616|1",
            3,
            WordKind::OutOfRange,
        ),
        (
            "check|a|main|18446744073709551617|1",
            3,
            WordKind::OutOfRange,
        ),
        ("check|a|main|1|--journal", 4, WordKind::NotNumber),
        ("check|a|main|1|2|3", 5, WordKind::Unexpected),
        ("check|a|main|1|2|--help", 5, WordKind::Unexpected),
        ("check|a|main|1|2|", 5, WordKind::Unexpected),
        ("check|a|main|1|2|--grain=3", 5, WordKind::Unexpected),
        ("check|a|main|1|2|--grain|0", 6, WordKind::OutOfRange),
        ("check|a|main|1|2|--grain|1000001", 6, WordKind::OutOfRange),
        ("check|a|main|1|2|--grain|--journal", 6, WordKind::NotNumber),
        ("check|a|main|1|2|--grain|--grain", 6, WordKind::NotNumber),
        ("check|a|main|1|2|--grain|3|4", 7, WordKind::Unexpected),
        (
            "check|a|main|1|2|--journal|--journal",
            6,
            WordKind::Repeated,
        ),
        ("check|a|main|1|2|--journal|--grain", 7, WordKind::Missing),
        (
            "check|a|main|1|2|--journal|--grain|3|--journal",
            8,
            WordKind::Repeated,
        ),
        (
            "check|a|main|1|2|--grain|3|--journal|--grain",
            8,
            WordKind::Repeated,
        ),
        (
            "check|a|main|1|2|--grain|3|--journal|x",
            8,
            WordKind::Unexpected,
        ),
        ("solo", 1, WordKind::Missing),
        ("solo|a", 2, WordKind::Missing),
        ("solo|a|main", 3, WordKind::Missing),
        ("solo|a|main|0", 3, WordKind::OutOfRange),
        ("solo|a|main|1001", 3, WordKind::OutOfRange),
        ("solo|a|main|1|2", 4, WordKind::Unexpected),
        ("solo|a|main|1|--grain", 5, WordKind::Missing),
        ("solo|a|main|1|--grain|x", 5, WordKind::NotNumber),
        ("solo|a|main|1|--journal|--journal", 5, WordKind::Repeated),
        ("replay", 1, WordKind::Missing),
        ("replay|a", 2, WordKind::Missing),
        ("replay|a|main", 3, WordKind::Missing),
        ("replay|a|main|0|t", 3, WordKind::OutOfRange),
        ("replay|a|main|1001|t", 3, WordKind::OutOfRange),
        ("replay|a|main|1", 4, WordKind::Missing),
        ("replay|a|main|1|t|u", 5, WordKind::Unexpected),
        ("replay|a|main|1|t|--grain|1", 5, WordKind::Unexpected),
        ("replay|a|main|1|t|--journal", 5, WordKind::Unexpected),
        ("show", 1, WordKind::Missing),
        ("show|a|b", 2, WordKind::Unexpected),
        ("show|a|--grain|1", 2, WordKind::Unexpected),
        ("show|a|--journal", 2, WordKind::Unexpected),
        ("gen", 1, WordKind::Missing),
        ("gen|0", 2, WordKind::Missing),
        ("gen|0|1", 3, WordKind::Missing),
        ("gen|4294967296|1|1", 1, WordKind::OutOfRange),
        ("gen|x|1|1", 1, WordKind::NotNumber),
        ("gen|0|0|1", 2, WordKind::OutOfRange),
        ("gen|0|1001|1", 2, WordKind::OutOfRange),
        ("gen|0|1|0", 3, WordKind::OutOfRange),
        ("gen|0|1|1001", 3, WordKind::OutOfRange),
        ("gen|0|1|1|--journal", 4, WordKind::Unexpected),
        ("gen|0|1|1|1", 4, WordKind::Unexpected),
    ];
    for (line, index, kind) in cases {
        let words = words_of(rt.alloc(), line)?;
        let fault = fault_of(rt.alloc(), words.as_slice())?;
        assert_eq!(rt; fault, Some(WordFault { index, kind }), "at {line}");
    }
    Ok(())
}
