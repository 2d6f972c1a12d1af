//! The word at a place, as a text or as a number in a range.

ghost use Rattle.std.specs.Prelude.{◌≡◌, Ok, Err, MatchResult, true, length};
ghost use Rattle.hydra_words.specs.Words.{text_at, ranged, number_in, number_at, ended_at};

use crate::command::{WordFault, WordKind};
use hy_text::{NumFault, Text, read_u64};

/// The word at a place; Missing, at the number of words, where there is none.
#[tactic(auto, unfolding(crate::specs::Words::text_at))]
pub fn text_at(words: &[Text], index: usize) -> Result<&Text, WordFault>
    ensures { MatchResult result (λ word. text_at words.now index ≡ Ok word.now) (λ fault. text_at words.now index ≡ Err fault) }
{
    match words.get(index) {
        Some(word) => Ok(word),
        None => {
            let index = words.len();
            let kind = WordKind::Missing;
            Err(WordFault { index, kind })
        }
    }
}

// A number as one from `low` to `high`.
fn ranged(low: u32, high: u32, index: usize, n: u64) -> Result<u32, WordFault>
    ensures { result ≡ ranged low high index n }
{
    if u64::from(low) <= n && n <= u64::from(high) {
        return Ok(n as u32);
    }
    let kind = WordKind::OutOfRange;
    Err(WordFault { index, kind })
}

/// The number that a word writes, from `low` to `high`. The index is that of the word.
///
/// NotNumber comes exactly where the word is empty or has a byte that is no digit, else OutOfRange
/// exactly where the number is below `low` or above `high`.
#[tactic(auto, using(crate::proofs::NumberReadings::number_readings))]
pub fn number_in(low: u32, high: u32, index: usize, word: &Text) -> Result<u32, WordFault>
    ensures { result ≡ number_in low high index word.now }
{
    let kind = match read_u64(word.as_bytes()) {
        Ok(n) => return ranged(low, high, index, n),
        Err(NumFault::TooLarge) => WordKind::OutOfRange,
        Err(NumFault::NotDigits) => WordKind::NotNumber,
    };
    Err(WordFault { index, kind })
}

/// The number at a place, from `low` to `high`; the faults are those of `text_at` and `number_in`.
pub fn number_at(words: &[Text], index: usize, low: u32, high: u32) -> Result<u32, WordFault>
    ensures { result ≡ number_at words.now index low high }
{
    number_in(low, high, index, text_at(words, index)?)
}

/// Nothing, where no word stands at a place or behind it; else Unexpected, at that place.
#[tactic(auto, unfolding(crate::specs::Words::ended_at))]
pub fn ended_at(words: &[Text], index: usize) -> Result<(), WordFault>
    ensures { MatchResult result (λ _. ended_at words.now index ≡ Ok true) (λ fault. ended_at words.now index ≡ Err fault) }
{
    if words.len() <= index {
        return Ok(());
    }
    let kind = WordKind::Unexpected;
    Err(WordFault { index, kind })
}
