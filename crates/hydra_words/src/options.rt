//! The options behind the plain words of a command.

ghost use Rattle.std.specs.Prelude.{◌≡◌, ◌+◌, ◌<◌, ◌^◌, length};
ghost use Rattle.hydra_words.specs.Words.{is_given, is_due, grain_of, no_options, with_name, with_grain, with_word, with_words, whole, options_from};

use crate::command::{WordFault, WordKind};
use crate::numbers::number_in;
use hy_text::Text;

/// How far `--grain` is read.
#[derive(Clone, Copy)]
pub enum Grain {
    /// It isn't given.
    NotGiven,
    /// Its name is read, and its number is due.
    Due,
    /// Its number.
    Given(u32),
}

/// What the options say that are read so far.
#[derive(Clone, Copy)]
pub struct Options {
    /// How far `--grain` is read.
    pub grain: Grain,
    /// Whether `--journal` is given.
    pub journal: bool,
}

impl Grain {
    // Whether its name is read.
    fn is_given(self) -> bool
        ensures { result ≡ is_given self }
    {
        match self {
            Grain::NotGiven => false,
            Grain::Due | Grain::Given(_) => true,
        }
    }

    // Whether its number is due.
    fn is_due(self) -> bool
        ensures { result ≡ is_due self }
    {
        match self {
            Grain::Due => true,
            Grain::NotGiven | Grain::Given(_) => false,
        }
    }

    /// Its number, 16 where it isn't given.
    pub fn number(self) -> u32
        ensures { result ≡ grain_of self }
    {
        match self {
            Grain::NotGiven | Grain::Due => 16,
            Grain::Given(number) => number,
        }
    }
}

// The options with the name of one more.
fn with_name(index: usize, options: Options, word: &Text) -> Result<Options, WordFault>
    ensures { result ≡ with_name index options word.now }
{
    let Options { grain, journal } = options;
    let name = word.as_str();
    let kind = WordKind::Repeated;
    if name == "--grain" {
        if grain.is_given() {
            return Err(WordFault { index, kind });
        }
        let grain = Grain::Due;
        return Ok(Options { grain, journal });
    }
    if name == "--journal" {
        if journal {
            return Err(WordFault { index, kind });
        }
        let journal = true;
        return Ok(Options { grain, journal });
    }
    let kind = WordKind::Unexpected;
    Err(WordFault { index, kind })
}

// The options with the number of `--grain`.
fn with_grain(index: usize, options: Options, word: &Text) -> Result<Options, WordFault>
    ensures { result ≡ with_grain index options word.now }
{
    let grain = Grain::Given(number_in(1, 1_000_000, index, word)?);
    let journal = options.journal;
    Ok(Options { grain, journal })
}

// The options with one word more: the number of `--grain` where that is due, else a name.
#[tactic(auto, unfolding(crate::specs::Words::with_word))]
fn with_word(index: usize, options: Options, word: &Text) -> Result<Options, WordFault>
    ensures { result ≡ with_word index options word.now }
{
    if options.grain.is_due() {
        with_grain(index, options, word)
    } else {
        with_name(index, options, word)
    }
}

// The options where all words are read; Missing, at their number, where one is due.
fn whole(index: usize, options: Options) -> Result<Options, WordFault>
    ensures { result ≡ whole index options }
{
    if options.grain.is_due() {
        let kind = WordKind::Missing;
        return Err(WordFault { index, kind });
    }
    Ok(options)
}

// What the options say that these words are; the first is that of an index.
#[tactic(auto, using(crate::proofs::OptionSteps::steps))]
fn with_words(first: usize, words: &[Text]) -> Result<Options, WordFault>
    requires { first + length words.now < 2 ^ 64 }
    ensures { result ≡ with_words first no_options words.now }
{
    let mut options = Options {
        grain: Grain::NotGiven,
        journal: false,
    };
    let mut index = first;
    for word in words {
        options = with_word(index, options, word)?;
        index += 1;
    }
    whole(index, options)
}

/// What the options say that stand from a place on, in any order, each at most once.
///
/// Repeated comes at the name of an option that is given before, NotNumber or OutOfRange at the
/// number of `--grain`, Missing, at the number of words, where that is due, Unexpected at any other
/// word. The first of these is told.
pub fn options_from(words: &[Text], first: usize) -> Result<Options, WordFault>
    ensures { result ≡ options_from words.now first }
{
    if words.len() <= first {
        return with_words(first, &[]);
    }
    with_words(first, &words[first..])
}
