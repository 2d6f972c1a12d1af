//! Keywords: a word is compared with those of its length alone.

ghost use Rattle.std.specs.Prelude.{◌≡◌};
ghost use Rattle.std.specs.Str.{bytes_eq};
ghost use Rattle.bpl_tok.specs.Spellings.{keywords, spelt};
ghost use Rattle.bpl_tok.specs.Spellings as spec;

use crate::token::Terminal;

/// The keyword that the word is, `bv` with digits aside.
pub fn keyword(word: &[u8]) -> Option<Terminal>
    ensures { result ≡ spelt keywords word.now }
{
    of_two(word)
        .or(of_three(word))
        .or(of_four(word))
        .or(of_five(word))
        .or(of_six(word))
        .or(of_seven(word))
        .or(of_eight(word))
        .or(of_nine(word))
        .or(of_fourteen(word))
}

fn is(word: &[u8], text: &[u8]) -> bool
    ensures { result ≡ bytes_eq word.now text.now }
{
    word == text
}

#[tactic(auto, unfolding(crate::specs::Spellings::spelt))]
fn of_two(word: &[u8]) -> Option<Terminal>
    ensures { result ≡ spelt spec.of_two word.now }
{
    if word.len() != 2 {
        return None;
    }
    if is(word, b"if") {
        Some(Terminal::If)
    } else {
        None
    }
}

#[tactic(auto, unfolding(crate::specs::Spellings::spelt))]
fn of_three(word: &[u8]) -> Option<Terminal>
    ensures { result ≡ spelt spec.of_three word.now }
{
    if word.len() != 3 {
        return None;
    }
    if is(word, b"var") {
        Some(Terminal::Var)
    } else if is(word, b"int") {
        Some(Terminal::Int)
    } else if is(word, b"old") {
        Some(Terminal::Old)
    } else if is(word, b"par") {
        Some(Terminal::Par)
    } else if is(word, b"div") {
        Some(Terminal::Div)
    } else if is(word, b"mod") {
        Some(Terminal::Mod)
    } else {
        None
    }
}

#[tactic(auto, unfolding(crate::specs::Spellings::spelt))]
fn of_four(word: &[u8]) -> Option<Terminal>
    ensures { result ≡ spelt spec.of_four word.now }
{
    if word.len() != 4 {
        return None;
    }
    if is(word, b"type") {
        Some(Terminal::TypeWord)
    } else if is(word, b"free") {
        Some(Terminal::Free)
    } else if is(word, b"call") {
        Some(Terminal::Call)
    } else if is(word, b"goto") {
        Some(Terminal::Goto)
    } else if is(word, b"then") {
        Some(Terminal::Then)
    } else if is(word, b"else") {
        Some(Terminal::Else)
    } else if is(word, b"bool") {
        Some(Terminal::BoolWord)
    } else if is(word, b"real") {
        Some(Terminal::Real)
    } else if is(word, b"true") {
        Some(Terminal::True)
    } else {
        None
    }
}

#[tactic(auto, unfolding(crate::specs::Spellings::spelt))]
fn of_five(word: &[u8]) -> Option<Terminal>
    ensures { result ≡ spelt spec.of_five word.now }
{
    if word.len() != 5 {
        return None;
    }
    if is(word, b"const") {
        Some(Terminal::Const)
    } else if is(word, b"axiom") {
        Some(Terminal::Axiom)
    } else if is(word, b"where") {
        Some(Terminal::Where)
    } else if is(word, b"havoc") {
        Some(Terminal::Havoc)
    } else if is(word, b"while") {
        Some(Terminal::While)
    } else if is(word, b"break") {
        Some(Terminal::Break)
    } else if is(word, b"false") {
        Some(Terminal::False)
    } else if is(word, b"async") {
        Some(Terminal::Async)
    } else if is(word, b"yield") {
        Some(Terminal::Yield)
    } else {
        None
    }
}

#[tactic(auto, unfolding(crate::specs::Spellings::spelt))]
fn of_six(word: &[u8]) -> Option<Terminal>
    ensures { result ≡ spelt spec.of_six word.now }
{
    if word.len() != 6 {
        return None;
    }
    if is(word, b"unique") {
        Some(Terminal::Unique)
    } else if is(word, b"assert") {
        Some(Terminal::Assert)
    } else if is(word, b"assume") {
        Some(Terminal::Assume)
    } else if is(word, b"return") {
        Some(Terminal::Return)
    } else if is(word, b"forall") {
        Some(Terminal::Forall)
    } else if is(word, b"exists") {
        Some(Terminal::Exists)
    } else if is(word, b"lambda") {
        Some(Terminal::Lambda)
    } else {
        None
    }
}

#[tactic(auto, unfolding(crate::specs::Spellings::spelt))]
fn of_seven(word: &[u8]) -> Option<Terminal>
    ensures { result ≡ spelt spec.of_seven word.now }
{
    if word.len() != 7 {
        return None;
    }
    if is(word, b"returns") {
        Some(Terminal::Returns)
    } else if is(word, b"ensures") {
        Some(Terminal::Ensures)
    } else if is(word, b"extends") {
        Some(Terminal::Extends)
    } else {
        None
    }
}

#[tactic(auto, unfolding(crate::specs::Spellings::spelt))]
fn of_eight(word: &[u8]) -> Option<Terminal>
    ensures { result ≡ spelt spec.of_eight word.now }
{
    if word.len() != 8 {
        return None;
    }
    if is(word, b"function") {
        Some(Terminal::Function)
    } else if is(word, b"modifies") {
        Some(Terminal::Modifies)
    } else if is(word, b"requires") {
        Some(Terminal::Requires)
    } else if is(word, b"complete") {
        Some(Terminal::Complete)
    } else {
        None
    }
}

#[tactic(auto, unfolding(crate::specs::Spellings::spelt))]
fn of_nine(word: &[u8]) -> Option<Terminal>
    ensures { result ≡ spelt spec.of_nine word.now }
{
    if word.len() != 9 {
        return None;
    }
    if is(word, b"procedure") {
        Some(Terminal::Procedure)
    } else if is(word, b"invariant") {
        Some(Terminal::Invariant)
    } else {
        None
    }
}

#[tactic(auto, unfolding(crate::specs::Spellings::spelt))]
fn of_fourteen(word: &[u8]) -> Option<Terminal>
    ensures { result ≡ spelt spec.of_fourteen word.now }
{
    if word.len() != 14 {
        return None;
    }
    if is(word, b"implementation") {
        Some(Terminal::Implementation)
    } else {
        None
    }
}
