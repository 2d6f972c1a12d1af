//! The first line that two texts do not share.

ghost use Rattle.std.specs.Prelude.{◌≡◌, MatchOption};
ghost use Rattle.replay_text.specs.Lines.{IsFirstDifference};

/// The number, from 1, of the first line whose bytes are not the same in both texts, or None where the texts are equal. A line's
/// bytes count its line feed; what follows the last line feed, where that isn't empty, is one more line. A text that has no such
/// line differs there.
///
/// It takes no memory, and reads no byte behind the first that differs.
pub fn first_difference(one: &[u8], other: &[u8]) -> Option<usize>
    ensures { MatchOption result (one.now ≡ other.now) (λ line. IsFirstDifference one.now other.now line) }
{
    let mut line = 1;
    for (index, byte) in one.iter().enumerate() {
        if index >= other.len() || *byte != other[index] {
            return Some(line);
        }
        if *byte == b'\n' {
            line += 1;
        }
    }
    if one.len() < other.len() {
        return Some(line);
    }
    None
}
