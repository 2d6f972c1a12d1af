//! Strings, in which a backslash and a quote are a pair.

ghost use Rattle.std.specs.Prelude.{◌≡◌, ◌≤◌, length, IfSome, false};
ghost use Rattle.bpl_tok.specs.Pieces as spec;

/// How many bytes are left of a string after its first quote, with its last; nothing where a line
/// feed or the end comes first.
#[tactic(auto, unfolding(crate::specs::Pieces::string_len))]
pub fn string_len(bytes: &[u8]) -> Option<usize>
    ensures value { result ≡ spec.string_len false bytes.now }
    ensures within { IfSome result (λ n. n ≤ length bytes.now) }
{
    let mut escaped = false;
    for (i, b) in bytes.iter().enumerate() {
        if *b == b'\n' {
            return None;
        }
        if *b == b'"' && !escaped {
            return Some(i + 1);
        }
        escaped = *b == b'\\';
    }
    None
}
