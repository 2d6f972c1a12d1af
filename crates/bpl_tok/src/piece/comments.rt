//! Comments between `/*` and `*/`, which nest.

ghost use Rattle.std.specs.Prelude.{◌≡◌, ◌≤◌, length, IfSome};
ghost use Rattle.bpl_tok.specs.Pieces as spec;

fn closes(b: u8, c: u8) -> bool
    ensures { result ≡ spec.closes b c }
{
    b == b'*' && c == b'/'
}

fn opens(b: u8, c: u8) -> bool
    ensures { result ≡ spec.opens b c }
{
    b == b'/' && c == b'*'
}

/// How many bytes are left of a comment after its `/*`, with its `*/`; nothing where it is open.
pub fn comment_len(bytes: &[u8]) -> Option<usize>
    ensures value { result ≡ spec.comment_len 0 bytes.now }
    ensures within { IfSome result (λ n. n ≤ length bytes.now) }
{
    let mut depth = 0usize;
    let mut at = 0usize;
    while bytes.len() - at >= 2 {
        let b = bytes[at];
        let c = bytes[at + 1];
        if closes(b, c) {
            at += 2;
            if depth == 0 {
                return Some(at);
            }
            depth -= 1;
        } else if opens(b, c) {
            at += 2;
            depth += 1;
        } else {
            at += 1;
        }
    }
    None
}
