//! Classes of bytes, and the longest run of a class at the front of a text.

ghost use Rattle.std.specs.Prelude.{◌≡◌, ◌≤◌, length};
ghost use Rattle.std.specs.Char.{is_ascii_digit};
ghost use Rattle.std.specs.List.{list_all, prefix_len};
ghost use Rattle.bpl_tok.specs.Bytes as spec;

/// Tab, line feed, vertical tab, form feed, carriage return and space.
pub fn is_white(b: u8) -> bool
    ensures { result ≡ spec.is_white b }
{
    (b >= 9 && b <= 13) || b == 32
}

fn is_in_line(b: u8) -> bool
    ensures { result ≡ spec.is_in_line b }
{
    b != 10
}

fn is_letter(b: u8) -> bool
    ensures { result ≡ spec.is_letter b }
{
    (b >= 65 && b <= 90) || (b >= 97 && b <= 122)
}

fn is_mark(b: u8) -> bool
    ensures { result ≡ spec.is_mark b }
{
    b == b'_'
        || b == b'.'
        || b == b'$'
        || b == b'#'
        || b == b'\''
        || b == b'~'
        || b == b'^'
        || b == b'?'
        || b == b'`'
}

/// What an identifier begins with.
pub fn begins_ident(b: u8) -> bool
    ensures { result ≡ spec.begins_ident b }
{
    is_letter(b) || is_mark(b)
}

fn in_ident(b: u8) -> bool
    ensures { result ≡ spec.in_ident b }
{
    begins_ident(b) || b.is_ascii_digit()
}

/// How many bytes of white space the text begins with.
pub fn white_len(bytes: &[u8]) -> usize
    ensures value { result ≡ prefix_len spec.is_white bytes.now }
    ensures within { result ≤ length bytes.now }
{
    bytes.iter().take_while(|b| is_white(**b)).count()
}

/// How many bytes stand before the next line feed, or the end.
pub fn line_len(bytes: &[u8]) -> usize
    ensures value { result ≡ prefix_len spec.is_in_line bytes.now }
    ensures within { result ≤ length bytes.now }
{
    bytes.iter().take_while(|b| is_in_line(**b)).count()
}

/// How many bytes of an identifier the text begins with.
pub fn ident_len(bytes: &[u8]) -> usize
    ensures value { result ≡ prefix_len spec.in_ident bytes.now }
    ensures within { result ≤ length bytes.now }
{
    bytes.iter().take_while(|b| in_ident(**b)).count()
}

/// How many digits the text begins with.
pub fn digits_len(bytes: &[u8]) -> usize
    ensures value { result ≡ prefix_len is_ascii_digit bytes.now }
    ensures within { result ≤ length bytes.now }
{
    bytes.iter().take_while(|b| b.is_ascii_digit()).count()
}

/// Whether each byte is a digit.
pub fn are_all_digits(bytes: &[u8]) -> bool
    ensures { result ≡ list_all is_ascii_digit bytes.now }
{
    bytes.iter().all(|b| b.is_ascii_digit())
}
