//! Numbers written in decimal digits, and read back.

ghost use Rattle.std.specs.Prelude.{◌≡◌, ◌<◌, ◌++◌, IsTrue, OnOk, OnErr};
ghost use Rattle.std.specs.Fmt.{decimal};
ghost use Rattle.std.specs.List.{list_all};
ghost use Rattle.std.specs.Char.{is_ascii_digit, digit_value};
ghost use Rattle.std.specs.Str.Parse.{digits_value};
ghost use Rattle.hy_text.specs.Number.{are_digits, fitting, number_of};

use crate::bytes::Bytes;
use itoa::Buffer;
use std::alloc::AllocError;

/// Why digits are no `u64`.
#[derive(Clone, Copy, Debug, PartialEq, Eq)]
pub enum NumFault {
    /// There is no byte, or one that is no decimal digit.
    NotDigits,
    /// The value is above the greatest `u64`.
    TooLarge,
}

/// Appends the decimal digits of `n`, without leading zeros. After an error `out` is as before.
pub fn put_u64(out: &mut Bytes, n: u64) -> Result<(), AllocError>
    ensures ok { OnOk result (out.new ≡ out.old ++ decimal n) }
    ensures err { OnErr result (out.new ≡ out.old) }
{
    let mut buffer = Buffer::new();
    out.append(buffer.format(n).as_bytes())
}

/// The number that decimal digits write; leading zeros are read. It takes no memory.
///
/// `NotDigits` comes exactly where there is no byte or one that is no digit, else `TooLarge`
/// exactly where the value is above the greatest `u64`.
pub fn read_u64(digits: &[u8]) -> Result<u64, NumFault>
    ensures { result ≡ number_of digits.now }
{
    if !is_number(digits) {
        return Err(NumFault::NotDigits);
    }
    value(digits)
}

fn all_digits(digits: &[u8]) -> bool
    ensures { result ≡ list_all is_ascii_digit digits.now }
{
    digits.iter().all(|b| b.is_ascii_digit())
}

fn is_number(digits: &[u8]) -> bool
    ensures { result ≡ are_digits digits.now }
{
    !digits.is_empty() && all_digits(digits)
}

fn digit(byte: u8) -> u64
    requires { IsTrue (is_ascii_digit byte) }
    ensures value { result ≡ digit_value byte }
    ensures short { result < 10 }
{
    u64::from(byte - b'0')
}

fn value(digits: &[u8]) -> Result<u64, NumFault>
    requires { IsTrue (list_all is_ascii_digit digits.now) }
    ensures { result ≡ fitting (digits_value 10 digits.now) }
{
    let mut value = 0u64;
    for byte in digits {
        let digit = digit(*byte);
        if value > (u64::MAX - digit) / 10 {
            return Err(NumFault::TooLarge);
        }
        value = value * 10 + digit;
    }
    Ok(value)
}
