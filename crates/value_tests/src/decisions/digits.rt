//! A number as choices, one behind the other.

/// What is left of a number whose digits are taken from the lowest on.
#[derive(Drop)]
pub struct Digits {
    rest: u64,
}

impl Digits {
    /// The digits of the number.
    pub fn new(number: u64) -> Digits {
        Digits { rest: number }
    }

    /// The next digit, which is below the base; 0 for the base 0.
    pub fn below(&mut self, base: u64) -> u64 {
        let digit = self.rest.checked_rem(base).unwrap_or(0);
        self.rest = self.rest.checked_div(base).unwrap_or(0);
        digit
    }
}
