//! Literals.
ghost use Rattle.std.specs.Prelude.{◌≡◌, ℕ, ◌+◌, ◌*◌, ◌/◌, ◌%◌, ◌^◌, ◌<◌, ◌==◌};
ghost use Rattle.cnf_form.specs.Literal.{negation};

use std::marker::Model;

/// A literal: a variable or its negation.
///
/// Its code is twice the variable, plus one where the variable is negated. Contracts see the code.
#[derive(Clone, Copy, Debug, Default, PartialEq, Eq, PartialOrd, Ord, Hash)]
pub struct Lit(usize);

impl Model for Lit {
    ghost use Rattle.std.specs.Prelude.{ℕ};

    ghost Value = { ℕ };

    ghost view = { λ l. l.0 };

    ghost inverse = { λ n. record { 0 = n } };
}

impl Lit {
    /// The literal of this code.
    pub fn new(code: usize) -> Self
        ensures { result ≡ code }
    {
        Lit(code)
    }

    /// The literal that is true where the variable is.
    pub fn positive(variable: usize) -> Self
        requires { variable < 2 ^ 63 }
        ensures { result ≡ 2 * variable }
    {
        Lit(2 * variable)
    }

    /// The literal that is true where the variable is false.
    pub fn negative(variable: usize) -> Self
        requires { variable < 2 ^ 63 }
        ensures { result ≡ 2 * variable + 1 }
    {
        Lit(2 * variable + 1)
    }

    /// Twice the variable, plus one where it is negated.
    pub fn code(self) -> usize
        ensures { result ≡ self }
    {
        self.0
    }

    /// The variable, numbered from 0.
    pub fn variable(self) -> usize
        ensures { result ≡ self / 2 }
    {
        self.0 / 2
    }

    /// Whether the literal is true where its variable is false.
    pub fn is_negated(self) -> bool
        ensures { result ≡ (self % 2 == 1) }
    {
        self.0 % 2 == 1
    }

    /// The other literal of the same variable.
    pub fn negated(self) -> Self
        ensures { result ≡ negation self }
    {
        if self.0 % 2 == 0 {
            Lit(self.0 + 1)
        } else {
            Lit(self.0 - 1)
        }
    }
}
