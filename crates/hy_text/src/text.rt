//! Text in UTF-8, which contracts see as its bytes.

ghost use Rattle.std.specs.Prelude.{◌≡◌, ◌↔◌, IsTrue, IfOk, length};
ghost use Rattle.std.specs.Str.{bytes_eq};

use std::alloc::{AllocError, Global};
use std::marker::Model;

/// A text in UTF-8. Contracts see the list of its bytes, each from 0 to 255.
#[derive(Debug, Drop)]
pub struct Text {
    inner: String,
}

impl Model for Text {
    ghost use Rattle.std.specs.Prelude.{List, ℕ, string_bytes};

    ghost Value = { List ℕ };

    ghost view = { λ t. string_bytes t.inner };
}

impl Text {
    /// The text with the bytes of `s`.
    pub fn from_str(alloc: Global, s: &str) -> Result<Text, AllocError>
        ensures { IfOk result (λ t. t ≡ s.now) }
    {
        let inner = String::from_str(alloc, s)?;
        Ok(Text { inner })
    }

    /// The text as a string slice.
    pub fn as_str(&self) -> &str
        ensures { result.now ≡ self.now }
    {
        self.inner.as_str()
    }

    /// The bytes of the text.
    pub fn as_bytes(&self) -> &[u8]
        ensures { result.now ≡ self.now }
    {
        self.as_str().as_bytes()
    }

    /// The number of bytes.
    pub fn len(&self) -> usize
        ensures { result ≡ length self.now }
    {
        self.inner.len()
    }

    /// Whether the text has no byte.
    pub fn is_empty(&self) -> bool
        ensures { IsTrue result ↔ (length self.now ≡ 0) }
    {
        self.inner.is_empty()
    }

    /// An equal text.
    pub fn copy(&self, alloc: Global) -> Result<Text, AllocError>
        ensures { IfOk result (λ t. t ≡ self.now) }
    {
        Text::from_str(alloc, self.as_str())
    }

    /// Whether both texts have the same bytes.
    pub fn equals(&self, other: &Text) -> bool
        ensures { result ≡ bytes_eq self.now other.now }
    {
        self.as_bytes() == other.as_bytes()
    }
}
