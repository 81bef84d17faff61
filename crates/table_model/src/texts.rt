//! Texts that contracts see as their bytes.

ghost use Rattle.std.specs.Prelude.{◌≡◌, IfOk};
ghost use Rattle.table_model.specs.Texts as spec;

use std::alloc::{AllocError, Global};
use std::marker::Model;

/// A part of a text that lives for `'a`. Contracts see it as its bytes.
#[derive(Drop)]
pub struct Slice<'a> {
    bytes: &'a [u8],
}

impl<'a> Model for Slice<'a> {
    ghost use Rattle.std.specs.Prelude.{List, ℕ};
    ghost use Rattle.std.specs.Coded.{coded_list, coded_ℕ};

    ghost Value = { List ℕ };

    ghost coded = { coded_list coded_ℕ };

    ghost view = { λ s. s.bytes.now };
}

impl<'a> Slice<'a> {
    /// Makes a part of a text from its bytes.
    pub fn new(bytes: &'a [u8]) -> Slice<'a>
        ensures { result ≡ bytes.entry.now }
    {
        Slice { bytes }
    }

    /// Lends the bytes, for as long as the text lives.
    pub fn bytes(&self) -> &'a [u8]
        ensures { result.now ≡ self.now }
    {
        self.bytes
    }

    /// Returns a second value for the same bytes. Nothing is copied.
    pub fn again(&self) -> Slice<'a>
        ensures { result ≡ self.now }
    {
        Slice { bytes: self.bytes }
    }
}

/// A text that owns its memory. Contracts see it as its bytes in UTF-8.
#[derive(Drop)]
pub struct OwnedText {
    text: String,
}

impl Model for OwnedText {
    ghost use Rattle.std.specs.Prelude.{List, ℕ, string_bytes};
    ghost use Rattle.std.specs.Coded.{coded_list, coded_ℕ};

    ghost Value = { List ℕ };

    ghost coded = { coded_list coded_ℕ };

    ghost view = { λ t. string_bytes t.text };
}

impl OwnedText {
    /// Copies a text. It fails only when memory runs out.
    pub fn copy_of(alloc: Global, text: &str) -> Result<OwnedText, AllocError>
        ensures { IfOk result (λ t. t ≡ text.now) }
    {
        let text = String::from_str(alloc, text)?;
        Ok(OwnedText { text })
    }

    /// Lends the text.
    pub fn as_str(&self) -> &str
        ensures { result.now ≡ self.now }
    {
        self.text.as_str()
    }

    /// Lends the bytes of the text.
    pub fn bytes(&self) -> &[u8]
        ensures { result.now ≡ self.now }
    {
        self.text.as_bytes()
    }
}

/// Whether two names are equal, without regard to ASCII case.
pub fn same_name(a: &[u8], b: &[u8]) -> bool
    ensures { result ≡ spec.same_name a.now b.now }
{
    a.eq_ignore_ascii_case(b)
}
