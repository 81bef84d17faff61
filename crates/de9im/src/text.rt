//! Patterns as texts.

ghost use Rattle.std.specs.Prelude.{◌≡◌, option_map};
ghost use Rattle.geometry_model.specs.Patterns.{character_of, pattern_of_text};
ghost use Rattle.geometry_model.specs.declared.relations.Pattern.{Pattern};

use geometry_model::{Pattern, PatternCharacter};

/// A pattern of the DE-9IM matrix, by its text (06-103r4, 6.1.15.2). Only [`Pattern`] implements it.
pub trait PatternText: Sized {
    /// The pattern that a value is.
    ghost pattern: { Self → Pattern };

    /// The pattern that a text of nine characters `T F * 0 1 2` writes, by rows; `t` and `f` are accepted too. None for any
    /// other text (06-103r4, 6.1.15.2; small letters: this project's choice). It takes no memory.
    fn read(text: &str) -> Option<Self>
        ensures { option_map pattern result ≡ pattern_of_text text.now };
}

impl PatternText for Pattern {
    ghost pattern = { λ p. p };

    fn read(text: &str) -> Option<Pattern> {
        pattern_in(text.as_bytes())
    }
}

/// The pattern that nine bytes `T F * 0 1 2` write, by rows; `t` and `f` are accepted too. None for any other bytes. It takes
/// no memory (06-103r4, 6.1.15.2; small letters: this project's choice).
pub fn pattern_in(bytes: &[u8]) -> Option<Pattern>
    ensures { result ≡ pattern_of_text bytes.now }
{
    match bytes {
        [ii, ib, ie, bi, bb, be, ei, eb, ee] => Some(Pattern {
            interior_interior: character(*ii)?,
            interior_boundary: character(*ib)?,
            interior_exterior: character(*ie)?,
            boundary_interior: character(*bi)?,
            boundary_boundary: character(*bb)?,
            boundary_exterior: character(*be)?,
            exterior_interior: character(*ei)?,
            exterior_boundary: character(*eb)?,
            exterior_exterior: character(*ee)?,
        }),
        _ => None,
    }
}

/// The pattern character that a byte writes.
fn character(byte: u8) -> Option<PatternCharacter>
    ensures { result ≡ character_of byte }
{
    match byte {
        b'T' | b't' => Some(PatternCharacter::True),
        b'F' | b'f' => Some(PatternCharacter::False),
        b'*' => Some(PatternCharacter::Any),
        b'0' => Some(PatternCharacter::Zero),
        b'1' => Some(PatternCharacter::One),
        b'2' => Some(PatternCharacter::Two),
        _ => None,
    }
}
