//! Laws of geometries in arrays: they are those of the texts with the same numbers, within the same limits.

ghost use Rattle.library_calls.specs.ArrayLaws.{ArraysAreAsTexts, TestsAreLimits};

/// What arrays write is the same valid geometry, or has the same first fault, as each text that writes the same numbers
/// (06-103r4, 7.2 and 6.1).
pub fn arrays_are_as_texts()
    ensures { ArraysAreAsTexts }
{}

/// The tests of counts and of positions are true exactly if the limits hold (this project's choice).
pub fn tests_are_limits()
    ensures { TestsAreLimits }
{}
