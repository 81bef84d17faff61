//! Laws of pages.

ghost use Rattle.text_commands.specs.FaultPages.{OnePageEach};

/// Different codes have different pages: a text is the page of at most one code.
pub fn pages_differ()
    ensures { OnePageEach }
{}
