//! Laws of well-known text: reading accepts exactly the texts of the grammar, and the canonical text of a geometry is one of them.
ghost use Rattle.text_laws.specs.ReadingLaws.{
  ReadIsSpelled,
  SpelledIsRead,
  SpellsOne,
  CanonicalTextSpells,
  CanonicalTextIsRead,
  RefusalsApply,
};

/// If a text is read as a geometry, it spells that geometry (06-103r4, 7.2).
pub fn read_is_spelled()
    ensures { ReadIsSpelled }
{}

/// If a text spells a geometry, it is read as that geometry (06-103r4, 7.2).
pub fn spelled_is_read()
    ensures { SpelledIsRead }
{}

/// A text spells at most one geometry (06-103r4, 7.2).
pub fn spells_one()
    ensures { SpellsOne }
{}

/// The canonical text of a geometry that some text spells spells that geometry (06-103r4, 7.2).
pub fn canonical_text_spells()
    ensures { CanonicalTextSpells }
{}

/// The canonical text of a geometry that was read is read as the same geometry (06-103r4, 7.2).
pub fn canonical_text_is_read()
    ensures { CanonicalTextIsRead }
{}

/// If reading returns W2, W3 or W4, that fault applies to the text.
pub fn refusals_apply()
    ensures { RefusalsApply }
{}
