//! The texts of a table, in one list.

ghost use Rattle.std.specs.Prelude.{◌≡◌, ◌++◌, ◌∷◌, [], is_ok, length, option_map, slice_get, string_bytes, if◌then◌else◌};
ghost use Rattle.feature_table.specs.Texts.{IsCut, text_at};

use std::alloc::{AllocError, Global};
use std::marker::Model;

/// Where a text is among the bytes of all texts: the place at which it begins, and the place just after its end.
#[derive(Clone, Copy)]
pub(crate) struct Cut {
    start: usize,
    end: usize,
}

/// The text between two places.
fn text_of(all: &str, cut: Cut) -> &str
    requires { IsCut all.now cut }
    ensures { result.now ≡ text_at all.now cut }
{
    &all[cut.start..cut.end]
}

/// Texts one after another in one piece of memory. Contracts see them as the list of their bytes.
#[derive(Drop)]
pub(crate) struct Texts {
    all: String,
    cuts: Vec<Cut>,
}

impl Model for Texts {
    ghost use Rattle.std.specs.Prelude.{List, map, string_bytes, ℕ};
    ghost use Rattle.std.specs.List.{All};
    ghost use Rattle.feature_table.specs.Texts.{IsCut, text_at};

    ghost Value = { List (List ℕ) };

    ghost view = { λ t. map (text_at (string_bytes t.all)) t.cuts.items };

    ghost invariant = { λ t. All (IsCut (string_bytes t.all)) t.cuts.items };
}

impl Texts {
    /// Makes an empty list of texts.
    pub(crate) fn new(alloc: Global) -> Texts
        ensures { result ≡ [] }
    {
        Texts {
            all: String::new(alloc),
            cuts: Vec::new(alloc),
        }
    }

    /// The number of texts.
    pub(crate) fn len(&self) -> usize
        ensures { result ≡ length self.now }
    {
        self.cuts.len()
    }

    /// Appends a copy of a text. If memory runs out, nothing is appended.
    pub(crate) fn push(&mut self, text: &str) -> Result<(), AllocError>
        ensures { self.new ≡ (if is_ok result then self.old ++ text.now ∷ [] else self.old) }
    {
        let start = self.all.len();
        self.all.push_str(text)?;
        let end = self.all.len();
        self.cuts.push(Cut { start, end })?;
        Ok(())
    }

    /// Lends the text at a place, if there is one.
    pub(crate) fn get(&self, place: usize) -> Option<&str>
        ensures { option_map (λ text. text.now) result ≡ slice_get self.now place }
    {
        match self.cuts.get(place) {
            Some(cut) => Some(text_of(self.all.as_str(), *cut)),
            None => None,
        }
    }
}
