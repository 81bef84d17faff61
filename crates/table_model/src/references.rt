//! The references of a query.

ghost use Rattle.std.specs.Prelude.{◌≡◌, ◌∷◌, [], IfOk};
ghost use Rattle.std.specs.Option.{option_copied, option_to_list};

use sqlite_items::Items;
use std::alloc::{AllocError, Global};
use std::marker::Model;

/// The references of a query, written or bound, in their order: one or two, generic in what a reference is (SQL, FROM).
/// Contracts see them as a list.
#[derive(Drop)]
pub struct References<R> {
    listed: Items<R>,
}

impl<R> Model for References<R> {
    ghost use Rattle.std.specs.Prelude.{List};
    ghost use Rattle.std.specs.Coded.{coded_list};
    ghost use Rattle.table_model.specs.References.{AreOneOrTwo};

    ghost Value = { List R };

    ghost coded = { coded_list R.code };

    ghost view = { λ r. r.listed };

    ghost invariant = { λ r. AreOneOrTwo r.listed };
}

impl<R> References<R> {
    /// Makes the list of one reference. It fails only when memory runs out.
    pub fn one(alloc: Global, only: R) -> Result<References<R>, AllocError>
    where
        R: Drop,
        ensures { IfOk result (λ references. references ≡ only ∷ []) }
    {
        let mut listed = Items::new(alloc);
        listed.push(only)?;
        Ok(References { listed })
    }

    /// Makes the list of two references, in their order. It fails only when memory runs out.
    pub fn two(alloc: Global, first: R, second: R) -> Result<References<R>, AllocError>
    where
        R: Drop,
        ensures { IfOk result (λ references. references ≡ first ∷ second ∷ []) }
    {
        let mut listed = Items::new(alloc);
        listed.push(first)?;
        listed.push(second)?;
        Ok(References { listed })
    }

    /// Lends the list of references.
    pub fn as_slice(&self) -> &[R]
        ensures { result.now ≡ self.now }
    {
        self.listed.as_slice()
    }

    /// Lends the first reference, and the second if there are two.
    pub fn parts(&self) -> (&R, Option<&R>)
        ensures { self.now ≡ result.0.now ∷ option_to_list (option_copied result.1) }
    {
        let listed = self.listed.as_slice();
        (&listed[0], listed.get(1))
    }
}
