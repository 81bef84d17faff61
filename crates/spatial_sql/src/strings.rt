//! Character strings as they are written between their quotes.

ghost use Rattle.spatial_sql.specs.Strings.{after_first};
ghost use Rattle.std.specs.Prelude.{◌≡◌, IfOk};
ghost use Rattle.table_model.specs.Binding as spec;

use sqlite_items::Items;
use std::alloc::{AllocError, Global};

/// The rest of a string after the first byte of its value. Two quotes in a row are one byte of the value.
fn after_first(text: &[u8]) -> &[u8]
    ensures { result.now ≡ after_first text.entry.now }
{
    let [first, more @ ..] = text else {
        return text;
    };
    if let [next, after @ ..] = more {
        if *first == b'\'' && *next == b'\'' {
            return after;
        }
    }
    more
}

/// The value of a string, in which two quotes in a row are one (SQL, character strings). It fails only when memory runs out.
pub fn unquoted(alloc: Global, text: &[u8]) -> Result<Items<u8>, AllocError>
    ensures { IfOk result (λ bytes. bytes ≡ spec.unquoted text.now) }
{
    let mut bytes = Items::new(alloc);
    let mut rest = text;
    while let [first, ..] = rest {
        bytes.push(*first)?;
        rest = after_first(rest);
    }
    Ok(bytes)
}
