//! C calls that say what is in a text.

ghost use Rattle.std.specs.Prelude.{◌≡◌, ◌≢◌, ◌⊎◌, ◌++◌, drop, IfOk, length};
ghost use Rattle.library_calls.specs.Kept.{status_of_room};
ghost use Rattle.library_calls.specs.Refusals.{ok, out_of_memory, too_small};
ghost use Rattle.sfq_tables.specs.NamedColumns.{IsStatusOfColumns, named_in_text};
ghost use Rattle.sfq_tables.specs.TextParts.{text_parts};

use crate::named_columns::{NamedColumn, write_named_columns};
use crate::text_parts::{TextPart, write_parts};
use std::alloc::Global;

/// Writes how many parts a text has, and the parts, if `room` is large enough: its tokens, and behind them the first
/// byte that begins no token, or the end of the text (SQL, tokens; the numbers: this project's choice).
#[unsafe(no_mangle)]
pub extern "C" fn sfq_proved_text_parts(
    alloc: Global,
    text: &[u8],
    room: &mut [TextPart],
    count: &mut usize,
) -> u32
    ensures parts { result ≡ ok → room.new ≡ text_parts text.now ++ drop (length (text_parts text.now)) room.old }
    ensures kept { result ≢ ok → room.new ≡ room.old }
    ensures count { (result ≡ ok) ⊎ (result ≡ too_small) → count.new ≡ length (text_parts text.now) }
    ensures no_count { result ≢ ok → result ≢ too_small → count.new ≡ count.old }
    ensures status { (result ≡ out_of_memory) ⊎ (result ≡ status_of_room (text_parts text.now) room.old) }
{
    write_parts(alloc, text, room, count)
}

/// Writes how many columns the text of a query names, and the columns, from the left, if `room` is large enough: those of the
/// select list, of ON and of WHERE. Status 5 if `room` is too small, 4 if this isn't the text of a query (SQL, the query; the
/// numbers: this project's choice).
#[unsafe(no_mangle)]
pub extern "C" fn sfq_proved_named_columns(
    alloc: Global,
    text: &[u8],
    room: &mut [NamedColumn],
    count: &mut usize,
) -> u32
    ensures columns { result ≡ ok → IfOk (named_in_text text.now)
        (λ found. room.new ≡ found ++ drop (length found) room.old) }
    ensures kept { result ≢ ok → room.new ≡ room.old }
    ensures count { (result ≡ ok) ⊎ (result ≡ too_small) → IfOk (named_in_text text.now)
        (λ found. count.new ≡ length found) }
    ensures no_count { result ≢ ok → result ≢ too_small → count.new ≡ count.old }
    ensures status { IsStatusOfColumns text.now room.old result }
{
    write_named_columns(alloc, text, room, count)
}
