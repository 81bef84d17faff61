//! The lines of a text.

ghost use Rattle.std.specs.Prelude.{◌≡◌, ◌≢◌, ◌≤◌, ◌+◌, ◌==◌, ◌∷◌, [], drop, length, take};
ghost use Rattle.std.specs.List.{position};
ghost use Rattle.statements.specs.StatementRows.{lines};

/// The place of the first line feed in a text, if it has one.
fn first_feed(text: &[u8]) -> Option<usize>
    ensures { result ≡ position (λ byte. byte == 10) text.now }
{
    text.iter().position(|byte| *byte == b'\n')
}

/// The number of bytes in the first line of a text, without the line feed that ends it.
pub(crate) fn first_line(text: &[u8]) -> usize
    ensures within { result ≤ length text.now }
    ensures first { text.now ≢ []
        → lines text.now ≡ take result text.now ∷ lines (drop (result + 1) text.now) }
{
    match first_feed(text) {
        Some(place) => place,
        None => text.len(),
    }
}
