//! Hands out what was looked for.

ghost use Rattle.std.specs.Prelude.{◌≡◌, ◌≢◌, IfSome};
ghost use Rattle.library_calls.specs.Refusals.{ok};
ghost use Rattle.sfq_tables.specs.Connections.{status_of_named};

/// Writes what was found. Status 4 if nothing was.
pub(crate) fn write_found<T: Copy>(found: Option<T>, room: &mut T) -> u32
    ensures found { IfSome found (λ it. room.new ≡ it) }
    ensures kept { result ≢ ok → room.new ≡ room.old }
    ensures status { result ≡ status_of_named found }
{
    match found {
        Some(it) => {
            *room = it;
            0
        }
        None => 4,
    }
}
