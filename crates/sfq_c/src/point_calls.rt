//! Calls about points that aren't kept.

ghost use Rattle.std.specs.Prelude.{◌≡◌, ◌≢◌};
ghost use Rattle.library_calls.specs.PointRelations.{HoldsAt, status_of_place};
ghost use Rattle.library_calls.specs.Refusals.{ok};

use library_calls::write_holds_at;

/// Whether the relation of this number holds of each valid geometry and each point at this place of it: 0 is its interior, 1 its
/// boundary, 2 its exterior (06-103r4, 6.1.4 and 6.1.15.3). Status 4 if there is no such place, or the number isn't that of
/// intersects, touches, contains, covers or contains properly (the numbers: this project's choice).
#[unsafe(no_mangle)]
pub extern "C" fn sfq_proved_holds_at(relation: u32, place: u32, answer: &mut bool) -> u32
    ensures point_sets { result ≡ ok → HoldsAt relation place answer.new }
    ensures kept { result ≢ ok → answer.new ≡ answer.old }
    ensures status { result ≡ status_of_place relation place }
{
    write_holds_at(relation, place, answer)
}
