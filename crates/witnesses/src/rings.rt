//! Where a ring clashes with itself, and where two rings meet.

ghost use Rattle.std.specs.Prelude.{◌≡◌, ◌<◌, ◌+◌, ◌==◌, ◌&&◌, All, length, Some, slice_get, IfSome, IfNone, true, false};
ghost use Rattle.geometry_model.specs.Geometries.{edges_of_line};
ghost use Rattle.geometry_model.specs.Validity.{Clash, IsNotSimple, RingsShare};
ghost use Rattle.noding.specs.Meetings.{IsMeeting, named};
ghost use Rattle.geometry_model.specs.Points.{IsPoint};
ghost use Rattle.witnesses.specs.Places.{IsClashOf, IsMeetingOf, clash_by, ClashesWith, MeetsWith, IsFirstClash, IsFirstClashWith, IsFirstMeeting, IsFirstMeetingWith};

use crate::shared::{SharedPlace, met, share, share_other};
use noding::Meet;
use orient::Segment;
use wkt::LineString;

/// How many edges a line has: one fewer than positions (06-103r4, 6.1.7).
pub fn edge_count(line: &LineString) -> usize
    ensures { result ≡ length (edges_of_line line.now) }
{
    let count = line.positions().len();
    if count == 0 { 0 } else { count - 1 }
}

/// The edge of a line with this number, from 0 (06-103r4, 6.1.7).
pub fn edge(line: &LineString, index: usize) -> Segment
    requires { index < length (edges_of_line line.now) }
    ensures { slice_get (edges_of_line line.now) index ≡ Some result }
{
    let positions = line.positions();
    match Segment::new(positions[index], positions[index + 1]) {
        Some(edge) => edge,
        None => unreachable!("neighbours differ"),
    }
}

/// Whether edges i < j of n clash, by whether they share a point other than the first one's end, a point other than its start,
/// and any point at all.
fn is_clash(n: usize, i: usize, j: usize, not_end: bool, not_start: bool, any: bool) -> bool
    requires earlier { i < j }
    requires later { j < n }
    ensures { result ≡ clash_by (j == i + 1) (i == 0 && j + 1 == n) not_end not_start any }
{
    let follows = j == i + 1;
    let closes = i == 0 && j + 1 == n;
    follows && not_end || closes && not_start || !follows && !closes && any
}

/// Whether edges i < j of the n edges of a ring clash, by what they share.
fn clashes(n: usize, i: usize, j: usize, e: &Segment, f: &Segment, shared: &Meet) -> bool
    requires earlier { i < j }
    requires later { j < n }
    requires exact { IsMeeting e.now f.now shared.now }
    requires points { All IsPoint (named shared.now) }
    ensures yes { result ≡ true → Clash n i j e.now f.now }
    ensures no { result ≡ false → Clash n i j e.now f.now → ⊥ }
{
    let not_end = share_other(e.end(), e, f, shared);
    let not_start = share_other(e.start(), e, f, shared);
    is_clash(n, i, j, not_end, not_start, share(e, f, shared))
}

/// The first later edge of a ring with which an edge of it clashes.
fn clash_with(ring: &LineString, i: usize) -> Option<SharedPlace>
    requires { i < length (edges_of_line ring.now) }
    ensures place { IfSome result (IsClashOf ring.now) }
    ensures first { IfSome result (IsFirstClashWith ring.now i) }
    ensures none { IfNone result (ClashesWith ring.now i → ⊥) }
{
    let count = edge_count(ring);
    let first = edge(ring, i);
    for j in i + 1..count {
        let second = edge(ring, j);
        let shared = met(&first, &second);
        if clashes(count, i, j, &first, &second, &shared) {
            return Some(SharedPlace {
                first,
                second,
                meet: shared,
            });
        }
    }
    None
}

/// The first two edges of a ring that clash, by the number of the first, then by that of the second, and exactly what they
/// share; `None` exactly if the ring is simple (06-103r4, 6.1.7: a LinearRing is simple). Neighbours always share their
/// common position, which is no clash. It takes no memory.
pub fn clash_place(ring: &LineString) -> Option<SharedPlace>
    ensures place { IfSome result (IsClashOf ring.now) }
    ensures first { IfSome result (IsFirstClash ring.now) }
    ensures none { IfNone result (IsNotSimple ring.now → ⊥) }
{
    for i in 0..edge_count(ring) {
        if let Some(place) = clash_with(ring, i) {
            return Some(place);
        }
    }
    None
}

/// The first edge of the second ring that shares a point with this edge of the first.
fn meeting_with(r: &LineString, s: &LineString, i: usize) -> Option<SharedPlace>
    requires { i < length (edges_of_line r.now) }
    ensures place { IfSome result (IsMeetingOf r.now s.now) }
    ensures first { IfSome result (IsFirstMeetingWith r.now s.now i) }
    ensures none { IfNone result (MeetsWith r.now s.now i → ⊥) }
{
    let first = edge(r, i);
    for j in 0..edge_count(s) {
        let second = edge(s, j);
        let shared = met(&first, &second);
        if share(&first, &second, &shared) {
            return Some(SharedPlace {
                first,
                second,
                meet: shared,
            });
        }
    }
    None
}

/// The first edge of a ring and the first edge of another that share a point, and exactly what they share; `None` exactly if
/// the rings share no point (06-103r4, 6.1.11.1). It takes no memory.
pub fn meeting_place(r: &LineString, s: &LineString) -> Option<SharedPlace>
    ensures place { IfSome result (IsMeetingOf r.now s.now) }
    ensures first { IfSome result (IsFirstMeeting r.now s.now) }
    ensures none { IfNone result (RingsShare r.now s.now → ⊥) }
{
    for i in 0..edge_count(r) {
        if let Some(place) = meeting_with(r, s, i) {
            return Some(place);
        }
    }
    None
}
