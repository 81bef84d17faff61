//! What is kept of a run of consecutive edges.

ghost use Rattle.std.specs.Prelude.{◌≡◌, List, [], ◌∷◌, ◌++◌};
ghost use Rattle.geometry_model.specs.Geometries.{Edge};
ghost use Rattle.edge_boxes.specs.EdgeRuns.{SumsUp, SumsUpEnds};

use crate::bounds::Bounds;
use crate::strips::Strip;
use orient::Segment;

/// The first and the last x of a run of edges, and whether the run is known to be a chain, or chains that close.
#[derive(Clone, Copy)]
pub(crate) struct Ends {
    pub(crate) first_x: i32,
    pub(crate) last_x: i32,
    pub(crate) is_chain: bool,
}

/// The bounds and the ends of a run of edges, and their strip, if it is kept.
#[derive(Clone, Copy)]
pub(crate) struct Run {
    pub(crate) bounds: Bounds,
    pub(crate) ends: Ends,
    pub(crate) strip: Option<Strip>,
}

/// The ends of one edge.
fn ends_of(edge: &Segment) -> Ends
    ensures { SumsUpEnds result (edge.now ∷ []) }
{
    Ends {
        first_x: edge.start().x(),
        last_x: edge.end().x(),
        is_chain: true,
    }
}

/// The ends of two runs, one after the other: a chain if the second goes on where the first ends, or if one of them is closed.
fn join_ends(first: Ends, second: Ends) -> Ends
    ensures { (xs ys : List Edge) → SumsUpEnds first xs → SumsUpEnds second ys
        → SumsUpEnds result (xs ++ ys) }
{
    let both = first.is_chain & second.is_chain;
    if first.last_x == second.first_x {
        Ends {
            first_x: first.first_x,
            last_x: second.last_x,
            is_chain: both,
        }
    } else if first.first_x == first.last_x {
        Ends {
            is_chain: both,
            ..second
        }
    } else {
        Ends {
            is_chain: both & (second.first_x == second.last_x),
            ..first
        }
    }
}

impl Run {
    /// The run of one edge, without a strip.
    pub(crate) fn of(edge: &Segment) -> Run
        ensures { SumsUp result (edge.now ∷ []) }
    {
        Run {
            bounds: Bounds::of(edge),
            ends: ends_of(edge),
            strip: None,
        }
    }

    /// The run of the edges of two runs, one after the other, without a strip.
    pub(crate) fn join(self, later: Run) -> Run
        ensures { (xs ys : List Edge) → SumsUp self xs → SumsUp later ys → SumsUp result (xs ++ ys) }
    {
        Run {
            bounds: self.bounds.join(later.bounds),
            ends: join_ends(self.ends, later.ends),
            strip: None,
        }
    }
}
