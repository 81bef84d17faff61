//! The theorem that labels are the point sets: the label matrix of two valid geometries is their DE-9IM matrix, and what follows
//! from it. The modules have the laws that it needs, of cuts, gaps, areas, elements and nested rings, and laws of what a matrix
//! shows: by its cells, by covers and by witnesses. Nothing here runs: each function has an empty body, and its contract is a
//! law.
#![tactic(auto)]

pub mod areas;
pub mod cell_laws;
pub mod cover_laws;
pub mod cuts;
pub mod elements;
pub mod gap_sides;
pub mod gaps;
pub mod given_matrices;
pub mod meeting;
pub mod nesting;
pub mod standing;
pub mod witness_laws;

ghost use Rattle.matrix_laws.specs.MatrixLaws.{LabelledIsMatrix, LabelsArePointSets};

pub use cover_laws::{
    full_covers, full_off_covers, gap_is_there, gaps_cover, held_by_covered, held_covers,
};
pub use witness_laws::{
    face_point_has_triangle, piece_is_stretch, sample_misses_uprights, seen_above_is_face_point,
    seen_below_is_face_point, stretch_has_segment,
};

/// The label matrix of two geometries whose rings are closed is their DE-9IM matrix (06-103r4, 6.1.15.2).
pub fn labelled_is_matrix()
    ensures { LabelledIsMatrix }
{}

/// The label matrix of two valid geometries is their DE-9IM matrix (06-103r4, 6.1.15.2).
pub fn labels_are_point_sets()
    ensures { LabelsArePointSets }
{}
