//! Points off all edges and listed positions.

ghost use Rattle.std.specs.Prelude.{◌≡◌, pos, ◌<ℤ◌};
ghost use Rattle.geometry_model.specs.Points.{Point, IsPoint};

use std::marker::Model;

/// A face point: the point (X/W, Y/W) of the plane, W at least 1, off all edges and listed positions of two geometries
/// (06-103r4, 6.1.4; face points: this project's choice). Its numbers are larger than those of `RatPoint`, and it needn't be
/// in least form.
#[derive(Clone, Copy, Debug)]
pub struct FacePoint {
    numerator_x: i128,
    numerator_y: i128,
    denominator: i128,
}

impl Model for FacePoint {
    ghost Value = { Point };

    ghost view = { λ p. record { X = p.numerator_x; Y = p.numerator_y; W = p.denominator } };

    ghost invariant = { λ p. pos 0 <ℤ p.denominator };

    ghost inverse = { λ p. record { numerator_x = p.X; numerator_y = p.Y; denominator = p.W } };
}

impl FacePoint {
    /// The point (x/w, y/w), w being at least 1.
    pub(crate) fn new(x: i128, y: i128, w: i128) -> FacePoint
        requires { pos 0 <ℤ w }
        ensures { result ≡ record { X = x; Y = y; W = w } }
    {
        FacePoint {
            numerator_x: x,
            numerator_y: y,
            denominator: w,
        }
    }

    /// X, the numerator of the first coordinate, in grid steps over the denominator.
    pub fn numerator_x(&self) -> i128
        ensures { result ≡ self.now.X }
    {
        self.numerator_x
    }

    /// Y, the numerator of the second coordinate, in grid steps over the denominator.
    pub fn numerator_y(&self) -> i128
        ensures { result ≡ self.now.Y }
    {
        self.numerator_y
    }

    /// W, the denominator of both coordinates, at least 1.
    pub fn denominator(&self) -> i128
        ensures value { result ≡ self.now.W }
        ensures is_point { IsPoint self.now }
    {
        self.denominator
    }
}
