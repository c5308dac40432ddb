//! How far the vertices of classes lie apart.

ghost use Rattle.std.specs.Prelude.{◌≡◌, ◌^◌, ◌*◌, ◌-◌, ◌<◌, ◌≤◌, pos, length, map, IsTrue, ◌↔◌};
ghost use Rattle.std.specs.List.{All};
ghost use Rattle.lt_model.specs.Limits as limits;
ghost use Rattle.lt_model.specs.Limits.{greatest, gap, class_span};
ghost use Rattle.lt_model.specs.Simplices.{AllOfDimension};
ghost use Rattle.lt_lattice.specs.Ranges.{IsWithin};
ghost use Rattle.lt_triang.specs.Bounds.{AreWithin, AreNear};

use lt_lattice::Point;

/// The span limit, the greatest span of an entry in dimension `d`, as a signed number.
pub fn span_limit(d: u8) -> i64
    ensures { result ≡ pos (limits.span_limit d) }
{
    i64::from(lt_model::span_limit(d))
}

/// The greatest absolute difference of two points in one coordinate.
fn gap_of(x: &[i32], y: &[i32]) -> u32
    requires same { length x.now ≡ length y.now }
    requires left { All (IsWithin (2 ^ 20)) x.now }
    requires right { All (IsWithin (2 ^ 20)) y.now }
    ensures { result ≡ gap x.now y.now }
{
    let mut widest: u32 = 0;
    for k in 0..x.len() {
        widest = widest.max((x[k] - y[k]).unsigned_abs());
    }
    widest
}

/// The greatest gap between a point and one of the points.
fn farthest(x: &Point, points: &[Point]) -> u32
    requires { AllOfDimension (length x.now) points.now }
    ensures { result ≡ greatest (map (gap x.now) points.now) }
{
    let mut widest: u32 = 0;
    for i in 0..points.len() {
        widest = widest.max(gap_of(x.coords(), points[i].coords()));
    }
    widest
}

/// The greatest gap of two of the points.
pub fn span_of(d: usize, points: &[Point]) -> u32
    requires { AllOfDimension d points.now }
    ensures { result ≡ class_span points.now }
{
    let mut widest: u32 = 0;
    for i in 0..points.len() {
        widest = widest.max(farthest(&points[i], points));
    }
    widest
}

/// Whether every coordinate is at most `bound` in absolute value.
fn is_small(coords: &[i32], bound: u32) -> bool
    ensures { IsTrue result ↔ All (IsWithin bound) coords.now }
{
    for coord in coords {
        if coord.unsigned_abs() > bound {
            return false;
        }
    }
    true
}

/// Whether every coordinate of every point is at most `bound` in absolute value.
fn are_small(points: &[Point], bound: u32) -> bool
    ensures { IsTrue result ↔ AreWithin bound points.now }
{
    for point in points {
        if !is_small(point.coords(), bound) {
            return false;
        }
    }
    true
}

/// Whether the greatest gap of two of the points is above `limit`. It isn't where the coordinates are at most the half of it, as those of most
/// classes are, and then no gap is measured.
pub fn is_wider(d: usize, points: &[Point], limit: u32) -> bool
    requires { AllOfDimension d points.now }
    ensures { IsTrue result ↔ limit < class_span points.now }
{
    if are_small(points, limit / 2) {
        return false;
    }
    span_of(d, points) > limit
}

/// Whether two of the d + 1 points differ by at most twice the span limit in each coordinate.
pub fn are_near(points: &[Point]) -> bool
    requires low { 3 ≤ length points.now }
    requires high { length points.now ≤ 7 }
    requires dimension { AllOfDimension (length points.now - 1) points.now }
    ensures { IsTrue result ↔ AreNear (2 * limits.span_limit (length points.now - 1)) points.now }
{
    let d = points.len() - 1;
    span_of(d, points) <= 2 * lt_model::span_limit(d as u8)
}
