//! Numbers by which facets are found: the same for all translates of a facet.

ghost use Rattle.std.specs.Prelude.{◌≡◌, ◌<◌, ◌≤◌, ◌^◌, suc, pos, length, map, get_or, nat_abs};
ghost use Rattle.std.specs.List.{All};
ghost use Rattle.lt_model.specs.Facets.{without};
ghost use Rattle.lt_lattice.specs.Ranges.{IsWithin};
ghost use Rattle.lt_triang.specs.Codes as model;

use arrayvec::ArrayVec;
use lt_lattice::Point;

/// The code of a point.
fn point_code(x: &[i32]) -> i64
    requires few { length x.now ≤ 6 }
    requires small { All (IsWithin (2 ^ 20)) x.now }
    ensures value { result ≡ model.point_code x.now }
    ensures small { nat_abs result ≤ 2 ^ 45 }
{
    let mut code: i64 = 0;
    for k in 0..x.len() {
        code = 31 * code + i64::from(x[k]);
    }
    code
}

/// The codes of the vertices of a class, which are made once for all its facets.
pub fn point_codes(s: &[Point]) -> ArrayVec<i64, 7>
    requires { length s.now ≤ 7 }
    ensures value { result.items ≡ map model.point_code s.now }
    ensures small { All (IsWithin (2 ^ 45)) result.items }
{
    let mut all: ArrayVec<i64, 7> = ArrayVec::new();
    for point in s {
        all.push(point_code(point.coords()));
    }
    all
}

/// The number at place `k` of those but that at place `i`.
fn other_number(numbers: &[i64], i: usize, k: usize) -> i64
    requires high { length numbers.now ≤ 7 }
    requires place { suc k < length numbers.now }
    ensures { result ≡ get_or (without i numbers.now) k (pos 0) }
{
    if k < i { numbers[k] } else { numbers[k + 1] }
}

/// The code multiplied by an odd number of which many bits are set, less the lower half of 64 bits. Codes are linear in coordinates, so their
/// remainders would crowd.
pub fn spread(code: i64) -> u64
    ensures { result ≡ model.spread code }
{
    code.unsigned_abs().wrapping_mul(0x9E37_79B9_7F4A_7C15) >> 32
}

/// The code of facet `i` of a class of d + 1 vertices with these codes.
pub fn facet_code(d: usize, codes: &[i64], i: usize) -> i64
    requires low { 2 ≤ d }
    requires high { d ≤ 6 }
    requires count { length codes.now ≡ suc d }
    requires place { i < suc d }
    requires small { All (IsWithin (2 ^ 45)) codes.now }
    ensures { result ≡ model.digits_of (without i codes.now) }
{
    let first = other_number(codes, i, 0);
    let mut code: i64 = 0;
    for k in 0..d {
        code = 7 * code + (other_number(codes, i, k) - first);
    }
    code
}
