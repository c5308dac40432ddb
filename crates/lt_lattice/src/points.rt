//! Points of whole coordinates.

ghost use Rattle.std.specs.Prelude.{◌≡◌, ◌<◌, ◌≤◌, ◌^◌, ℤ, pos, List, length, take, get_or, IsTrue, IsSome, IfSome, ◌↔◌};
ghost use Rattle.std.specs.List.{All};
ghost use Rattle.lt_model.specs.Vectors.{plus, minus, zeros};
ghost use Rattle.lt_lattice.specs.Ranges.{IsWithin};
ghost use Rattle.lt_lattice.specs.Points.{filled};

use std::cmp::Ordering;
use std::marker::Model;

/// The greatest absolute value of a coordinate: 2^20.
const GREATEST: i32 = 1 << 20;

/// A point of 2 to 6 whole coordinates, each at most 2^20 in absolute value. It is a few words that are copied at once.
#[derive(Drop)]
pub struct Point {
    dimension: usize,
    /// The coordinates, then zeros.
    places: [i32; 6],
}

impl Model for Point {
    ghost use Rattle.std.specs.Prelude.{List, ℤ, take};
    ghost use Rattle.lt_lattice.specs.Points.{IsPoint};

    ghost Value = { List ℤ };

    ghost view = { λ p. take p.dimension p.places };

    ghost invariant = { λ p. IsPoint p.dimension p.places };
}

impl Point {
    /// The point with these 2 to 6 coordinates, each at most 2^20 in absolute value.
    pub fn of(coords: &[i64]) -> Point
        requires low { 2 ≤ length coords.now }
        requires high { length coords.now ≤ 6 }
        requires within { All (IsWithin (2 ^ 20)) coords.now }
        ensures { result ≡ coords.now }
    {
        let mut places = [0i32; 6];
        for i in 0..coords.len() {
            places[i] = coords[i] as i32;
        }
        Point {
            dimension: coords.len(),
            places,
        }
    }

    /// The point 0 of `d` coordinates.
    pub fn origin(d: u8) -> Point
        requires low { 2 ≤ d }
        requires high { d ≤ 6 }
        ensures { result ≡ zeros d }
    {
        Point {
            dimension: usize::from(d),
            places: [0; 6],
        }
    }

    /// The same point.
    pub fn copy(&self) -> Point
        ensures { result ≡ self.now }
    {
        Point {
            dimension: self.dimension,
            places: self.places,
        }
    }

    /// The number of coordinates.
    pub fn dimension(&self) -> u8
        ensures value { result ≡ length self.now }
        ensures low { 2 ≤ result }
        ensures high { result ≤ 6 }
    {
        self.dimension as u8
    }

    /// The coordinate at place `i`, counted from 0.
    pub fn coord(&self, i: usize) -> i64
        requires { i < length self.now }
        ensures value { result ≡ get_or self.now i (pos 0) }
        ensures within { IsWithin (2 ^ 20) result }
    {
        i64::from(self.coords()[i])
    }

    /// The coordinates in order.
    pub fn coords(&self) -> &[i32]
        ensures value { result.now ≡ self.now }
        ensures low { 2 ≤ length self.now }
        ensures high { length self.now ≤ 6 }
        ensures within { All (IsWithin (2 ^ 20)) self.now }
    {
        &self.places[..self.dimension]
    }

    /// The sum, or None where a coordinate would pass 2^20 in absolute value.
    pub fn plus(&self, other: &Point) -> Option<Point>
        requires { length self.now ≡ length other.now }
        ensures value { IfSome result (λ p. p ≡ plus self.now other.now) }
        ensures within { IsSome result ↔ All (IsWithin (2 ^ 20)) (plus self.now other.now) }
    {
        checked(self.dimension, sums(&self.places, &other.places))
    }

    /// The difference, or None where a coordinate would pass 2^20 in absolute value.
    pub fn minus(&self, other: &Point) -> Option<Point>
        requires { length self.now ≡ length other.now }
        ensures value { IfSome result (λ p. p ≡ minus self.now other.now) }
        ensures within { IsSome result ↔ All (IsWithin (2 ^ 20)) (minus self.now other.now) }
    {
        checked(self.dimension, differences(&self.places, &other.places))
    }
}

impl Default for Point {
    /// The point 0 of the plane.
    fn default() -> Self {
        Point::origin(2)
    }
}

impl PartialEq for Point {
    ghost use Rattle.std.specs.Cmp.Lexicographic.{pointwise};
    ghost use Rattle.std.specs.Ordering.{int_eq};
    ghost use Rattle.std.specs.Cmp.Rules.{comparing};
    ghost use Rattle.std.specs.Prelude.{◌≡◌, ◌↔◌, IsTrue};
    ghost use Rattle.std.proofs.Common.{rules};

    ghost eq = { pointwise int_eq };

    ghost laws = { Prim.search (comparing, rules) };

    /// Whether the coordinates are the same.
    fn eq(&self, other: &Point) -> bool
        ensures value { result ≡ pointwise int_eq self.now other.now }
        ensures same { IsTrue result ↔ (self.now ≡ other.now) }
    {
        self.coords() == other.coords()
    }
}

impl Eq for Point {
    ghost use Rattle.std.specs.Cmp.Rules.{comparing};
    ghost use Rattle.std.proofs.Common.{rules};

    ghost laws = { Prim.search (comparing, rules) };
}

impl PartialOrd for Point {
    ghost use Rattle.std.specs.declared.option.Option.TheVariants.{Some};
    ghost use Rattle.std.specs.Cmp.Lexicographic.{lists_total, lists_ties};
    ghost use Rattle.std.specs.Cmp.{po, int_cmp_total};
    ghost use Rattle.std.specs.Ordering.{int_cmp};
    ghost use Rattle.std.proofs.Common.{refl};
    ghost use Rattle.lt_model.specs.Order.{number_list_cmp};

    ghost partial_cmp = { λ p q. Some (number_list_cmp p q) };

    ghost laws = { po (lists_total int_cmp_total) (lists_ties int_cmp (λ x y. refl)) };

    fn partial_cmp(&self, other: &Point) -> Option<Ordering> {
        Some(self.cmp(other))
    }
}

impl Ord for Point {
    ghost use Rattle.std.specs.Cmp.Lexicographic.{lists_total, lists_ties};
    ghost use Rattle.std.specs.Cmp.{int_cmp_total};
    ghost use Rattle.std.specs.Ordering.{int_cmp};
    ghost use Rattle.std.proofs.Common.{refl};
    ghost use Rattle.lt_model.specs.Order.{number_list_cmp};

    ghost cmp = { number_list_cmp };

    ghost total = { lists_total int_cmp_total };

    ghost matches_partial_cmp = { λ x y. refl };

    ghost matches_eq = { lists_ties int_cmp (λ x y. refl) };

    /// The order of the lists of coordinates.
    fn cmp(&self, other: &Point) -> Ordering
        ensures { result ≡ number_list_cmp self.now other.now }
    {
        self.coords().cmp(other.coords())
    }
}

/// The sums of equal places.
fn sums(a: &[i32; 6], b: &[i32; 6]) -> [i32; 6]
    requires left { All (IsWithin (2 ^ 20)) a.now }
    requires right { All (IsWithin (2 ^ 20)) b.now }
    ensures { result ≡ plus a.now b.now }
{
    let mut all = [0i32; 6];
    for i in 0..6 {
        all[i] = a[i] + b[i];
    }
    all
}

/// The differences of equal places.
fn differences(a: &[i32; 6], b: &[i32; 6]) -> [i32; 6]
    requires left { All (IsWithin (2 ^ 20)) a.now }
    requires right { All (IsWithin (2 ^ 20)) b.now }
    ensures { result ≡ minus a.now b.now }
{
    let mut all = [0i32; 6];
    for i in 0..6 {
        all[i] = a[i] - b[i];
    }
    all
}

/// Whether each number is at most 2^20 in absolute value.
fn are_coordinates(numbers: &[i32; 6]) -> bool
    ensures { IsTrue result ↔ All (IsWithin (2 ^ 20)) numbers.now }
{
    for number in numbers {
        if *number < -GREATEST || *number > GREATEST {
            return false;
        }
    }
    true
}

/// The point with these coordinates and zeros behind them, or None where one of them is too great.
fn checked(dimension: usize, places: [i32; 6]) -> Option<Point>
    requires low { 2 ≤ dimension }
    requires high { dimension ≤ 6 }
    requires padded { places ≡ filled 6 (take dimension places) }
    ensures value { IfSome result (λ p. p ≡ take dimension places) }
    ensures within { IsSome result ↔ All (IsWithin (2 ^ 20)) (take dimension places) }
{
    if are_coordinates(&places) {
        Some(Point { dimension, places })
    } else {
        None
    }
}

/// The point with these coordinates, or None where one of them is too great.
pub fn narrowed(numbers: &[i128]) -> Option<Point>
    requires low { 2 ≤ length numbers.now }
    requires high { length numbers.now ≤ 6 }
    ensures value { IfSome result (λ p. p ≡ numbers.now) }
    ensures within { IsSome result ↔ All (IsWithin (2 ^ 20)) numbers.now }
{
    let mut places = [0i32; 6];
    for i in 0..numbers.len() {
        if numbers[i] < -(GREATEST as i128) || numbers[i] > GREATEST as i128 {
            return None;
        }
        places[i] = numbers[i] as i32;
    }
    Some(Point {
        dimension: numbers.len(),
        places,
    })
}
