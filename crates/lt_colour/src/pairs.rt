//! Signatures of pairs: of a class and its neighbour at a facet.

ghost use Rattle.std.specs.Prelude.{◌≡◌, ◌<◌, ◌≤◌, [], length, get_or};
ghost use Rattle.std.specs.List.Sorted.{IsPermutation, IsSorted};
ghost use Rattle.std.specs.Ordering.{int_cmp};
ghost use Rattle.lt_model.specs.Facets.{without};
ghost use Rattle.lt_triang.specs.Kept.{dimension_of};
ghost use Rattle.lt_colour.specs.Signatures.{IsInOrder, AreNumbersFrom, IsPairSignature};

use arrayvec::ArrayVec;
use lt_triang::Triangulation;
use std::marker::Model;

/// The signature of a class and its neighbour at a facet: the numbers of the expression of the neighbour's outer vertex, of which first
/// the scale, then that of the vertex opposite to the facet, then the others in ascending order.
#[derive(Drop, PartialEq, Eq, PartialOrd, Ord)]
pub struct PairSignature {
    numbers: ArrayVec<i128, 8>,
}

impl Model for PairSignature {
    ghost use Rattle.std.specs.Prelude.{List, ℤ};

    ghost Value = { List ℤ };

    ghost view = { λ s. s.numbers.items };

    ghost inverse = { λ x. record { numbers = record { items = x } } };
}

impl PairSignature {
    /// The numbers.
    pub fn numbers(&self) -> &[i128]
        ensures value { result.now ≡ self.now }
        ensures few { length result.now ≤ 8 }
    {
        self.numbers.as_slice()
    }
}

impl Default for PairSignature {
    /// No numbers.
    fn default() -> PairSignature
        ensures { result ≡ [] }
    {
        PairSignature {
            numbers: ArrayVec::new(),
        }
    }
}

/// The same in 64 bits, which is compared and moved faster.
#[derive(Drop, PartialEq, Eq, PartialOrd, Ord)]
pub struct ShortSignature {
    numbers: ArrayVec<i64, 8>,
}

impl Model for ShortSignature {
    ghost use Rattle.std.specs.Prelude.{List, ℤ};

    ghost Value = { List ℤ };

    ghost view = { λ s. s.numbers.items };

    ghost inverse = { λ x. record { numbers = record { items = x } } };
}

impl ShortSignature {
    /// The numbers.
    pub fn numbers(&self) -> &[i64]
        ensures value { result.now ≡ self.now }
        ensures few { length result.now ≤ 8 }
    {
        self.numbers.as_slice()
    }

    /// The same numbers in 128 bits.
    fn widened(&self) -> PairSignature
        ensures { result ≡ self.now }
    {
        let mut numbers: ArrayVec<i128, 8> = ArrayVec::new();
        for number in self.numbers() {
            numbers.push(*number as i128);
        }
        PairSignature { numbers }
    }
}

impl Default for ShortSignature {
    /// No numbers.
    fn default() -> ShortSignature
        ensures { result ≡ [] }
    {
        ShortSignature {
            numbers: ArrayVec::new(),
        }
    }
}

/// The numbers but that at place `i`.
fn others(numbers: &[i64], i: usize) -> ArrayVec<i64, 7>
    requires few { length numbers.now ≤ 7 }
    requires place { i < length numbers.now }
    ensures { result.items ≡ without i numbers.now }
{
    let mut all: ArrayVec<i64, 7> = ArrayVec::new();
    for number in numbers {
        all.push(*number);
    }
    let _removed = all.remove(i);
    all
}

/// Puts the numbers into ascending order.
fn sort(numbers: &mut [i64])
    ensures permutation { IsPermutation numbers.old numbers.new }
    ensures ascending { IsSorted int_cmp numbers.new }
{
    numbers.sort_unstable();
}

/// The signature that the numbers of an expression make.
fn signature_from(scale: i64, coefficients: &[i64], facet: usize) -> ShortSignature
    requires few { length coefficients.now ≤ 7 }
    requires place { facet < length coefficients.now }
    ensures { AreNumbersFrom facet scale coefficients.now result }
{
    let mut rest = others(coefficients, facet);
    sort(rest.as_mut_slice());
    let mut numbers: ArrayVec<i64, 8> = ArrayVec::new();
    numbers.push(scale);
    numbers.push(coefficients[facet]);
    for number in rest.as_slice() {
        numbers.push(*number);
    }
    ShortSignature { numbers }
}

/// The signature of the class at place `class` and its neighbour at facet `facet`, in 64 bits.
pub fn short_signature(t: &Triangulation, class: usize, facet: usize) -> ShortSignature
    requires class { class < length t.now }
    requires facet { facet < length (get_or t.now class []) }
    ensures { IsPairSignature (dimension_of t.now) t.now (get_or t.now class []) facet result }
{
    let _dimension = t.dimension();
    let numbers = t.outer_numbers(class, facet);
    let all = numbers.as_slice();
    signature_from(all[0], &all[1..], facet)
}

/// The signature of the class at place `class` and its neighbour at facet `facet`.
pub fn pair_signature(t: &Triangulation, class: usize, facet: usize) -> PairSignature
    requires class { class < length t.now }
    requires facet { facet < length (get_or t.now class []) }
    ensures { IsPairSignature (dimension_of t.now) t.now (get_or t.now class []) facet result }
{
    short_signature(t, class, facet).widened()
}
