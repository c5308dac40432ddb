//! Signatures of classes.

ghost use Rattle.std.specs.Prelude.{◌≡◌, ◌<◌, ◌≤◌, ◌+◌, ◌++◌, [], length, get_or};
ghost use Rattle.std.specs.List.Sorted.{IsPermutation, IsSorted};
ghost use Rattle.lt_model.specs.Flat.{flat};
ghost use Rattle.lt_model.specs.Order.{number_list_cmp};
ghost use Rattle.lt_triang.specs.Kept.{dimension_of, IsOfSomeForm};
ghost use Rattle.lt_colour.specs.Signatures.{ArePairSignatures, IsClassSignature, SignaturesAreInvariant};

use crate::pairs::{PairSignature, ShortSignature, pair_signature, short_signature};
use arrayvec::ArrayVec;
use lt_triang::Triangulation;

/// The signatures of the pairs at the d + 1 facets of the class at place `class`, in the order of facets.
pub fn pair_signatures(t: &Triangulation, class: usize) -> ArrayVec<PairSignature, 7>
    requires class { class < length t.now }
    ensures { ArePairSignatures (dimension_of t.now) t.now (get_or t.now class []) result.items }
{
    let mut all: ArrayVec<PairSignature, 7> = ArrayVec::new();
    for facet in 0..usize::from(t.dimension()) + 1 {
        all.push(pair_signature(t, class, facet));
    }
    all
}

/// The same in 64 bits.
fn short_signatures(t: &Triangulation, class: usize) -> ArrayVec<ShortSignature, 7>
    requires class { class < length t.now }
    ensures { ArePairSignatures (dimension_of t.now) t.now (get_or t.now class []) result.items }
{
    let mut all: ArrayVec<ShortSignature, 7> = ArrayVec::new();
    for facet in 0..usize::from(t.dimension()) + 1 {
        all.push(short_signature(t, class, facet));
    }
    all
}

/// Puts the signatures into ascending order.
fn sort(pairs: &mut [ShortSignature])
    ensures permutation { IsPermutation pairs.old pairs.new }
    ensures ascending { IsSorted number_list_cmp pairs.new }
{
    pairs.sort_unstable();
}

/// Appends the numbers.
fn push_numbers(all: &mut ArrayVec<i64, 56>, numbers: &[i64])
    requires { length all.old.items + length numbers.now ≤ 56 }
    ensures { all.new.items ≡ all.old.items ++ numbers.now }
{
    for number in numbers {
        all.push(*number);
    }
}

/// The numbers of the signatures, one after the other.
fn joined(pairs: &[ShortSignature]) -> ArrayVec<i64, 56>
    requires { length pairs.now ≤ 7 }
    ensures { result.items ≡ flat pairs.now }
{
    let mut all: ArrayVec<i64, 56> = ArrayVec::new();
    for pair in pairs {
        push_numbers(&mut all, pair.numbers());
    }
    all
}

/// The same numbers in 128 bits.
fn widened(numbers: &[i64]) -> ArrayVec<i128, 56>
    requires { length numbers.now ≤ 56 }
    ensures { result.items ≡ numbers.now }
{
    let mut all: ArrayVec<i128, 56> = ArrayVec::new();
    for number in numbers {
        all.push(*number as i128);
    }
    all
}

/// The signature of the class at place `class` in 64 bits, which is compared and moved faster: the signatures of the pairs at its facets in
/// ascending order, one after the other. Each has d + 2 numbers.
pub fn short_class_signature(t: &Triangulation, class: usize) -> ArrayVec<i64, 56>
    requires class { class < length t.now }
    ensures { IsClassSignature (dimension_of t.now) t.now (get_or t.now class []) result.items }
{
    let mut pairs = short_signatures(t, class);
    sort(pairs.as_mut_slice());
    joined(pairs.as_slice())
}

/// The signature of the class at place `class`: the signatures of the pairs at its facets in ascending order, one after the other. Each has
/// d + 2 numbers. The triangulation is the Delaunay triangulation of some form.
pub fn signature(t: &Triangulation, class: usize) -> ArrayVec<i128, 56>
    requires delaunay { IsOfSomeForm t.now }
    requires class { class < length t.now }
    ensures { IsClassSignature (dimension_of t.now) t.now (get_or t.now class []) result.items }
{
    widened(short_class_signature(t, class).as_slice())
}

/// A matrix that carries one Delaunay triangulation onto another takes each member to one with the same signature.
pub fn signatures_are_invariant()
    ensures { SignaturesAreInvariant }
{}
