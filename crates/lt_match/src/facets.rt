//! Signatures of facets.

ghost use Rattle.std.specs.Prelude.{◌≡◌, ◌<◌, ◌≤◌, ◌+◌, ◌++◌, [], length, get_or};
ghost use Rattle.lt_triang.specs.Kept.{dimension_of, IsOfSomeForm};
ghost use Rattle.lt_match.specs.Beyond.{AreFacetSignatures};

use arrayvec::ArrayVec;
use lt_colour::{PairSignature, pair_signatures, signature};
use lt_triang::Triangulation;
use std::marker::Model;

/// The signature of a facet of a class: that of the pair there, then that of the neighbour.
#[derive(Drop, PartialEq, Eq, PartialOrd, Ord)]
pub struct FacetSignature {
    numbers: ArrayVec<i128, 64>,
}

impl Model for FacetSignature {
    ghost use Rattle.std.specs.Prelude.{List, ℤ};

    ghost Value = { List ℤ };

    ghost view = { λ s. s.numbers.items };

    ghost inverse = { λ x. record { numbers = record { items = x } } };
}

impl Default for FacetSignature {
    /// No numbers.
    fn default() -> FacetSignature
        ensures { result ≡ [] }
    {
        FacetSignature {
            numbers: ArrayVec::new(),
        }
    }
}

/// Appends the numbers.
fn push_numbers(all: &mut ArrayVec<i128, 64>, numbers: &[i128])
    requires { length all.old.items + length numbers.now ≤ 64 }
    ensures { all.new.items ≡ all.old.items ++ numbers.now }
{
    for number in numbers {
        all.push(*number);
    }
}

/// The signature of a pair, then that of a class.
fn joined(pair: &PairSignature, beyond: &[i128]) -> FacetSignature
    requires { length beyond.now ≤ 56 }
    ensures { result ≡ pair.now ++ beyond.now }
{
    let mut numbers: ArrayVec<i128, 64> = ArrayVec::new();
    push_numbers(&mut numbers, pair.numbers());
    push_numbers(&mut numbers, beyond);
    FacetSignature { numbers }
}

/// The signatures of the facets of the class at place `class`, in their order. The triangulation is the Delaunay triangulation of some form.
pub fn facet_signatures(t: &Triangulation, class: usize) -> ArrayVec<FacetSignature, 7>
    requires delaunay { IsOfSomeForm t.now }
    requires class { class < length t.now }
    ensures { AreFacetSignatures (dimension_of t.now) t.now (get_or t.now class []) result.items }
{
    let pairs = pair_signatures(t, class);
    let mut all: ArrayVec<FacetSignature, 7> = ArrayVec::new();
    for facet in 0..usize::from(t.dimension()) + 1 {
        let next = t.neighbour(class, facet);
        all.push(joined(&pairs[facet], signature(t, next.class).as_slice()));
    }
    all
}
