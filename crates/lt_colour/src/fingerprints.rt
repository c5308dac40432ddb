//! Fingerprints of triangulations.

ghost use Rattle.std.specs.Prelude.{◌≡◌, ◌<◌, ◌≤◌, ◌++◌, [], length, get_or, IfOk};
ghost use Rattle.std.specs.List.Sorted.{IsPermutation, IsSorted};
ghost use Rattle.lt_model.specs.Flat.{flat};
ghost use Rattle.lt_model.specs.Order.{number_list_cmp};
ghost use Rattle.lt_triang.specs.Kept.{dimension_of, IsOfSomeForm};
ghost use Rattle.lt_colour.specs.Signatures.{AreClassSignatures, IsFingerprint, FingerprintsAreInvariant};

use crate::signatures::short_class_signature;
use arrayvec::ArrayVec;
use lt_model::Memory;
use lt_triang::Triangulation;
use std::alloc::Global;
use std::marker::Model;

/// The signature of a class in 64 bits, which is compared and moved faster.
#[derive(Drop, PartialEq, Eq, PartialOrd, Ord)]
struct ShortClassSignature {
    numbers: ArrayVec<i64, 56>,
}

impl Model for ShortClassSignature {
    ghost use Rattle.std.specs.Prelude.{List, ℤ};

    ghost Value = { List ℤ };

    ghost view = { λ s. s.numbers.items };

    ghost inverse = { λ x. record { numbers = record { items = x } } };
}

impl ShortClassSignature {
    /// The numbers.
    fn numbers(&self) -> &[i64]
        ensures { result.now ≡ self.now }
    {
        self.numbers.as_slice()
    }
}

/// The signatures of the classes in 64 bits.
fn short_class_signatures(
    alloc: Global,
    t: &Triangulation,
) -> Result<Vec<ShortClassSignature>, Memory>
    requires { IsOfSomeForm t.now }
    ensures { IfOk result (λ all. AreClassSignatures (dimension_of t.now) t.now all.items) }
{
    let mut all = match Vec::with_capacity(alloc, t.len()) {
        Ok(all) => all,
        Err(_) => return Err(Memory),
    };
    for class in 0..t.len() {
        let numbers = short_class_signature(t, class);
        match all.push(ShortClassSignature { numbers }) {
            Ok(()) => {}
            Err(_) => return Err(Memory),
        }
    }
    Ok(all)
}

/// The same signatures in ascending order.
fn sorted(given: Vec<ShortClassSignature>) -> Vec<ShortClassSignature>
    ensures permutation { IsPermutation given.items result.items }
    ensures ascending { IsSorted number_list_cmp result.items }
{
    let mut all = given;
    all.sort_unstable();
    all
}

/// Appends the numbers.
fn push_numbers(all: &mut Vec<i128>, numbers: &[i64]) -> Result<(), Memory>
    ensures { IfOk result (λ _. all.new.items ≡ all.old.items ++ numbers.now) }
{
    for number in numbers {
        all.push(*number as i128)?;
    }
    Ok(())
}

/// The numbers of the signatures, one after the other.
fn joined(alloc: Global, signatures: &[ShortClassSignature]) -> Result<Vec<i128>, Memory>
    ensures { IfOk result (λ all. all.items ≡ flat signatures.now) }
{
    let mut all = match Vec::with_capacity(alloc, signatures.len().saturating_mul(56)) {
        Ok(all) => all,
        Err(_) => return Err(Memory),
    };
    for signature in signatures {
        push_numbers(&mut all, signature.numbers())?;
    }
    Ok(all)
}

/// The fingerprint: the signatures of the classes in ascending order, one after the other. Equivalent triangulations have the same, but
/// triangulations with the same fingerprint may differ. The triangulation is the Delaunay triangulation of some form. Memory where memory
/// was refused.
pub fn fingerprint(alloc: Global, t: &Triangulation) -> Result<Vec<i128>, Memory>
    requires { IsOfSomeForm t.now }
    ensures { IfOk result (λ f. IsFingerprint (dimension_of t.now) t.now f.items) }
{
    let ascending = sorted(short_class_signatures(alloc, t)?);
    joined(alloc, ascending.as_slice())
}

/// Equivalent Delaunay triangulations have the same fingerprint.
pub fn fingerprints_are_invariant()
    ensures { FingerprintsAreInvariant }
{}
