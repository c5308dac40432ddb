//! The fingerprints that an atlas keeps.

ghost use Rattle.std.specs.Prelude.{◌≡◌, ◌<◌, ◌↔◌, ◌++◌, ◌∷◌, ℕ, length, get_or, map, IsTrue, IfOk, pos, []};
ghost use Rattle.lt_model.specs.Atlases.{entry_at};
ghost use Rattle.lt_triang.specs.Kept.{dimension_of, IsOfSomeForm};
ghost use Rattle.lt_colour.specs.Signatures.{IsFingerprint};
ghost use Rattle.lt_core.specs.Marks.{entry_of};
ghost use Rattle.lt_core.specs.Prints.{digest_of};

use crate::marks::Entry;
use lt_colour::fingerprint;
use lt_model::Memory;
use lt_triang::Triangulation;
use std::alloc::{AllocError, Global};
use std::marker::Model;

/// A fingerprint in little room: the numbers before the first that doesn't fit 8 bits take 8 bits each. Its digest is compared first.
#[derive(Drop)]
pub struct Print {
    digest: u64,
    narrow: Vec<i8>,
    wide: Vec<i128>,
}

impl Model for Print {
    ghost use Rattle.std.specs.Prelude.{List, ℤ, ◌++◌, ◌≡◌};
    ghost use Rattle.lt_core.specs.Prints.{digest_of};

    ghost Value = { List ℤ };

    ghost view = { λ p. p.narrow.items ++ p.wide.items };

    ghost invariant = { λ p. p.digest ≡ digest_of (p.narrow.items ++ p.wide.items) };
}

/// A number made from the others: those that have another one aren't the same.
pub fn digest(numbers: &[i128]) -> u64
    ensures { result ≡ digest_of numbers.now }
{
    let mut so_far: u64 = 0;
    for number in numbers {
        let digit = (number.unsigned_abs() % 256) as u64;
        so_far = (257 * so_far + digit) % (1 << 40);
    }
    so_far
}

/// Appends a number.
fn push_number(narrow: &mut Vec<i8>, wide: &mut Vec<i128>, number: i128) -> Result<(), AllocError>
    ensures { IfOk result (λ _. narrow.new.items ++ wide.new.items
        ≡ (narrow.old.items ++ wide.old.items) ++ number ∷ []) }
{
    match i8::try_from(number) {
        Ok(short) if wide.is_empty() => narrow.push(short)?,
        _ => wide.push(number)?,
    }
    Ok(())
}

impl Print {
    /// The numbers in little room.
    pub fn of(alloc: Global, numbers: &[i128]) -> Result<Print, AllocError>
        ensures { IfOk result (λ p. p ≡ numbers.now) }
    {
        let mut narrow: Vec<i8> = Vec::with_capacity(alloc, numbers.len())?;
        let mut wide: Vec<i128> = Vec::new(alloc);
        for number in numbers {
            push_number(&mut narrow, &mut wide, *number)?;
        }
        Ok(Print {
            digest: digest(numbers),
            narrow,
            wide,
        })
    }

    /// A copy, or want of memory.
    pub fn try_copy(&self) -> Result<Print, AllocError>
        ensures { IfOk result (λ p. p ≡ self.now) }
    {
        Ok(Print {
            digest: self.digest,
            narrow: self.narrow.clone()?,
            wide: self.wide.clone()?,
        })
    }

    /// How many numbers there are.
    fn len(&self) -> usize
        ensures { result ≡ length self.now }
    {
        self.narrow.len() + self.wide.len()
    }

    /// The number at a place.
    fn at(&self, k: usize) -> i128
        requires { k < length self.now }
        ensures { result ≡ get_or self.now k (pos 0) }
    {
        if k < self.narrow.len() {
            i128::from(self.narrow[k])
        } else {
            self.wide[k - self.narrow.len()]
        }
    }

    /// Whether the numbers are these, whose digest is given.
    pub fn has_numbers(&self, digest: u64, numbers: &[i128]) -> bool
        requires { digest ≡ digest_of numbers.now }
        ensures { IsTrue result ↔ (self.now ≡ numbers.now) }
    {
        if self.digest != digest || self.len() != numbers.len() {
            return false;
        }
        for k in 0..numbers.len() {
            if self.at(k) != numbers[k] {
                return false;
            }
        }
        true
    }

    /// Whether the numbers are the same.
    pub fn same(&self, other: &Print) -> bool
        ensures { IsTrue result ↔ (self.now ≡ other.now) }
    {
        if self.digest != other.digest || self.len() != other.len() {
            return false;
        }
        for k in 0..self.len() {
            if self.at(k) != other.at(k) {
                return false;
            }
        }
        true
    }
}

/// The fingerprint of a triangulation.
pub fn print_of(alloc: Global, t: &Triangulation) -> Result<Print, Memory>
    requires { IsOfSomeForm t.now }
    ensures { IfOk result (λ p. IsFingerprint (dimension_of t.now) t.now p) }
{
    let print = fingerprint(alloc, t)?;
    Ok(Print::of(alloc, &print)?)
}

/// The fingerprints of the triangulations of the entries.
pub fn prints_of(alloc: Global, entries: &[Entry]) -> Result<Vec<Print>, Memory>
    requires { (k : ℕ) → k < length entries.now → IsOfSomeForm (entry_at (map entry_of entries.now) k).triangulation }
    ensures count { IfOk result (λ v. length v.items ≡ length entries.now) }
    ensures each { IfOk result (λ v. (k : ℕ) → k < length entries.now →
        let t = (entry_at (map entry_of entries.now) k).triangulation in
        IsFingerprint (dimension_of t) t (get_or v.items k [])) }
{
    let mut all = Vec::new(alloc);
    for entry in entries {
        all.push(print_of(alloc, &entry.triangulation)?)?;
    }
    Ok(all)
}
