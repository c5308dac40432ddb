//! Fractions of whole numbers of 128 bits.

ghost use Rattle.std.specs.Prelude.{◌≡◌, ◌≢◌, ◌<◌, ℤ, pos, neg_ℤ, ◌*ℤ◌, ◌<ℤ◌, cond, unsigned_abs, FitsSigned, MatchResult, IsOk};
ghost use Rattle.std.specs.Int.{IsGcd, w128};
ghost use Rattle.std.specs.Ordering.{MatchOrdering};
ghost use Rattle.lt_num.specs.Fractions.{Ratio, IsReduced, IsQuotient, IsTooLarge, AreRests, IsSumWithin, IsSum, IsProduct, Fits, signed_ratio};

use crate::{TooLarge, add, common, mul, part};
use std::cmp::Ordering;
use std::marker::Model;

/// A quotient of two whole numbers, in lowest terms and with a positive denominator.
#[derive(Clone, Copy, Debug, PartialEq, Eq)]
pub struct Fraction {
    num: i128,
    den: i128,
}

impl Model for Fraction {
    ghost Value = { Ratio };

    ghost view = { λ f. record { num = f.num; den = f.den } };

    ghost inverse = { λ q. record { num = q.num; den = q.den } };

    ghost invariant = { λ f. IsReduced (record { num = f.num; den = f.den }) };
}

impl Fraction {
    /// `num` divided by `den`, which isn't 0. It is refused exactly where the lowest terms do not fit 128 bits.
    pub fn new(num: i128, den: i128) -> Result<Fraction, TooLarge>
        requires { den ≢ pos 0 }
        ensures quotient { MatchResult result (λ q. IsQuotient num den q) (λ _. IsTooLarge num den) }
        ensures positive { pos 0 <ℤ den → IsOk result }
    {
        let divisor = common(num.unsigned_abs(), den.unsigned_abs());
        let top = num.unsigned_abs() / divisor;
        let bottom = den.unsigned_abs() / divisor;
        from_parts(top, bottom, (num < 0) != (den < 0))
    }

    /// The numerator.
    pub fn num(&self) -> i128
        ensures { result ≡ self.now.num }
    {
        self.num
    }

    /// The denominator, which is positive.
    pub fn den(&self) -> i128
        ensures value { result ≡ self.now.den }
        ensures positive { pos 0 <ℤ result }
    {
        self.den
    }

    /// The sum of a/b and c/e. With g the greatest common divisor of b and e, it is refused exactly where a(e/g), c(b/g), their sum
    /// or b(e/g) does not fit 128 bits.
    pub fn add(&self, other: &Fraction) -> Result<Fraction, TooLarge>
        ensures { MatchResult result (λ s. IsSumWithin self.now other.now × IsSum self.now other.now s)
            (λ _. IsSumWithin self.now other.now → ⊥) }
    {
        let (own, rest) = rests(self.den, other.den);
        let left = mul(self.num, rest)?;
        let right = mul(other.num, own)?;
        let sum = add(left, right)?;
        let den = mul(self.den, rest)?;
        Fraction::new(sum, den)
    }

    /// The product. It is refused exactly where its lowest terms do not fit 128 bits.
    pub fn mul(&self, other: &Fraction) -> Result<Fraction, TooLarge>
        ensures { MatchResult result (IsProduct self.now other.now)
            (λ _. IsTooLarge (self.now.num *ℤ other.now.num) (self.now.den *ℤ other.now.den)) }
    {
        let (own_num, rest_den) = rests(self.num, other.den);
        let (rest_num, own_den) = rests(other.num, self.den);
        let num = mul(own_num, rest_num)?;
        let den = mul(own_den, rest_den)?;
        Ok(Fraction { num, den })
    }

    /// The order of the two fractions. It is exact, also where products of their parts do not fit 128 bits.
    pub fn cmp(&self, other: &Fraction) -> Ordering
        ensures { MatchOrdering result ((self.now.num *ℤ other.now.den) <ℤ (other.now.num *ℤ self.now.den))
            (self.now.num *ℤ other.now.den ≡ other.now.num *ℤ self.now.den)
            ((other.now.num *ℤ self.now.den) <ℤ (self.now.num *ℤ other.now.den)) }
    {
        compare(self.num, self.den, other.num, other.den)
    }
}

/// Both numbers, of which the second is positive, divided by their greatest common divisor.
fn rests(b: i128, e: i128) -> (i128, i128)
    requires { pos 0 <ℤ e }
    ensures { AreRests b e result.0 result.1 }
{
    let divisor = common(b.unsigned_abs(), e.unsigned_abs()) as i128;
    (part(b, divisor), part(e, divisor))
}

/// Compares a/b with c/e: by their integral parts, and where these agree by the inverses of what is left, until one of those is
/// infinite, which shows as a denominator 0.
fn compare(a: i128, b: i128, c: i128, e: i128) -> Ordering
    requires first { pos 0 <ℤ b }
    requires second { pos 0 <ℤ e }
    ensures { MatchOrdering result ((a *ℤ e) <ℤ (c *ℤ b)) (a *ℤ e ≡ c *ℤ b) ((c *ℤ b) <ℤ (a *ℤ e)) }
{
    let mut a = a;
    let mut b = b;
    let mut c = c;
    let mut e = e;
    while b != 0 && e != 0 {
        let first = a.div_euclid(b);
        let second = c.div_euclid(e);
        if first != second {
            return first.cmp(&second);
        }
        let first_rest = a.rem_euclid(b);
        let second_rest = c.rem_euclid(e);
        a = e;
        c = b;
        b = second_rest;
        e = first_rest;
    }
    e.cmp(&b)
}

/// The fraction of these magnitudes, which have no common divisor, and of this sign.
fn from_parts(top: u128, bottom: u128, negative: bool) -> Result<Fraction, TooLarge>
    requires positive { 0 < bottom }
    requires lowest { IsGcd top bottom 1 }
    ensures { MatchResult result (λ q. q ≡ signed_ratio negative top bottom)
        (λ _. Fits (signed_ratio negative top bottom) → ⊥) }
{
    let num = signed(top, negative)?;
    let den = signed(bottom, false)?;
    Ok(Fraction { num, den })
}

/// The number of this absolute value and sign.
fn signed(magnitude: u128, negative: bool) -> Result<i128, TooLarge>
    ensures { MatchResult result (λ z. z ≡ cond negative (neg_ℤ (pos magnitude)) (pos magnitude))
        (λ _. FitsSigned w128 (cond negative (neg_ℤ (pos magnitude)) (pos magnitude)) → ⊥) }
{
    if magnitude <= i128::MAX as u128 {
        let number = magnitude as i128;
        Ok(if negative { -number } else { number })
    } else if negative && magnitude == 1 << 127 {
        Ok(i128::MIN)
    } else {
        Err(TooLarge)
    }
}
