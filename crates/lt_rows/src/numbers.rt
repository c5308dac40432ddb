//! Checked numbers and fractions.

use lt_num::{Fraction, TooLarge, add, exact_div, gcd, mul, primitive, sub};
use std::cmp::Ordering;

#[test]
fn sums_and_products(rt: HostRuntime) {
    assert!(rt; add(i128::MAX, 1) == Err(TooLarge));
    assert!(rt; sub(i128::MIN, 1) == Err(TooLarge));
    assert!(rt; mul(1 << 126, 2) == Err(TooLarge));
    assert!(rt; mul(-1 << 126, 2) == Ok(i128::MIN));
    assert!(rt; exact_div(-12, 4) == Ok(-3));
    assert!(rt; gcd(-12, 18) == Ok(6));
    assert!(rt; gcd(i128::MIN, 0) == Err(TooLarge));
}

#[test]
fn primitive_lists(rt: HostRuntime) {
    let mut list = [-4, 6, 0];
    assert!(rt; primitive(&mut list) == Ok(2));
    assert!(rt; list == [-2, 3, 0]);
    let mut zeros = [0, 0];
    assert!(rt; primitive(&mut zeros) == Ok(0));
    assert!(rt; zeros == [0, 0]);
}

#[test]
fn fractions(rt: HostRuntime) {
    let (Ok(half), Ok(third)) = (Fraction::new(1, 2), Fraction::new(2, 6)) else {
        assert!(rt; false);
        return;
    };
    match half.add(&third) {
        Ok(sum) => assert!(rt; sum.num() == 5 && sum.den() == 6),
        Err(TooLarge) => assert!(rt; false),
    }
    match half.mul(&third) {
        Ok(product) => assert!(rt; product.num() == 1 && product.den() == 6),
        Err(TooLarge) => assert!(rt; false),
    }
    assert!(rt; half.cmp(&third) == Ordering::Greater);
}

#[test]
fn great_fractions_are_compared(rt: HostRuntime) {
    let (Ok(less), Ok(more)) = (
        Fraction::new(i128::MAX - 1, i128::MAX),
        Fraction::new(i128::MAX, i128::MAX - 1),
    ) else {
        assert!(rt; false);
        return;
    };
    assert!(rt; less.cmp(&more) == Ordering::Less);
    assert!(rt; less.add(&more).is_err());
}
