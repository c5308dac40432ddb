//! The image of a triangulation under a drawn matrix.

ghost use Rattle.std.specs.Prelude.{◌≡◌, ◌<◌, ◌≤◌, ◌*◌, ◌^◌, ℕ, length, nat_abs, IfOk, OnErr, OnOk, IfSome, IfNone};
ghost use Rattle.std.specs.List.{All};
ghost use Rattle.lt_model.specs.Flat.{rows, flat};
ghost use Rattle.lt_model.specs.Matrices as matrix;
ghost use Rattle.lt_lattice.specs.Ranges.{IsWithin};
ghost use Rattle.lt_triang.specs.Kept.{dimension_of, IsOfSomeForm};
ghost use Rattle.lt_drill.specs.States.{after};
ghost use Rattle.lt_drill.specs.Scrambles.{turn_factor, IsScrambleOf, IsNarrowImageOf, HasWideImageOf, HasInverse};
ghost use Rattle.lt_drill.specs.Scrambles as scrambles;
ghost use Rattle.lt_drill.specs.Laws.{ScramblesAreOne};

use crate::draws::Draws;
use arrayvec::ArrayVec;
use lt_lattice::{Matrix, times};
use lt_match::{ImageError, image};
use lt_model::Memory;
use lt_triang::Triangulation;
use std::alloc::Global;

/// How many factors a scramble draws.
const TURNS: u32 = 3;

/// The identity of `d` rows with a number in row `i` and column `j`.
fn factor(d: u8, i: usize, j: usize, number: i128) -> Matrix
    requires low { 2 ≤ d }
    requires high { d ≤ 6 }
    requires row { i < d }
    requires column { j < d }
    requires small { nat_abs number ≤ 1 }
    ensures { result ≡ flat (scrambles.factor d i j number) }
{
    let mut numbers: ArrayVec<i128, 36> = ArrayVec::new();
    for entry in Matrix::identity(d).numbers() {
        numbers.push(*entry);
    }
    numbers[i * d as usize + j] = number;
    Matrix::of(d, numbers.as_slice())
}

/// The factor that three draws give: the identity with 1 or -1 in a place off the diagonal.
fn drawn_factor(d: u8, draws: &mut Draws) -> Matrix
    requires low { 2 ≤ d }
    requires high { d ≤ 6 }
    ensures value { result ≡ flat (turn_factor d draws.old) }
    ensures draws { draws.new ≡ after 3 draws.old }
{
    let i = draws.next(u64::from(d)) as usize;
    let mut j = draws.next(u64::from(d) - 1) as usize;
    if j >= i {
        j += 1;
    }
    let number = if draws.next(2) == 0 { 1 } else { -1 };
    factor(d, i, j, number)
}

/// The image of the triangulation, or None where its span is above the limit.
fn narrow_image(
    alloc: Global,
    u: &Matrix,
    t: &Triangulation,
) -> Result<Option<Triangulation>, Memory>
    requires square { length u.now ≡ dimension_of t.now * dimension_of t.now }
    requires inverse { HasInverse (dimension_of t.now) (rows (dimension_of t.now) u.now) }
    ensures some { IfOk result (λ o. IfSome o (IsNarrowImageOf t.now u.now)) }
    ensures none { IfOk result (λ o. IfNone o (HasWideImageOf t.now u.now)) }
{
    // What a triangulation keeps is known once its dimension was asked for.
    let _origin = t.dimension();
    match image(alloc, u, t) {
        Ok(made) => {
            let _dimension = made.dimension();
            Ok(Some(made))
        }
        Err(ImageError::Wide { span: _ }) => Ok(None),
        Err(ImageError::Memory) => Err(Memory),
    }
}

/// The product of the factor that a turn draws and the matrix.
fn turned(d: u8, draws: &mut Draws, u: &Matrix) -> Matrix
    requires low { 2 ≤ d }
    requires high { d ≤ 6 }
    requires square { length u.now ≡ d * d }
    requires small { All (IsWithin (2 ^ 60)) u.now }
    ensures value { result ≡ flat (matrix.times (turn_factor d draws.old) (rows d u.now)) }
    ensures square { length result ≡ d * d }
    ensures small { (bound : ℕ) → All (IsWithin bound) u.now → All (IsWithin (2 * bound)) result }
    ensures inverse { HasInverse d (rows d u.now) → HasInverse d (rows d result) }
    ensures draws { draws.new ≡ after 3 draws.old }
{
    let factor = drawn_factor(d, draws);
    // A factor at most doubles the numbers, so none is too large.
    match times(&factor, u) {
        Ok(product) => product,
        Err(_) => unreachable!(),
    }
}

/// A matrix with a whole inverse, and the image of the triangulation under it. The matrix is at first the identity.
/// Three times a factor is drawn, and the matrix becomes the product of the factor and the matrix, unless the span of
/// the image under that product is above the limit.
///
/// Where memory is refused, some of the turns drew their numbers, three each.
pub fn scramble(
    alloc: Global,
    draws: &mut Draws,
    t: &Triangulation,
) -> Result<(Matrix, Triangulation), Memory>
    ensures square { IfOk result (λ s. length s.0 ≡ dimension_of t.now * dimension_of t.now) }
    ensures scramble { IfOk result (λ s. IsScrambleOf t.now draws.old s.0 s.1) }
    ensures dimension { IfOk result (λ s. dimension_of s.1 ≡ dimension_of t.now) }
    ensures form { IfOk result (λ s. IsOfSomeForm t.now → IsOfSomeForm s.1) }
    ensures draws { OnOk result (draws.new ≡ after 9 draws.old) }
    ensures refused { OnErr result ((turns : ℕ) × (turns ≤ 3) × (draws.new ≡ after (3 * turns) draws.old)) }
{
    let d = t.dimension();
    let mut u = Matrix::identity(d);
    let mut scrambled = t.try_copy()?;
    for _turn in 0..TURNS {
        let product = turned(d, draws, &u);
        let pictured = narrow_image(alloc, &product, t)?;
        if let Some(narrow) = pictured {
            u = product;
            scrambled = narrow;
        }
    }
    Ok((u, scrambled))
}

/// A law, with nothing to run: a number and a triangulation have one scramble.
pub fn scrambles_are_exact()
    ensures { ScramblesAreOne }
{}
