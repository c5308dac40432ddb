//! Neighbours as they are kept, in little room.

ghost use Rattle.std.specs.Prelude.{◌≡◌, ◌≤◌, ◌∷◌, length, IfOk, IfSome};
ghost use Rattle.lt_triang.specs.Carried.{IsMoved};
ghost use Rattle.lt_triang.specs.Walled.{AreKept, IsWallOf, HasPlaces, IsMirrored};

use crate::expressions::Expression;
use arrayvec::ArrayVec;
use lt_model::Memory;

/// A neighbour at a facet as it is kept: its shift and its vertex outside follow from the classes.
#[derive(Drop)]
pub struct Wall {
    /// The place of the member among the classes.
    pub class: u32,
    /// The place of the vertex that lies on the other side of the facet.
    pub vertex: u8,
    /// The numbers of the expression of that vertex, the scale first, or none where one of them doesn't fit 8 bits.
    pub numbers: ArrayVec<i8, 8>,
}

/// The numbers of an expression in 8 bits, or none where one of them doesn't fit.
fn narrow(scale: i128, coefficients: &[i128]) -> ArrayVec<i8, 8>
    requires { length coefficients.now ≤ 7 }
    ensures { AreKept (scale ∷ coefficients.now) result.items }
{
    let mut numbers: ArrayVec<i8, 8> = ArrayVec::new();
    match i8::try_from(scale) {
        Ok(number) => numbers.push(number),
        Err(_) => return ArrayVec::new(),
    }
    for coefficient in coefficients {
        match i8::try_from(*coefficient) {
            Ok(number) => numbers.push(number),
            Err(_) => return ArrayVec::new(),
        }
    }
    numbers
}

impl Wall {
    /// Facet `vertex` of the class at place `class`, whose vertex outside has this expression, as it is kept. Places that don't fit are refused
    /// as memory is, since so long a list of classes has no room either.
    pub fn of(class: usize, vertex: usize, expression: &Expression) -> Result<Wall, Memory>
        ensures { IfOk result (IsWallOf class vertex expression.now.scale expression.now.coefficients) }
    {
        match (u32::try_from(class), u8::try_from(vertex)) {
            (Ok(class), Ok(vertex)) => Ok(Wall {
                class,
                vertex,
                numbers: narrow(expression.scale, expression.coefficients.as_slice()),
            }),
            _ => Err(Memory),
        }
    }

    /// The same facet seen from the other side, where this is the wall of facet `facet` of the class at place `class`. One equation tells of
    /// the vertices on both sides, so the numbers change places and nothing is solved. None where no numbers are kept, or something doesn't
    /// fit.
    // Not inlined: locals of an inlined function are set to zero as its caller begins, and these are large and rarely needed.
    #[inline(never)]
    pub fn mirrored(&self, class: usize, facet: usize) -> Option<Wall>
        requires { HasPlaces self.now facet }
        ensures { IfSome result (IsMirrored self.now class facet) }
    {
        if self.numbers.is_empty() {
            return None;
        }
        let mut numbers = self.copy().numbers;
        let scale = numbers.remove(0).checked_neg()?;
        let turned = numbers.remove(facet).checked_neg()?;
        numbers.insert(usize::from(self.vertex), scale);
        numbers.insert(0, turned);
        match (u32::try_from(class), u8::try_from(facet)) {
            (Ok(class), Ok(vertex)) => Some(Wall {
                class,
                vertex,
                numbers,
            }),
            _ => None,
        }
    }

    /// The same wall where the neighbour stands at place `class`. A place that doesn't fit is refused as memory is.
    pub fn moved(&self, class: usize) -> Result<Wall, Memory>
        ensures { IfOk result (IsMoved self.now class) }
    {
        match u32::try_from(class) {
            Ok(class) => {
                let wall = self.copy();
                Ok(Wall {
                    class,
                    vertex: wall.vertex,
                    numbers: wall.numbers,
                })
            }
            Err(_) => Err(Memory),
        }
    }

    /// The same neighbour.
    pub fn copy(&self) -> Wall
        ensures { result ≡ self.now }
    {
        let mut numbers: ArrayVec<i8, 8> = ArrayVec::new();
        for number in self.numbers.as_slice() {
            numbers.push(*number);
        }
        Wall {
            class: self.class,
            vertex: self.vertex,
            numbers,
        }
    }

    /// The numbers of the expression that are kept, in 64 bits.
    pub fn widened(&self) -> ArrayVec<i64, 8>
        ensures { result.items ≡ self.now.numbers.items }
    {
        let mut all: ArrayVec<i64, 8> = ArrayVec::new();
        for number in self.numbers.as_slice() {
            all.push(i64::from(*number));
        }
        all
    }

    /// The expression, or None where its numbers aren't kept.
    pub fn expression(&self) -> Option<Expression>
        ensures { IfSome result (λ e. self.now.numbers.items ≡ e.scale ∷ e.coefficients) }
    {
        let numbers = self.numbers.as_slice();
        if numbers.is_empty() {
            return None;
        }
        let mut coefficients: ArrayVec<i128, 7> = ArrayVec::new();
        for k in 1..numbers.len() {
            coefficients.push(i128::from(numbers[k]));
        }
        Some(Expression {
            scale: i128::from(numbers[0]),
            coefficients,
        })
    }
}
