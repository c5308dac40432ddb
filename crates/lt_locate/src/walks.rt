//! The walk across facets.

ghost use Rattle.std.specs.Prelude.{◌≡◌, ◌≤◌, ◌^◌, ℕ, ℤ, List, length, IfOk, IfErr, MatchOption};
ghost use Rattle.std.specs.List.{All};
ghost use Rattle.lt_model.specs.Forms.{numbers_of_form};
ghost use Rattle.lt_model.specs.Triangulations.{IsDelaunay};
ghost use Rattle.lt_lattice.specs.Ranges.{IsWithin};
ghost use Rattle.lt_triang.specs.Kept.{dimension_of, IsOfSomeForm};
ghost use Rattle.lt_locate.specs.Endings.{Ending, inside, EndsWith};
ghost use Rattle.lt_locate.specs.Refusals.{IsRefusal, IsStopAt};
ghost use Rattle.lt_locate.specs.Steps.{IsNext, IsInsideAt};

use crate::answers::{LocateError, Located, WalkStop};
use crate::sides::{Off, Side, side_of};
use lt_flip::{FlipError, flip};
use lt_lattice::Form;
use lt_principal::principal;
use lt_triang::Triangulation;
use std::alloc::Global;

/// One step of a walk that has crossed so many facets of as many as it may: the triangulation across the first negative facet, or
/// None where the form lies inside.
fn next(
    alloc: Global,
    t: &Triangulation,
    q: &Form,
    crossed: u32,
    steps: u32,
) -> Result<Option<Triangulation>, LocateError>
    requires delaunay { IsOfSomeForm t.now }
    requires same { length q.now ≡ numbers_of_form (dimension_of t.now) }
    requires within { All (IsWithin (2 ^ 40)) q.now }
    requires most { crossed ≤ steps }
    ensures next { IfOk result (λ r. MatchOption r (IsInsideAt (dimension_of t.now) t.now q.now)
        (λ s. IsNext t.now q.now crossed steps s)) }
    ensures stop { IfErr result (λ e. IsStopAt (dimension_of t.now) q.now steps crossed t.now e) }
{
    // It shows that the dimension is 2 at least.
    let _dimension = t.dimension();
    let facet = match side_of(alloc, t, q) {
        Ok(Side::Inside) => return Ok(None),
        Ok(Side::Beyond(facet)) => facet,
        Err(Off::NotPositive { x }) => return Err(LocateError::NotPositive { x }),
        Err(Off::Heavy { weight }) => return Err(LocateError::Stopped {
            crossed,
            why: WalkStop::Heavy { weight },
        }),
        Err(Off::OnWall { facet }) => return Err(LocateError::OnWall { facet }),
        Err(Off::Memory) => return Err(LocateError::Memory),
    };
    if crossed >= steps {
        return Err(LocateError::Stopped {
            crossed,
            why: WalkStop::Steps,
        });
    }
    match flip(alloc, t, &facet) {
        Ok(across) => Ok(Some(across)),
        Err(FlipError::Wide { class: _, span }) => Err(LocateError::Stopped {
            crossed,
            why: WalkStop::Wide { span },
        }),
        Err(FlipError::Memory) => Err(LocateError::Memory),
    }
}

/// The walk to the triangulation of a form, in dimension 2 to 6, of at most `steps` crossings. It begins at the principal triangulation.
/// At each triangulation the first that applies decides: some edge has a value that isn't positive; the weight is at least 2^112; no
/// facet is negative at the form and some is 0 there; each facet is positive there, and this is the triangulation of the form; the
/// steps are used up; the span of the triangulation across the first negative facet is above the limit. Otherwise the walk goes on
/// across that facet. The numbers of the form are at most 2^40 in absolute value.
pub fn locate(alloc: Global, q: &Form, steps: u32) -> Result<Located, LocateError>
    requires { All (IsWithin (2 ^ 40)) q.now }
    ensures located { IfOk result (λ l. (d : ℕ) → length q.now ≡ numbers_of_form d
        → EndsWith d q.now steps l.crossed l.triangulation inside) }
    ensures delaunay { IfOk result (λ l. (d : ℕ) → length q.now ≡ numbers_of_form d
        → IsDelaunay d q.now l.triangulation) }
    ensures refused { IfErr result (λ e. (d : ℕ) → length q.now ≡ numbers_of_form d → IsRefusal d q.now steps e) }
{
    let mut t = principal(alloc, q.dimension())?;
    for crossed in 0..steps {
        match next(alloc, &t, q, crossed, steps)? {
            Some(across) => t = across,
            None => {
                return Ok(Located {
                    triangulation: t,
                    crossed,
                });
            }
        }
    }
    match next(alloc, &t, q, steps, steps)? {
        Some(_) => unreachable!(),
        None => Ok(Located {
            triangulation: t,
            crossed: steps,
        }),
    }
}
