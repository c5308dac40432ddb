//! The cone of a triangulation.

ghost use Rattle.std.specs.Prelude.{IfOk, IfErr};
ghost use Rattle.lt_model.specs.Cones.{IsRightCone};
ghost use Rattle.lt_triang.specs.Kept.{dimension_of, IsOfSomeForm};
ghost use Rattle.lt_cone.specs.Errors.{IsHeavyCone};

use crate::error::ConeError;
use lt_lp::{Cone, LpError, cone_of};
use lt_regulator::regulators;
use lt_triang::Triangulation;
use std::alloc::Global;

/// The right cone of the Delaunay triangulation of some form: its regulators in ascending order with a certificate each, and the
/// primitive form of the sum of the wall forms. Heavy exactly where the weight of the regulators is at least 2^112.
pub fn cone(alloc: Global, t: &Triangulation) -> Result<Cone, ConeError>
    requires { IsOfSomeForm t.now }
    ensures right { IfOk result (λ c. IsRightCone (dimension_of t.now) t.now c) }
    ensures heavy { IfErr result (λ e. IsHeavyCone (dimension_of t.now) t.now e) }
{
    let d = t.dimension();
    let normals = match regulators(alloc, t) {
        Ok(normals) => normals,
        Err(_) => return Err(ConeError::Memory),
    };
    match cone_of(alloc, d, normals.as_slice()) {
        Ok(cone) => Ok(cone),
        Err(LpError::Heavy { weight }) => Err(ConeError::Heavy { weight }),
        Err(LpError::Memory) => Err(ConeError::Memory),
    }
}
