//! The atlas that a run starts from.

ghost use Rattle.std.specs.Prelude.{◌≤◌, IfOk};
ghost use Rattle.lt_model.specs.Cones.{IsRightCone};
ghost use Rattle.lt_model.specs.Principal.{IsPrincipal, principal_numbers};
ghost use Rattle.lt_model.specs.Triangulations.{IsDelaunay};
ghost use Rattle.lt_core.specs.Starts.{IsStarting, PrincipalTypesAreLight};

use crate::atlas::Atlas;
use crate::lists::opens_of;
use crate::marks::Entry;
use lt_lp::{Cone, LpError, cone_of};
use lt_model::Memory;
use lt_principal::principal;
use lt_regulator::regulators;
use lt_triang::Triangulation;
use std::alloc::Global;

/// The right cone of the principal triangulation.
fn principal_cone(alloc: Global, d: u8, t: &Triangulation) -> Result<Cone, Memory>
    requires low { 2 ≤ d }
    requires high { d ≤ 6 }
    requires principal { IsPrincipal d t.now }
    requires delaunay { IsDelaunay d (principal_numbers d) t.now }
    ensures { IfOk result (λ c. IsRightCone d t.now c) }
{
    let normals = regulators(alloc, t)?;
    match cone_of(alloc, d, normals.as_slice()) {
        Ok(cone) => Ok(cone),
        Err(LpError::Memory) => Err(Memory),
        // No principal type is heavy.
        Err(LpError::Heavy { .. }) => unreachable!(),
    }
}

impl Atlas {
    /// The atlas of dimension `d`, 2 to 6, that has the principal type alone, with every facet open.
    pub fn start(alloc: Global, d: u8) -> Result<Atlas, Memory>
        requires low { 2 ≤ d }
        requires high { d ≤ 6 }
        ensures { IfOk result (λ a. IsStarting d a) }
    {
        let triangulation = principal(alloc, d)?;
        let cone = principal_cone(alloc, d, &triangulation)?;
        let row = opens_of(alloc, cone.facets())?;
        let mut entries = Vec::new(alloc);
        entries.push(Entry {
            triangulation,
            cone,
            origin: None,
        })?;
        let mut marks = Vec::new(alloc);
        marks.push(row)?;
        Atlas::of(alloc, d, entries, marks)
    }
}

/// A law, with nothing to run: the weight of a principal type of dimension 2 to 6 is below 2^112, so an atlas can start with it.
pub fn principal_types_are_light()
    ensures { PrincipalTypesAreLight }
{}
