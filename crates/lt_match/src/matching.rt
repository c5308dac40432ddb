//! The first matrix that carries one triangulation onto another.

ghost use Rattle.std.specs.Prelude.{◌≡◌, ◌<◌, ◌≤◌, ◌*◌, ◌++◌, ◌∷◌, ◌≢◌, ◌⊎◌, false, suc, ℕ, ℤ, List, [], length, get_or, IsTrue, IsOk, IfOk, IfSome, MatchOption, ◌↔◌};
ghost use Rattle.std.specs.List.{Contains, All};
ghost use Rattle.lt_model.specs.Flat.{rows};
ghost use Rattle.lt_model.specs.Limits.{span_limit};
ghost use Rattle.lt_model.specs.Matrices.{Carries, AreEquivalent};
ghost use Rattle.lt_model.specs.Principal.{IsOrder};
ghost use Rattle.lt_model.specs.Simplices.{IsClass};
ghost use Rattle.lt_geometry.specs.Carrying.{IsCandidate};
ghost use Rattle.lt_geometry.proofs.Rearranged.{IsDistinct};
ghost use Rattle.lt_triang.specs.Bounds.{AreNear};
ghost use Rattle.lt_triang.specs.Kept.{IsTriangulation, dimension_of, IsOfSomeForm};
ghost use Rattle.lt_colour.specs.Signatures.{IsClassSignature};
ghost use Rattle.lt_match.specs.Bases.{IsBasis};
ghost use Rattle.lt_match.specs.Beyond.{AreFacetSignatures};
ghost use Rattle.lt_match.specs.Matches.{in_order, BeginsWith, HasNoMatch, IsMatch, IsFirstOrder, IsFirstMatch, AreSigned, IsBeginning};

use crate::bases::{Basis, basis_of, matrix_taking};
use crate::carrying::{all_go, comes_back};
use crate::facets::{FacetSignature, facet_signatures};
use arrayvec::ArrayVec;
use lt_colour::short_class_signature;
use lt_lattice::{Matrix, Point};
use lt_model::Memory;
use lt_triang::Triangulation;
use std::alloc::Global;

/// The vertices in the order, less the first in that order.
fn targets(d: usize, s: &[Point], order: &[usize]) -> ArrayVec<Point, 7>
    requires few { d ≤ 6 }
    requires class { IsClass d s.now }
    requires near { AreNear (span_limit d) s.now }
    requires order { IsOrder (suc d) order.now }
    ensures { result.items ≡ in_order s.now order.now }
{
    let mut all: ArrayVec<Point, 7> = ArrayVec::new();
    for k in order {
        match s[*k].minus(&s[order[0]]) {
            Some(target) => all.push(target),
            None => unreachable!(),
        }
    }
    all
}

/// The candidate of an order of the vertices of a member of `to`, where it carries.
fn attempt(
    d: usize,
    basis: &Basis,
    from: &Triangulation,
    to: &Triangulation,
    s: &[Point],
    order: &[usize],
) -> Option<Matrix>
    requires origin { IsTriangulation d from.now }
    requires target { IsTriangulation d to.now }
    requires count { length from.now ≡ length to.now }
    requires basis { IsBasis d (get_or from.now 0 []) basis.now.scales.items basis.now.terms.items }
    requires member { Contains to.now s.now }
    requires order { IsOrder (suc d) order.now }
    ensures { MatchOption result (HasNoMatch d from.now to.now s.now order.now) (λ u. (length u ≡ d * d) ×
        IsMatch d from.now to.now s.now order.now (rows d u)) }
{
    let targets = targets(d, s, order);
    let u = match matrix_taking(d, basis, targets.as_slice()) {
        Some(u) => u,
        None => return None,
    };
    if !all_go(d, &u, from.classes(), 1, to) {
        return None;
    }
    if !comes_back(d, from.class(0).vertices(), targets.as_slice()) {
        return None;
    }
    Some(u)
}

/// Whether the number stands among the others.
fn stands_among(chosen: &[usize], k: usize) -> bool
    ensures { IsTrue result ↔ Contains chosen.now k }
{
    for other in chosen {
        if *other == k {
            return true;
        }
    }
    false
}

/// The numbers with one more after them.
fn with_last(chosen: &[usize], k: usize) -> ArrayVec<usize, 7>
    requires { length chosen.now < 7 }
    ensures { result.items ≡ chosen.now ++ k ∷ [] }
{
    let mut all: ArrayVec<usize, 7> = ArrayVec::new();
    for other in chosen {
        all.push(*other);
    }
    all.push(k);
    all
}

/// Whether vertex `k` of a member may come behind those chosen: it isn't among them, and the facet opposite to it has the signature of the
/// facet opposite to the vertex that goes to it.
fn may_follow(chosen: &[usize], k: usize, own: &[FacetSignature], facets: &[FacetSignature]) -> bool
    requires next { length chosen.now < length own.now }
    requires vertex { k < length facets.now }
    ensures yes { IsTrue result → Contains chosen.now k → ⊥ }
    ensures no { result ≡ false → Contains chosen.now k ⊎
        (get_or own.now (length chosen.now) [] ≢ get_or facets.now k []) }
{
    !stands_among(chosen, k) && own[chosen.len()] == facets[k]
}

/// The match of the first order that begins with the numbers and has one, where orders are compared number by number. Orders that take a
/// vertex to one whose facet has another signature are passed over. The orders are gone through in place: a list of each would take memory
/// for every candidate.
fn search(
    d: usize,
    basis: &Basis,
    from: &Triangulation,
    to: &Triangulation,
    s: &[Point],
    own: &[FacetSignature],
    facets: &[FacetSignature],
    chosen: &[usize],
) -> Option<Matrix>
    requires origin { IsTriangulation d from.now }
    requires target { IsTriangulation d to.now }
    requires count { length from.now ≡ length to.now }
    requires basis { IsBasis d (get_or from.now 0 []) basis.now.scales.items basis.now.terms.items }
    requires member { Contains to.now s.now }
    requires signed { AreSigned d from.now to.now s.now own.now facets.now }
    requires chosen { IsBeginning (suc d) chosen.now }
    ensures { MatchOption result ((p : List ℕ) → BeginsWith chosen.now p →
        HasNoMatch d from.now to.now s.now p) (λ u. (length u ≡ d * d) ×
        IsFirstOrder d from.now to.now s.now chosen.now (rows d u)) }
{
    if chosen.len() > d {
        return attempt(d, basis, from, to, s, chosen);
    }
    for k in 0..d + 1 {
        if may_follow(chosen, k, own, facets) {
            let longer = with_last(chosen, k);
            match search(d, basis, from, to, s, own, facets, longer.as_slice()) {
                Some(u) => return Some(u),
                None => {}
            }
        }
    }
    None
}

/// The match of the first order that has one, where the first class of `from` goes to the member of `to` at place `n`. `own` is the signature of
/// that class, and `first` are those of its facets: a member with another signature has no match, and is passed over.
fn match_at(
    d: usize,
    basis: &Basis,
    from: &Triangulation,
    to: &Triangulation,
    own: &[i64],
    first: &[FacetSignature],
    n: usize,
) -> Option<Matrix>
    requires origin { IsTriangulation d from.now }
    requires target { IsTriangulation d to.now }
    requires delaunay { IsOfSomeForm from.now }
    requires delaunay_too { IsOfSomeForm to.now }
    requires count { length from.now ≡ length to.now }
    requires basis { IsBasis d (get_or from.now 0 []) basis.now.scales.items basis.now.terms.items }
    requires signature { IsClassSignature (dimension_of from.now) from.now (get_or from.now 0 []) own.now }
    requires facets { AreFacetSignatures (dimension_of from.now) from.now (get_or from.now 0 []) first.now }
    requires place { n < length to.now }
    ensures { MatchOption result ((q : List ℕ) → HasNoMatch d from.now to.now (get_or to.now n []) q)
        (λ u. (length u ≡ d * d) × IsFirstOrder d from.now to.now (get_or to.now n []) [] (rows d u)) }
{
    let signature = short_class_signature(to, n);
    if signature.as_slice() != own {
        return None;
    }
    let facets = facet_signatures(to, n);
    let s = to.class(n).vertices();
    search(d, basis, from, to, s, first, facets.as_slice(), &[])
}

/// The first match: the members of `to` are gone through in their order.
fn first_match(d: usize, from: &Triangulation, to: &Triangulation) -> Option<Matrix>
    requires origin { IsTriangulation d from.now }
    requires target { IsTriangulation d to.now }
    requires delaunay { IsOfSomeForm from.now }
    requires delaunay_too { IsOfSomeForm to.now }
    requires count { length from.now ≡ length to.now }
    ensures { MatchOption result ((n : ℕ) → n < length to.now → (q : List ℕ) →
        HasNoMatch d from.now to.now (get_or to.now n []) q) (λ u. (length u ≡ d * d) ×
        IsFirstMatch d from.now to.now (rows d u)) }
{
    let basis = basis_of(d, from.class(0).vertices());
    let own = short_class_signature(from, 0);
    let first = facet_signatures(from, 0);
    for n in 0..to.len() {
        match match_at(d, &basis, from, to, own.as_slice(), first.as_slice(), n) {
            Some(u) => return Some(u),
            None => {}
        }
    }
    None
}

/// The first matrix that carries `from` onto `to`, or None where none does. The matrices are ordered by the member of `to` to which the
/// first class of `from` goes, and then by the order in which its vertices go to that member's, lexicographically. Both triangulations
/// are Delaunay triangulations of some form. It takes no memory, so it always answers.
pub fn match_types(
    alloc: Global,
    from: &Triangulation,
    to: &Triangulation,
) -> Result<Option<Matrix>, Memory>
    requires same { dimension_of to.now ≡ dimension_of from.now }
    requires delaunay { IsOfSomeForm from.now }
    requires delaunay_too { IsOfSomeForm to.now }
    ensures answers { IsOk result }
    ensures size { IfOk result (λ r. IfSome r (λ u. length u ≡ dimension_of from.now * dimension_of from.now)) }
    ensures first { IfOk result (λ r. MatchOption r (AreEquivalent (dimension_of from.now) from.now to.now →
        ⊥) (λ u. IsFirstMatch (dimension_of from.now) from.now to.now (rows (dimension_of from.now) u))) }
{
    let d = from.dimension() as usize;
    let _same = to.dimension();
    if from.len() != to.len() {
        return Ok(None);
    }
    Ok(first_match(d, from, to))
}
