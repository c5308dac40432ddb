//! The image of a triangulation under a unimodular matrix.

ghost use Rattle.std.specs.Prelude.{◌≡◌, ◌<◌, ◌≤◌, ◌*◌, ◌^◌, ℕ, ℤ, pos, List, [], length, map, get_or, IfOk};
ghost use Rattle.lt_model.specs.Flat.{rows};
ghost use Rattle.lt_model.specs.Limits.{greatest};
ghost use Rattle.lt_model.specs.Limits as limits;
ghost use Rattle.lt_model.specs.Matrices as matrix;
ghost use Rattle.lt_model.specs.Matrices.{IsInverse, Carries};
ghost use Rattle.lt_model.specs.Simplices.{IsClass, IsClassOf};
ghost use Rattle.lt_triang.specs.Kept.{IsTriangulation, dimension_of};
ghost use Rattle.lt_match.specs.Wide.{told_span, IsWideImage, AreImages};
ghost use Rattle.lt_match.specs.declared.transforms.ImageError.TheVariants.{Wide};

use crate::images::images;
use lt_lattice::{Matrix, Point};
use lt_model::Memory;
use lt_triang::{Class, TriangError, Triangulation, span_limit, span_of};
use std::alloc::Global;

/// The greatest span that is told of an image: 2^20.
const GREATEST: u32 = 1 << 20;

/// Why no image is answered.
#[derive(Debug, Drop)]
pub enum ImageError {
    /// The span of the image is above the limit.
    Wide {
        /// That span, or 2^20 where it is more.
        span: i64,
    },
    /// Memory was refused.
    Memory,
}

/// The span of the images of a class's vertices, or 2^20 where it is more.
fn image_span(d: usize, u: &Matrix, s: &[Point]) -> u32
    requires square { length u.now ≡ d * d }
    requires few { d ≤ 6 }
    requires class { IsClass d s.now }
    ensures { result ≡ told_span (rows d u.now) s.now }
{
    match images(d, u, s) {
        Some(points) => span_of(d, points.as_slice()).min(GREATEST),
        None => GREATEST,
    }
}

/// The greatest of these spans.
fn widest_image(d: usize, u: &Matrix, t: &Triangulation) -> u32
    requires square { length u.now ≡ d * d }
    requires origin { IsTriangulation d t.now }
    ensures { result ≡ greatest (map (told_span (rows d u.now)) t.now) }
{
    let mut widest: u32 = 0;
    for n in 0..t.len() {
        widest = widest.max(image_span(d, u, t.class(n).vertices()));
    }
    widest
}

/// The class of the images of a class's vertices.
fn image_class(d: usize, u: &Matrix, s: &[Point]) -> Class
    requires low { 2 ≤ d }
    requires few { d ≤ 6 }
    requires square { length u.now ≡ d * d }
    requires inverse { (v : List (List ℤ)) × IsInverse d (rows d u.now) v }
    requires class { IsClass d s.now }
    requires near { told_span (rows d u.now) s.now ≤ limits.span_limit d }
    ensures { IsClassOf d (map (matrix.apply (rows d u.now)) s.now) result }
{
    match images(d, u, s) {
        Some(points) => match Class::of(points.as_slice()) {
            Ok((class, _)) => class,
            Err(_) => unreachable!(),
        },
        None => unreachable!(),
    }
}

/// The classes of the images of the members, in the order of the members.
fn image_classes(
    alloc: Global,
    d: usize,
    u: &Matrix,
    t: &Triangulation,
) -> Result<Vec<Class>, Memory>
    requires square { length u.now ≡ d * d }
    requires inverse { (v : List (List ℤ)) × IsInverse d (rows d u.now) v }
    requires origin { IsTriangulation d t.now }
    requires near { greatest (map (told_span (rows d u.now)) t.now) ≤ limits.span_limit d }
    ensures { IfOk result (λ classes. AreImages d (rows d u.now) t.now classes.items) }
{
    let mut classes = Vec::new(alloc);
    for n in 0..t.len() {
        classes.push(image_class(d, u, t.class(n).vertices()))?;
    }
    Ok(classes)
}

/// The image of the triangulation under a matrix with a whole inverse: its classes are those of the images. Wide where its span is above
/// the limit.
pub fn image(alloc: Global, u: &Matrix, t: &Triangulation) -> Result<Triangulation, ImageError>
    requires square { length u.now ≡ dimension_of t.now * dimension_of t.now }
    requires inverse { (v : List (List ℤ)) × IsInverse (dimension_of t.now) (rows (dimension_of t.now) u.now) v }
    ensures made { IfOk result (λ r. Carries (dimension_of t.now) (rows (dimension_of t.now) u.now) t.now r) }
    ensures wide { (span : ℤ) → result ≡ Err (Wide span) →
        IsWideImage (dimension_of t.now) (rows (dimension_of t.now) u.now) t.now span }
{
    let d = t.dimension() as usize;
    let span = i64::from(widest_image(d, u, t));
    if span > span_limit(d as u8) {
        return Err(ImageError::Wide { span });
    }
    let classes = match image_classes(alloc, d, u, t) {
        Ok(classes) => classes,
        Err(_) => return Err(ImageError::Memory),
    };
    match Triangulation::of(classes) {
        Ok(made) => Ok(made),
        Err(TriangError::Memory) => Err(ImageError::Memory),
        Err(TriangError::OpenFacet { class: _, facet: _ }) => unreachable!(),
    }
}
