//! Images of facets under a matrix that carries a triangulation onto an entry.

ghost use Rattle.std.specs.Prelude.{◌≡◌, ◌<◌, ◌≤◌, ◌*◌, ◌^◌, [], length, get_or, map};
ghost use Rattle.std.specs.Int.{int_wrap, w128};
ghost use Rattle.std.specs.List.{All};
ghost use Rattle.lt_model.specs.Flat.{rows};
ghost use Rattle.lt_model.specs.Forms.{numbers_of_form};
ghost use Rattle.lt_model.specs.Matrices as matrices;
ghost use Rattle.lt_model.specs.Vectors.{dot};
ghost use Rattle.lt_lattice.specs.Ranges.{IsBelow};
ghost use Rattle.lt_geometry.proofs.Induced.{products, induced};
ghost use Rattle.lt_core.specs.Marks.{matrix_rows};
ghost use Rattle.lt_merge.specs.Images.{IsOnto, IsImage};

use arrayvec::ArrayVec;
use lt_core::Atlas;
use lt_lattice::{Matrix, Normal};

/// The sum of the products of equal places, modulo 2^128.
fn wrapped_product(a: &[i128], b: &[i128]) -> i128
    requires { length a.now ≡ length b.now }
    ensures { result ≡ int_wrap w128 (dot a.now b.now) }
{
    let mut sum: i128 = 0;
    for i in 0..a.len() {
        sum = sum.wrapping_add(a[i].wrapping_mul(b[i]));
    }
    sum
}

/// The numbers of the form that is the product of two linear functions.
fn product_numbers(r: &[i128], s: &[i128]) -> ArrayVec<i128, 21>
    requires few { length r.now ≤ 6 }
    requires same { length s.now ≡ length r.now }
    requires below { All (IsBelow (2 ^ 62)) r.now }
    requires below_too { All (IsBelow (2 ^ 62)) s.now }
    ensures { result.items ≡ products r.now s.now }
{
    let mut all: ArrayVec<i128, 21> = ArrayVec::new();
    for i in 0..r.len() {
        all.push(r[i] * s[i]);
        for j in i + 1..r.len() {
            all.push(r[i] * s[j] + s[i] * r[j]);
        }
    }
    all
}

/// Row `i` of a matrix of `d` rows.
fn row(numbers: &[i128], d: usize, i: usize) -> &[i128]
    requires few { d ≤ 6 }
    requires count { length numbers.now ≡ d * d }
    requires place { i < d }
    ensures { result.now ≡ get_or (rows d numbers.now) i [] }
{
    &numbers[i * d..i * d + d]
}

/// The number of the image of a normal under a matrix of `d` rows that stands at `x_i x_j`, modulo 2^128.
fn image_number(d: usize, u: &Matrix, normal: &Normal, i: usize, j: usize) -> i128
    requires few { d ≤ 6 }
    requires square { length u.now ≡ d * d }
    requires same { length normal.now ≡ numbers_of_form d }
    requires row { i < d }
    requires column { j < d }
    ensures { let v = rows d u.now in result ≡ int_wrap w128 (dot (products (get_or v i []) (get_or v j []))
        normal.now) }
{
    let numbers = u.numbers();
    let products = product_numbers(row(numbers, d, i), row(numbers, d, j));
    wrapped_product(products.as_slice(), normal.numbers())
}

/// The image of a normal under a matrix u of `d` rows: the `d (d + 1) / 2` numbers, modulo 2^128, of the normal that has at each form Q the
/// value of the given one at the form Q[u x].
fn image_of(d: usize, u: &Matrix, normal: &Normal) -> ArrayVec<i128, 21>
    requires few { d ≤ 6 }
    requires square { length u.now ≡ d * d }
    requires same { length normal.now ≡ numbers_of_form d }
    ensures { result.items ≡ map (int_wrap w128) (matrices.apply (induced (rows d u.now)) normal.now) }
{
    let mut all: ArrayVec<i128, 21> = ArrayVec::new();
    for i in 0..d {
        for j in i..d {
            all.push(image_number(d, u, normal, i, j));
        }
    }
    all
}

/// The facet of the entry with the number `place` that is the image of a facet, where the matrix carries the triangulation of that facet
/// onto the entry. The numbers of a facet are below 2^56, so it is known by them modulo 2^128.
pub fn image_facet(atlas: &Atlas, place: u32, u: &Matrix, facet: &Normal) -> u32
    requires { IsOnto atlas.now place (matrix_rows u.now) facet.now }
    ensures { IsImage atlas.now place (matrix_rows u.now) facet.now result }
{
    atlas.keeps();
    // It shows that the matrix is square.
    let _rows = u.dimension();
    let image = image_of(usize::from(atlas.dimension()), u, facet);
    let cone = &atlas.entry(place).cone;
    for k in 0..cone.facets() {
        if cone.facet(k).normal.numbers() == image.as_slice() {
            return k as u32;
        }
    }
    unreachable!()
}
