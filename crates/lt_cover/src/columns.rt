//! The linear system whose solution is the circumcentre of a class, over its edge vectors.

ghost use Rattle.std.specs.Prelude.{◌≡◌, ◌<◌, ◌≤◌, ◌+◌, ◌-◌, ◌^◌, ◌++◌, ◌≤ℤ◌, pos, length, get_or, map, drop, []};
ghost use Rattle.std.specs.List.{All};
ghost use Rattle.lt_model.specs.Vectors.{minus};
ghost use Rattle.lt_model.specs.Flat.{flat};
ghost use Rattle.lt_model.specs.Forms.{numbers_of_form, polar};
ghost use Rattle.lt_model.specs.Forms as form;
ghost use Rattle.lt_lattice.specs.Ranges.{IsWithin};
ghost use Rattle.lt_cover.specs.Gram.{IsMeasured, gram};

use arrayvec::ArrayVec;
use lt_lattice::{Form, Point, value};
use lt_triang::Class;

/// The value of the form at the difference of the points.
fn gap(q: &Form, x: &Point, y: &Point) -> i64
    requires same { length x.now ≡ length y.now }
    requires form { length q.now ≡ numbers_of_form (length x.now) }
    requires within { All (IsWithin (2 ^ 40)) q.now }
    requires near { All (IsWithin (2 ^ 20)) (minus x.now y.now) }
    requires low { pos 0 ≤ℤ form.value q.now (minus x.now y.now) }
    requires high { form.value q.now (minus x.now y.now) ≤ℤ pos 400 }
    ensures { result ≡ form.value q.now (minus x.now y.now) }
{
    match x.minus(y) {
        Some(difference) => value(q, &difference) as i64,
        None => unreachable!(),
    }
}

/// The value of the form at the difference of two vertices.
fn between(q: &Form, class: &Class, i: usize, j: usize) -> i64
    requires measured { IsMeasured (length class.now - 1) q.now class.now }
    requires i { i < length class.now }
    requires j { j < length class.now }
    ensures value { result ≡ form.value q.now (minus (get_or class.now i []) (get_or class.now j [])) }
    ensures low { pos 0 ≤ℤ result }
    ensures high { result ≤ℤ pos 400 }
{
    gap(q, class.vertex(i), class.vertex(j))
}

/// The value of the form at a vertex; the first vertex is 0.
fn own(q: &Form, class: &Class, i: usize) -> i64
    requires measured { IsMeasured (length class.now - 1) q.now class.now }
    requires i { i < length class.now }
    ensures { result ≡ form.value q.now (get_or class.now i []) }
{
    let _dimension = class.dimension();
    between(q, class, i, 0)
}

/// Twice the inner product of two vertices, of which the first of the class is 0: Q[x] + Q[y] - Q[x - y].
fn product(q: &Form, class: &Class, i: usize, j: usize) -> i64
    requires measured { IsMeasured (length class.now - 1) q.now class.now }
    requires i { i < length class.now }
    requires j { j < length class.now }
    ensures { result ≡ polar q.now (get_or class.now i []) (get_or class.now j []) }
{
    let _dimension = class.dimension();
    between(q, class, i, 0) + between(q, class, j, 0) - between(q, class, i, j)
}

/// Appends the products of the vertices but the first with the vertex at place `j`.
fn push_column(all: &mut ArrayVec<i64, 36>, q: &Form, class: &Class, j: usize)
    requires measured { IsMeasured (length class.now - 1) q.now class.now }
    requires j { j < length class.now }
    requires room { length all.old.items + length class.now ≤ 37 }
    ensures { all.new.items ≡ all.old.items ++ map (λ v. polar q.now v (get_or class.now j [])) (drop 1 class.now) }
{
    for i in 1..class.vertices().len() {
        all.push(product(q, class, i, j));
    }
}

/// The products of the vertices but the first with one another, column after column.
pub fn products(q: &Form, class: &Class) -> ArrayVec<i64, 36>
    requires { IsMeasured (length class.now - 1) q.now class.now }
    ensures { result.items ≡ flat (gram q.now (drop 1 class.now)) }
{
    let mut all: ArrayVec<i64, 36> = ArrayVec::new();
    for j in 1..class.vertices().len() {
        push_column(&mut all, q, class, j);
    }
    all
}

/// The values of the form at the vertices but the first.
pub fn values(q: &Form, class: &Class) -> ArrayVec<i64, 6>
    requires { IsMeasured (length class.now - 1) q.now class.now }
    ensures { result.items ≡ map (form.value q.now) (drop 1 class.now) }
{
    let mut all: ArrayVec<i64, 6> = ArrayVec::new();
    for i in 1..class.vertices().len() {
        all.push(own(q, class, i));
    }
    all
}
