//! Triangulations: classes that are closed under facets.

ghost use Rattle.std.specs.Prelude.{◌≡◌, ◌<◌, ◌-◌, ◌*◌, ◌^◌, ◌∷◌, suc, ℕ, ℤ, pos, List, [], length, get_or, IfOk, ◌↔◌};
ghost use Rattle.std.specs.List.{All, Contains};
ghost use Rattle.std.specs.List.Sorted.{IsStrictlySortedBy};
ghost use Rattle.lt_model.specs.Limits.{span, span_limit};
ghost use Rattle.lt_model.specs.Order.{simplex_cmp};
ghost use Rattle.lt_model.specs.Simplices.{IsClass, IsExpression};
ghost use Rattle.lt_model.specs.Cones.{AreBelow};
ghost use Rattle.lt_model.specs.Vectors.{IsPrimitive};
ghost use Rattle.lt_triang.specs.Indexed.{IsKept};
ghost use Rattle.lt_triang.specs.Walled.{IsWall};
ghost use Rattle.lt_triang.specs.Across.{HasOneAcross, IsFirstAcross, IsOpenAnswer, IsOuterVertex, AreOuterNumbers};
ghost use Rattle.lt_triang.specs.Kept.{IsTriangulation, AreClasses, dimension_of};
ghost use Rattle.lt_lattice.specs.Ranges.{IsWithin};
ghost use Rattle.lt_triang.specs.declared.errors.TriangError.TheVariants.{OpenFacet};

use crate::carrying::rows_from;
use crate::classes::Class;
use crate::errors::TriangError;
use crate::neighbours::{Across, Neighbour, Outer, member, shift_of, vertex_moved};
use crate::rows::{Row, rows_copy, rows_of};
use crate::spans::span_of;
use crate::walls::Wall;
use arrayvec::ArrayVec;
use lt_lattice::Point;
use lt_model::Memory;
use std::alloc::Global;
use std::cmp::Ordering;
use std::marker::Model;

/// The classes of a triangulation in ascending order: at least one, each with a span within the limit, and each facet of each lies in
/// a member on the other side.
#[derive(Drop)]
pub struct Triangulation {
    classes: Vec<Class>,
    rows: Vec<Row>,
}

impl Model for Triangulation {
    ghost use Rattle.std.specs.Prelude.{List, ℤ, ℕ, length};
    ghost use Rattle.lt_triang.specs.Kept.{IsTriangulation};
    ghost use Rattle.lt_triang.specs.Walled.{AreRows};

    ghost Value = { List (List (List ℤ)) };

    ghost view = { λ t. t.classes.items };

    ghost invariant = { λ t. (d : ℕ) × IsTriangulation d t.classes.items × AreRows d t.classes.items (length t.classes.items) t.rows.items };
}

/// The classes in ascending order, each once.
pub fn sorted_distinct(given: Vec<Class>) -> Vec<Class>
    ensures ascending { IsStrictlySortedBy simplex_cmp result.items }
    ensures members { (s : List (List ℤ)) → Contains result.items s ↔ Contains given.items s }
{
    let mut classes = given;
    classes.sort_unstable();
    classes.dedup();
    classes.shrink_to_fit();
    classes
}

/// The number of coordinates of the classes.
fn dimension_of(classes: &[Class]) -> usize
    requires { 0 < length classes.now }
    ensures { IsClass result (get_or classes.now 0 []) }
{
    classes[0].dimension() as usize
}

/// Copies of the classes.
fn classes_copy(alloc: Global, given: &[Class]) -> Result<Vec<Class>, Memory>
    ensures { IfOk result (λ classes. classes.items ≡ given.now) }
{
    let mut classes = match Vec::with_capacity(alloc, given.len()) {
        Ok(classes) => classes,
        Err(_) => return Err(Memory),
    };
    for class in given {
        classes.push(class.copy())?;
    }
    Ok(classes)
}

/// The greatest span of a class.
fn widest_of(d: usize, classes: &[Class]) -> u32
    requires { AreClasses d classes.now }
    ensures { result ≡ span classes.now }
{
    let mut widest: u32 = 0;
    for n in 0..classes.len() {
        widest = widest.max(span_of(d, member(classes, n)));
    }
    widest
}

impl Triangulation {
    /// The triangulation of these classes, of which there is one at least, each with a span within the limit: sorts them and keeps
    /// equal ones once. OpenFacet where a facet lies in no member on the other side: the first such.
    pub fn of(classes: Vec<Class>) -> Result<Triangulation, TriangError>
        requires occupied { 0 < length classes.items }
        requires classes { AreClasses (length (get_or classes.items 0 []) - 1) classes.items }
        ensures made { IfOk result (λ t. (s : List (List ℤ)) → Contains t s ↔ Contains classes.items s) }
        ensures open { (class facet : ℕ) → result ≡ Err (OpenFacet class facet) →
            IsOpenAnswer (length (get_or classes.items 0 []) - 1) classes.items class facet }
    {
        let d = dimension_of(classes.as_slice());
        let distinct = sorted_distinct(classes);
        let alloc = *distinct.allocator();
        let rows = rows_of(alloc, d, distinct.as_slice())?;
        Ok(Triangulation {
            classes: distinct,
            rows,
        })
    }

    /// The triangulation of classes that ascend and are known to be closed under facets.
    pub fn of_closed(classes: Vec<Class>) -> Result<Triangulation, Memory>
        requires { (d : ℕ) × IsTriangulation d classes.items }
        ensures { IfOk result (λ t. t ≡ classes.items) }
    {
        let d = dimension_of(classes.as_slice());
        let alloc = *classes.allocator();
        match rows_of(alloc, d, classes.as_slice()) {
            Ok(rows) => Ok(Triangulation { classes, rows }),
            Err(TriangError::Memory) => Err(Memory),
            Err(TriangError::OpenFacet { class: _, facet: _ }) => unreachable!(),
        }
    }

    /// The triangulation of classes that ascend and are known to be closed under facets, with one member at most across each. Walls between
    /// classes that stand here too are taken over.
    pub fn carried(&self, classes: Vec<Class>) -> Result<Triangulation, Memory>
        requires triangulation { IsTriangulation (dimension_of self.now) classes.items }
        requires one { HasOneAcross (dimension_of self.now) classes.items }
        ensures { IfOk result (λ t. t ≡ classes.items) }
    {
        let d = usize::from(self.dimension());
        let alloc = *classes.allocator();
        let rows = rows_from(alloc, d, classes.as_slice(), &self.classes, &self.rows)?;
        Ok(Triangulation { classes, rows })
    }

    /// The number of coordinates of a vertex.
    pub fn dimension(&self) -> u8
        ensures { IsTriangulation result self.now }
    {
        self.classes[0].dimension()
    }

    /// The number of classes.
    pub fn len(&self) -> usize
        ensures { result ≡ length self.now }
    {
        self.classes.len()
    }

    /// The class at place `i`, counted from 0, in ascending order.
    pub fn class(&self, i: usize) -> &Class
        requires { i < length self.now }
        ensures { result.now ≡ get_or self.now i [] }
    {
        &self.classes[i]
    }

    /// The classes, in ascending order.
    pub fn classes(&self) -> &[Class]
        ensures { result.now ≡ self.now }
    {
        &self.classes
    }

    /// The greatest span of a class.
    pub fn span(&self) -> i64
        ensures { result ≡ pos (span self.now) }
    {
        let d = self.dimension() as usize;
        i64::from(widest_of(d, self.classes.as_slice()))
    }

    /// The neighbour at facet `facet` of the class at place `class`, as it is kept.
    fn wall(&self, class: usize, facet: usize) -> &Wall
        requires class { class < length self.now }
        requires facet { facet < length (get_or self.now class []) }
        ensures { IsWall (length (get_or self.now class []) - 1) self.now (get_or self.now class []) facet result.now }
    {
        self.rows[class].at(facet)
    }

    /// The first member, in the order of classes and vertices, that lies across facet `facet` of the class at place `class`.
    pub fn neighbour(&self, class: usize, facet: usize) -> Neighbour
        requires class { class < length self.now }
        requires facet { facet < length (get_or self.now class []) }
        ensures { IsFirstAcross (length (get_or self.now class []) - 1) self.now
            (get_or self.now class []) facet result.class result.shift result.vertex }
    {
        let d = usize::from(self.dimension());
        let wall = self.wall(class, facet);
        let next = wall.class as usize;
        let vertex = usize::from(wall.vertex);
        let classes = self.classes.as_slice();
        Neighbour {
            class: next,
            shift: shift_of(
                d,
                member(classes, class),
                facet,
                member(classes, next),
                vertex,
            ),
            vertex,
        }
    }

    /// The neighbour with its vertex outside.
    fn across(&self, class: usize, facet: usize) -> Across
        requires class { class < length self.now }
        requires facet { facet < length (get_or self.now class []) }
        ensures { IsKept (length (get_or self.now class []) - 1) self.now (get_or self.now class []) facet result }
    {
        let _dimension = self.dimension();
        let neighbour = self.neighbour(class, facet);
        let next = member(self.classes.as_slice(), neighbour.class);
        let vertex = vertex_moved(next, neighbour.vertex, &neighbour.shift);
        let expression = match self.wall(class, facet).expression() {
            Some(expression) => expression,
            None => self.class(class).expression(&vertex),
        };
        Across {
            neighbour,
            outer: Outer { vertex, expression },
        }
    }

    /// The vertex of the neighbour at facet `facet` of the class at place `class` that lies outside the class, and its expression over
    /// the class in lowest terms.
    pub fn outer(&self, class: usize, facet: usize) -> Outer
        requires class { class < length self.now }
        requires facet { facet < length (get_or self.now class []) }
        ensures vertex { IsOuterVertex (dimension_of self.now) self.now (get_or self.now class []) facet result.vertex }
        ensures dimension { length result.vertex ≡ dimension_of self.now }
        ensures near { All (IsWithin (2 * span_limit (dimension_of self.now))) result.vertex }
        ensures expression { IsExpression
            (get_or self.now class []) result.vertex result.expression.scale result.expression.coefficients }
        ensures primitive { IsPrimitive (result.expression.scale ∷ result.expression.coefficients) }
        ensures below { AreBelow (2 ^ 59) (result.expression.scale ∷ result.expression.coefficients) }
    {
        let _dimension = self.dimension();
        self.across(class, facet).outer
    }

    /// The numbers of the expression of that vertex over the class in lowest terms: the scale, then the coefficients. It is faster than
    /// `outer`, since the vertex is made only where the numbers aren't kept.
    pub fn outer_numbers(&self, class: usize, facet: usize) -> ArrayVec<i64, 8>
        requires class { class < length self.now }
        requires facet { facet < length (get_or self.now class []) }
        ensures { AreOuterNumbers (dimension_of self.now) self.now (get_or self.now class []) facet result.items }
    {
        let _dimension = self.dimension();
        let numbers = self.wall(class, facet).widened();
        if numbers.is_empty() {
            return self.outer(class, facet).expression.numbers();
        }
        numbers
    }

    /// The vertex of the neighbour at facet `facet` of the class at place `class` that lies outside the class.
    pub fn outer_vertex(&self, class: usize, facet: usize) -> Point
        requires class { class < length self.now }
        requires facet { facet < length (get_or self.now class []) }
        ensures vertex { IsOuterVertex (dimension_of self.now) self.now (get_or self.now class []) facet result }
        ensures dimension { length result ≡ dimension_of self.now }
        ensures near { All (IsWithin (2 * span_limit (dimension_of self.now))) result }
    {
        let _dimension = self.dimension();
        let neighbour = self.neighbour(class, facet);
        let next = member(self.classes.as_slice(), neighbour.class);
        vertex_moved(next, neighbour.vertex, &neighbour.shift)
    }

    /// A copy, or Memory where memory was refused.
    pub fn try_copy(&self) -> Result<Triangulation, Memory>
        ensures { IfOk result (λ t. t ≡ self.now) }
    {
        let alloc = *self.classes.allocator();
        let classes = classes_copy(alloc, &self.classes)?;
        let rows = rows_copy(alloc, &self.rows)?;
        Ok(Triangulation { classes, rows })
    }
}

impl PartialEq for Triangulation {
    ghost use Rattle.std.specs.Cmp.Lexicographic.{pointwise};
    ghost use Rattle.std.specs.Ordering.{int_eq};
    ghost use Rattle.std.specs.Cmp.Rules.{comparing};
    ghost use Rattle.std.specs.Prelude.{◌≡◌, ◌↔◌, IsTrue};
    ghost use Rattle.std.proofs.Common.{rules};

    ghost eq = { pointwise (pointwise (pointwise int_eq)) };

    ghost laws = { Prim.search (comparing, rules) };

    /// Whether the classes are the same.
    fn eq(&self, other: &Triangulation) -> bool
        ensures value { result ≡ pointwise (pointwise (pointwise int_eq)) self.now other.now }
        ensures same { IsTrue result ↔ (self.now ≡ other.now) }
    {
        self.classes.as_slice() == other.classes.as_slice()
    }
}

impl Eq for Triangulation {
    ghost use Rattle.std.specs.Cmp.Rules.{comparing};
    ghost use Rattle.std.proofs.Common.{rules};

    ghost laws = { Prim.search (comparing, rules) };
}

impl PartialOrd for Triangulation {
    ghost use Rattle.std.specs.declared.option.Option.TheVariants.{Some};
    ghost use Rattle.std.specs.Cmp.Lexicographic.{slice_cmp, lists_total, lists_ties};
    ghost use Rattle.std.specs.Cmp.{po, int_cmp_total};
    ghost use Rattle.std.specs.Ordering.{int_cmp};
    ghost use Rattle.std.proofs.Common.{refl};
    ghost use Rattle.lt_model.specs.Order.{triangulation_cmp};

    ghost partial_cmp = { λ t u. Some (triangulation_cmp t u) };

    ghost laws = { po (lists_total (lists_total (lists_total int_cmp_total))) (lists_ties (slice_cmp (slice_cmp int_cmp)) (lists_ties (slice_cmp int_cmp) (lists_ties int_cmp (λ x y. refl)))) };

    fn partial_cmp(&self, other: &Triangulation) -> Option<Ordering> {
        Some(self.cmp(other))
    }
}

impl Ord for Triangulation {
    ghost use Rattle.std.specs.Cmp.Lexicographic.{slice_cmp, lists_total, lists_ties};
    ghost use Rattle.std.specs.Cmp.{int_cmp_total};
    ghost use Rattle.std.specs.Ordering.{int_cmp};
    ghost use Rattle.std.proofs.Common.{refl};
    ghost use Rattle.lt_model.specs.Order.{triangulation_cmp};

    ghost cmp = { triangulation_cmp };

    ghost total = { lists_total (lists_total (lists_total int_cmp_total)) };

    ghost matches_partial_cmp = { λ x y. refl };

    ghost matches_eq = { lists_ties (slice_cmp (slice_cmp int_cmp)) (lists_ties (slice_cmp int_cmp) (lists_ties int_cmp (λ x y. refl))) };

    /// The order of the lists of classes.
    fn cmp(&self, other: &Triangulation) -> Ordering
        ensures { result ≡ triangulation_cmp self.now other.now }
    {
        self.classes.as_slice().cmp(other.classes.as_slice())
    }
}
