//! The pivot rule.

ghost use Rattle.std.specs.Prelude.{◌≡◌, ◌≢◌, ◌≤◌, ◌<◌, ◌-◌, ◌^◌, ℕ, suc, pos, ◌*ℤ◌, ◌<ℤ◌, ◌≤ℤ◌, [], length, get_or, true, false, IfSome, IfNone, IfOk, nat_abs, IsTrue};
ghost use Rattle.std.specs.List.{All};
ghost use Rattle.lt_model.specs.Limits.{weight, weight_limit};
ghost use Rattle.lt_tableau.specs.Table.{IsTableau, count_of, entry_of, units_of};
ghost use Rattle.lt_tableau.specs.System.{system_of};
ghost use Rattle.lt_tableau.specs.Errors.{AreOfDimension};
ghost use Rattle.lt_lp.specs.Rule.{objective_of, gain_of, number_of, IsBefore, IsLeaving, IsReady, IsStopped, IsEarlier};

use crate::sums::{first_unit, gain, objective, unit_sums};
use lt_lattice::Normal;
use lt_model::Memory;
use lt_tableau::Tableau;
use std::alloc::Global;

/// The first column whose reduced cost is negative, unless the objective is 0.
fn entering(t: &Tableau) -> Option<usize>
    ensures inside { IfSome result (λ column. column < units_of t.now) }
    ensures gains { IfSome result (λ column. pos 0 <ℤ gain_of t.now column) }
    ensures stopped { IfNone result (IsStopped t.now) }
{
    if objective(t) == 0 {
        return None;
    }
    let sums = unit_sums(t);
    for column in 0..first_unit(t) {
        if gain(t, &sums, column) > 0 {
            return Some(column);
        }
    }
    None
}

/// The number at the place of the list of the row: the right side, then the unit columns from the last to the first.
fn number(t: &Tableau, row: usize, place: usize) -> i128
    requires row_in { row < t.now.rows }
    requires place_in { place ≤ t.now.rows }
    ensures value { result ≡ number_of t.now row place }
    ensures small { nat_abs result < 2 ^ 56 }
{
    let rows = t.rows();
    if place == 0 {
        t.right(row)
    } else {
        t.unit(row, rows - place)
    }
}

/// The product of two numbers of a tableau. They fit into 64 bits, so that it takes one multiplication.
fn product(a: i128, b: i64) -> i128
    requires { nat_abs a < 2 ^ 56 }
    ensures { result ≡ a *ℤ b }
{
    a as i64 as i128 * b as i128
}

/// Whether the list of the row `a`, over its number in the column, is lexicographically less than that of the row `b`.
fn is_before(t: &Tableau, numbers: &[i64; 22], column: usize, a: usize, b: usize) -> bool
    requires inside { column < units_of t.now }
    requires values { (row : ℕ) → row < t.now.rows → get_or numbers.now row (pos 0) ≡ entry_of t.now row column }
    requires a_in { a < t.now.rows }
    requires b_in { b < t.now.rows }
    requires different { a ≢ b }
    requires positive_a { pos 0 <ℤ entry_of t.now a column }
    requires positive_b { pos 0 <ℤ entry_of t.now b column }
    ensures yes { result ≡ true → IsBefore t.now column a b }
    ensures no { result ≡ false → IsBefore t.now column b a }
{
    let rows = t.rows();
    let over_a = numbers[a];
    let over_b = numbers[b];
    for place in 0..rows + 1 {
        let left = product(number(t, a, place), over_b);
        let right = product(number(t, b, place), over_a);
        if left < right {
            return true;
        }
        if right < left {
            return false;
        }
    }
    unreachable!()
}

/// The one of the two rows that leaves before the other.
fn earlier(t: &Tableau, numbers: &[i64; 22], column: usize, row: usize, best: usize) -> usize
    requires inside { column < units_of t.now }
    requires values { (row : ℕ) → row < t.now.rows → get_or numbers.now row (pos 0) ≡ entry_of t.now row column }
    requires row_in { row < t.now.rows }
    requires best_in { best < t.now.rows }
    requires positive { pos 0 <ℤ entry_of t.now best column }
    ensures { IsEarlier t.now column row best result }
{
    // It shows that there are few rows.
    let _ = t.rows();
    if row == best {
        return best;
    }
    if numbers[row] <= 0 {
        return best;
    }
    if is_before(t, numbers, column, row, best) {
        row
    } else {
        best
    }
}

/// The first row whose number in the column is positive.
fn first_positive(t: &Tableau, numbers: &[i64; 22], column: usize) -> usize
    requires inside { column < units_of t.now }
    requires values { (row : ℕ) → row < t.now.rows → get_or numbers.now row (pos 0) ≡ entry_of t.now row column }
    requires gains { pos 0 <ℤ gain_of t.now column }
    ensures row_in { result < t.now.rows }
    ensures positive { pos 0 <ℤ entry_of t.now result column }
    ensures first { (row : ℕ) → row < result → entry_of t.now row column ≤ℤ pos 0 }
{
    for row in 0..t.rows() {
        if numbers[row] > 0 {
            return row;
        }
    }
    unreachable!()
}

/// The row that leaves for the column, whose numbers these are.
fn leaving(t: &Tableau, numbers: &[i64; 22], column: usize) -> usize
    requires inside { column < units_of t.now }
    requires values { (row : ℕ) → row < t.now.rows → get_or numbers.now row (pos 0) ≡ entry_of t.now row column }
    requires gains { pos 0 <ℤ gain_of t.now column }
    ensures { IsLeaving t.now column result }
{
    let mut best = first_positive(t, numbers, column);
    for row in 0..t.rows() {
        best = earlier(t, numbers, column, row, best);
    }
    best
}

/// The tableau at which the pivot rule stops.
fn run(tableau: Tableau) -> Tableau
    requires { IsReady tableau }
    ensures ready { IsReady result }
    ensures stopped { IsStopped result }
    ensures system { result.system ≡ tableau.system }
    ensures rows { result.rows ≡ tableau.rows }
{
    let mut t = tableau;
    while let Some(column) = entering(&t) {
        let numbers = t.column(column);
        let row = leaving(&t, &numbers, column);
        t.pivot_by(row, column, &numbers);
    }
    t
}

/// The tableau of the k-th normal at which the pivot rule stops. The weight of the normals is below 2^112.
pub fn stopped(alloc: Global, normals: &[Normal], k: usize) -> Result<Tableau, Memory>
    requires place { k < length normals.now }
    requires same { All (λ x. length x ≡ length (get_or normals.now 0 [])) normals.now }
    requires light { (d : ℕ) → AreOfDimension d normals.now → weight d normals.now < weight_limit }
    ensures ready { IfOk result (λ t. IsReady t) }
    ensures stopped { IfOk result (λ t. IsStopped t) }
    ensures system { IfOk result (λ t. t.system ≡ system_of normals.now k) }
    ensures rows { IfOk result (λ t. t.rows ≡ suc (length (get_or normals.now 0 []))) }
{
    let _ = normals[k].numbers();
    match Tableau::light(alloc, normals, k) {
        Ok(tableau) => {
            let _ = tableau.rows();
            Ok(run(tableau))
        }
        Err(error) => Err(error),
    }
}
