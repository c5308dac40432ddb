//! Sums over the rows of a tableau whose basic column is a unit column: the objective and the reduced costs.

ghost use Rattle.std.specs.Prelude.{◌≡◌, ◌<◌, ◌≤◌, ◌+◌, ◌*◌, ◌^◌, ◌+ℤ◌, ◌*ℤ◌, ℕ, pos, nat_abs};
ghost use Rattle.lt_model.specs.Padded.{lookup};
ghost use Rattle.lt_tableau.specs.Table.{units_of};
ghost use Rattle.lt_lp.specs.Rule.{objective_of, gain_of, unit_entry};

use lt_tableau::Tableau;

/// The place of the first unit column.
pub fn first_unit(t: &Tableau) -> usize
    ensures { result ≡ units_of t.now }
{
    t.columns() - t.rows()
}

/// The sum of the unit variables, over the denominator.
pub fn objective(t: &Tableau) -> i128
    ensures { result ≡ objective_of t.now }
{
    let first = first_unit(t);
    let mut sum: i128 = 0;
    for row in 0..t.rows() {
        if t.basic(row) >= first {
            sum += t.right(row);
        }
    }
    sum
}

/// The number in 64 bits.
fn word(x: i128) -> i64
    requires { nat_abs x < 2 ^ 56 }
    ensures { result ≡ x }
{
    x as i64
}

/// Adds the row's numbers in the unit columns to the sums over rows before it.
fn add_row(t: &Tableau, row: usize, sums: &mut [i64; 22])
    requires row_in { row < t.now.rows }
    requires small { (q : ℕ) → nat_abs (lookup sums.old q) ≤ row * 2 ^ 56 }
    ensures values { (q : ℕ) → q < t.now.rows → lookup sums.new q ≡ lookup sums.old q +ℤ unit_entry t.now row q }
    ensures small { (q : ℕ) → nat_abs (lookup sums.new q) ≤ (row + 1) * 2 ^ 56 }
{
    for unit in 0..t.rows() {
        sums[unit] += word(t.unit(row, unit));
    }
}

/// The sums of all unit columns over the rows with a unit variable, which are few after some pivots. They fit into 64 bits, so that
/// a product with one takes one multiplication.
pub fn unit_sums(t: &Tableau) -> [i64; 22]
    ensures values { (q : ℕ) → q < t.now.rows → lookup result q ≡ gain_of t.now (units_of t.now + q) }
    ensures small { (q : ℕ) → nat_abs (lookup result q) ≤ 22 * 2 ^ 56 }
{
    let first = first_unit(t);
    let mut sums = [0i64; 22];
    for row in 0..t.rows() {
        if t.basic(row) >= first {
            add_row(t, row, &mut sums);
        }
    }
    sums
}

/// The sum of the column's numbers in the rows with a unit variable: the reduced cost with its sign changed. By the rows' law it is
/// the pairing of the column of the system with the sums of the unit columns, of which many are 0. It is small, so it is summed modulo
/// 2^64.
pub fn gain(t: &Tableau, sums: &[i64; 22], column: usize) -> i64
    requires inside { column < units_of t.now }
    requires values { (q : ℕ) → q < t.now.rows → lookup sums.now q ≡ gain_of t.now (units_of t.now + q) }
    ensures { result ≡ gain_of t.now column }
{
    let numbers = t.numbers(column);
    let mut sum: i64 = 0;
    for q in 0..t.rows() {
        if sums[q] != 0 {
            sum = sum.wrapping_add(sums[q].wrapping_mul(numbers[q]));
        }
    }
    sum
}
