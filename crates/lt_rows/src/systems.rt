//! Linear systems.

use lt_solve::{Columns, solve};

#[test]
fn a_solution_in_lowest_terms(rt: HostRuntime) {
    match solve(&Columns::of(2, &[1, 0, 1, 2]), &[0, 1]) {
        Ok(solution) => {
            assert!(rt; solution.den == 2);
            assert!(rt; solution.nums.as_slice() == [-1, 1].as_slice());
        }
        Err(_) => assert!(rt; false),
    }
}

#[test]
fn dependent_columns(rt: HostRuntime) {
    match solve(&Columns::of(3, &[1, 2, 3, 4, 5, 6, 7, 8, 9]), &[1, 0, 0]) {
        Ok(_) => assert!(rt; false),
        Err(singular) => {
            let terms = singular.terms.as_slice();
            let lowest = terms == [1, -2, 1].as_slice() || terms == [-1, 2, -1].as_slice();
            assert!(rt; lowest);
        }
    }
}
