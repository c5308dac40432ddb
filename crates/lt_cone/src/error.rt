//! The refusals of cones.

/// Why there is no cone.
#[derive(Debug, Drop)]
pub enum ConeError {
    /// The weight of the regulators is at least 2^112.
    Heavy {
        /// The weight, at most 2^120.
        weight: i128,
    },
    /// Memory was refused.
    Memory,
}

/// Why a cone is not said to be right.
#[derive(Debug, Drop)]
pub enum ConeFault {
    /// The cone is not right.
    Wrong {
        /// The first wrong row; the number of regulators where the rows are right but the form or the number of rows is not; one
        /// more where the weight of the regulators is at least 2^112.
        row: usize,
    },
    /// Memory was refused.
    Memory,
}
