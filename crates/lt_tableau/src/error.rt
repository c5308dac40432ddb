//! The refusals of a tableau.

/// Why there is no tableau.
#[derive(Debug, Drop)]
pub enum TableauError {
    /// The weight of the normals is at least 2^112.
    Heavy {
        /// The weight, at most 2^120.
        weight: i128,
    },
    /// Memory was refused.
    Memory,
}
