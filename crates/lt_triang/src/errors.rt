//! Why no triangulation is made.

/// Why no triangulation is made of classes.
#[derive(Debug, Drop)]
pub enum TriangError {
    /// The facet of the class, the first such after sorting, lies in no member on the other side.
    OpenFacet {
        /// The place of the class after sorting, each class once.
        class: usize,
        /// The place of the vertex opposite to the facet.
        facet: usize,
    },
    /// Memory was refused.
    Memory,
}
