//! The facets among the rows of a cone.

ghost use Rattle.std.specs.Prelude.{◌≡◌, ◌<◌, ◌≤◌, true, length, get_or, []};
ghost use Rattle.lt_model.specs.Atlases.{facets_of};
ghost use Rattle.lt_lp.specs.Facets.{has_wall, wall_rows};

use crate::verdicts::{Cone, Row, Verdict};

impl Row {
    /// Whether the verdict is a wall form, so that the normal is a facet.
    pub fn is_facet(&self) -> bool
        ensures { result ≡ has_wall self.now.verdict }
    {
        match &self.verdict {
            Verdict::Wall(_) => true,
            Verdict::Combination { .. } => false,
        }
    }
}

impl Cone {
    /// The number of rows.
    pub fn regulators(&self) -> usize
        ensures { result ≡ length self.now.rows }
    {
        self.rows.len()
    }

    /// The number of rows with a wall form.
    pub fn facets(&self) -> usize
        ensures value { result ≡ length (facets_of self.now.rows) }
        ensures fits { result ≤ length self.now.rows }
    {
        let mut count = 0;
        for i in 0..self.rows.len() {
            if self.rows[i].is_facet() {
                count += 1;
            }
        }
        count
    }

    /// The row at place `i`, counted from 0, among those with a wall form.
    pub fn facet(&self, i: usize) -> &Row
        requires { i < length (facets_of self.now.rows) }
        ensures row { result.now ≡ get_or (wall_rows self.now.rows) i result.now }
        ensures normal { result.now.normal ≡ get_or (facets_of self.now.rows) i [] }
        ensures wall { has_wall result.now.verdict ≡ true }
    {
        let mut left = i;
        for k in 0..self.rows.len() {
            let row = &self.rows[k];
            if row.is_facet() {
                if left == 0 {
                    return row;
                }
                left -= 1;
            }
        }
        unreachable!()
    }
}
