//! Copies of verdicts, rows and cones, and whether two of them are equal.

ghost use Rattle.std.specs.Prelude.{◌≡◌, ◌≤◌, IsTrue, IfOk, ◌↔◌, length};
ghost use Rattle.lt_lp.specs.Verdicts.{verdict_of};
ghost use Rattle.lt_lp.specs.Same.{same_verdict, same_row, same_cone};

use crate::verdicts::{Cone, Row, Verdict};
use arrayvec::ArrayVec;
use lt_model::Memory;

/// The same terms.
fn copied(terms: &[(usize, i128)]) -> ArrayVec<(usize, i128), 21>
    requires { length terms.now ≤ 21 }
    ensures { result.items ≡ terms.now }
{
    let mut all: ArrayVec<(usize, i128), 21> = ArrayVec::new();
    for term in terms {
        all.push(*term);
    }
    all
}

impl Verdict {
    /// The same verdict.
    pub fn copy(&self) -> Verdict
        ensures { verdict_of result ≡ verdict_of self.now }
    {
        match self {
            Verdict::Wall(form) => Verdict::Wall(form.copy()),
            Verdict::Combination { scale, terms } => Verdict::Combination {
                scale: *scale,
                terms: copied(terms.as_slice()),
            },
        }
    }
}

impl Row {
    /// The same row.
    pub fn copy(&self) -> Row
        ensures { result ≡ self.now }
    {
        Row {
            normal: self.normal.copy(),
            verdict: self.verdict.copy(),
        }
    }
}

impl Cone {
    /// A copy, or want of memory.
    pub fn try_copy(&self) -> Result<Cone, Memory>
        ensures { IfOk result (λ c. c ≡ self.now) }
    {
        let mut rows = Vec::new(*self.rows.allocator());
        for row in &self.rows {
            rows.push(row.copy())?;
        }
        Ok(Cone {
            rows,
            form: self.form.copy(),
        })
    }
}

impl PartialEq for Verdict {
    ghost use Rattle.lt_lp.specs.Verdicts.{verdict_of};
    ghost use Rattle.lt_lp.specs.Same.{same_verdict, verdicts_equivalent};

    ghost eq = { λ v w. same_verdict (verdict_of v) (verdict_of w) };

    ghost laws = { verdicts_equivalent };

    /// Whether the verdicts are the same.
    fn eq(&self, other: &Verdict) -> bool
        ensures value { result ≡ same_verdict (verdict_of self.now) (verdict_of other.now) }
        ensures same { IsTrue result ↔ (verdict_of self.now ≡ verdict_of other.now) }
    {
        match self {
            Verdict::Wall(form) => match other {
                Verdict::Wall(theirs) => form == theirs,
                Verdict::Combination { .. } => false,
            },
            Verdict::Combination { scale, terms } => match other {
                Verdict::Wall(_) => false,
                Verdict::Combination {
                    scale: theirs,
                    terms: others,
                } => scale == theirs && terms == others,
            },
        }
    }
}

impl PartialEq for Row {
    ghost use Rattle.lt_lp.specs.Same.{same_row, rows_equivalent};

    ghost eq = { same_row };

    ghost laws = { rows_equivalent };

    /// Whether the rows are the same.
    fn eq(&self, other: &Row) -> bool
        ensures value { result ≡ same_row self.now other.now }
        ensures same { IsTrue result ↔ (self.now ≡ other.now) }
    {
        self.normal == other.normal && self.verdict == other.verdict
    }
}

impl PartialEq for Cone {
    ghost use Rattle.lt_lp.specs.Same.{same_cone, cones_equivalent};

    ghost eq = { same_cone };

    ghost laws = { cones_equivalent };

    /// Whether the cones are the same.
    fn eq(&self, other: &Cone) -> bool
        ensures value { result ≡ same_cone self.now other.now }
        ensures same { IsTrue result ↔ (self.now ≡ other.now) }
    {
        self.rows == other.rows && self.form == other.form
    }
}
