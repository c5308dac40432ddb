//! Rows of sections of secondary cones.

ghost use Rattle.std.specs.Prelude.{◌≡◌, ◌<◌, ◌≤◌, length};
ghost use Rattle.std.specs.List.{All};
ghost use Rattle.lt_model.specs.Forms.{numbers_of_form};
ghost use Rattle.lt_lattice.specs.Ranges.{IsWithin};

use lt_lattice::{Form, Point};
use lt_locate::locate;
use lt_section::{Section, SectionError, SectionRow, SectionVerdict, section};
use std::alloc::Global;
use std::process::Abort;

/// The section by forms, to the triangulation of whose first ten crossings lead.
fn section_of(
    rt: &impl Abort,
    alloc: Global,
    d: u8,
    forms: &[Form],
) -> Result<Section, SectionError>
    requires some { 0 < length forms.now }
    requires few { length forms.now ≤ numbers_of_form d }
    requires same { All (λ q. length q ≡ numbers_of_form d) forms.now }
    requires within { All (All (IsWithin 4096)) forms.now }
{
    match locate(alloc, &forms[0], 10) {
        Ok(found) => section(alloc, &found.triangulation, forms),
        Err(_) => {
            assert!(rt; false);
            unreachable!()
        }
    }
}

/// Whether the row says live, with this normal, wall and form.
fn is_live(row: &SectionRow, normal: &[i128], wall: &[i128], numbers: &[i128]) -> bool {
    match &row.verdict {
        SectionVerdict::Live { at, form } => {
            row.normal.as_slice() == normal && at.as_slice() == wall && form.numbers() == numbers
        }
        _ => false,
    }
}

/// Whether the row says dead, with this normal, wall, form and point.
fn is_dead(
    row: &SectionRow,
    normal: &[i128],
    wall: &[i128],
    numbers: &[i128],
    point: &Point,
) -> bool {
    match &row.verdict {
        SectionVerdict::Dead { at, form, x } => {
            row.normal.as_slice() == normal
                && at.as_slice() == wall
                && form.numbers() == numbers
                && x == point
        }
        _ => false,
    }
}

#[test]
fn a_dead_facet_and_a_live_one(rt: HostRuntime) {
    let forms = [Form::of(2, &[2, -2, 2]), Form::of(2, &[1, 0, 0])];
    match section_of(&rt, rt.alloc(), 2, &forms) {
        Ok(found) => {
            assert_eq!(rt; found.rows.len(), 2);
            assert!(rt;
                is_dead(
                    &found.rows[0],
                    &[1, 0],
                    &[0, 1],
                    &[1, 0, 0],
                    &Point::of(&[0, 1])
                )
            );
            assert!(rt; is_live(&found.rows[1], &[1, 1], &[1, -1], &[1, -2, 2]));
        }
        Err(_) => assert!(rt; false),
    }
}

#[test]
fn one_form_alone_has_a_dead_facet(rt: HostRuntime) {
    let forms = [Form::of(2, &[2, -2, 2])];
    match section_of(&rt, rt.alloc(), 2, &forms) {
        Ok(found) => {
            assert_eq!(rt; found.rows.len(), 1);
            assert!(rt; is_dead(&found.rows[0], &[1], &[0], &[0, 0, 0], &Point::of(&[0, 1])));
        }
        Err(_) => assert!(rt; false),
    }
}

#[test]
fn three_forms_give_the_whole_cone(rt: HostRuntime) {
    let forms = [
        Form::of(2, &[2, -2, 2]),
        Form::of(2, &[1, 0, 0]),
        Form::of(2, &[0, 0, 1]),
    ];
    match section_of(&rt, rt.alloc(), 2, &forms) {
        Ok(found) => {
            assert_eq!(rt; found.rows.len(), 3);
            assert!(rt; is_live(&found.rows[0], &[1, 0, 0], &[0, 1, 1], &[1, 0, 1]));
            assert!(rt; is_live(&found.rows[1], &[1, 0, 1], &[1, 0, -1], &[2, -2, 1]));
            assert!(rt; is_live(&found.rows[2], &[1, 1, 0], &[1, -1, 0], &[1, -2, 2]));
        }
        Err(_) => assert!(rt; false),
    }
}

#[test]
fn a_normal_between_two_others_is_no_facet(rt: HostRuntime) {
    let forms = [Form::of(2, &[2, -2, 2]), Form::of(2, &[1, 1, 3])];
    match section_of(&rt, rt.alloc(), 2, &forms) {
        Ok(found) => {
            assert_eq!(rt; found.rows.len(), 3);
            match &found.rows[1].verdict {
                SectionVerdict::Combination { scale, terms } => {
                    assert_eq!(rt; *scale, 2);
                    assert!(rt; terms.as_slice() == [(0, 1), (2, 1)].as_slice());
                }
                _ => assert!(rt; false),
            }
        }
        Err(_) => assert!(rt; false),
    }
}

#[test]
fn large_forms_make_a_heavy_section(rt: HostRuntime) {
    let forms = [
        Form::of(3, &[3, -2, -2, 3, -2, 3]),
        Form::of(3, &[4096, 4095, 4093, 4091, 4089, 4087]),
    ];
    match section_of(&rt, rt.alloc(), 3, &forms) {
        Err(SectionError::Heavy { weight }) => assert_eq!(rt; weight, 1 << 120),
        _ => assert!(rt; false),
    }
}
