//! Fingerprints.

ghost use Rattle.lt_triang.specs.Kept.{IsOfSomeForm};

use crate::matching::{first_flip, principal_of};
use lt_colour::fingerprint;
use lt_core::Atlas;
use lt_triang::Triangulation;
use std::alloc::Global;
use std::process::Abort;

/// The fingerprint of a triangulation.
fn fingerprint_of(rt: &impl Abort, alloc: Global, t: &Triangulation) -> Vec<i128>
    requires { IsOfSomeForm t.now }
{
    match fingerprint(alloc, t) {
        Ok(made) => made,
        Err(_) => {
            assert!(rt; false);
            unreachable!()
        }
    }
}

#[test]
fn the_plane_and_its_flip_have_one_fingerprint(rt: HostRuntime) {
    let (t, across) = first_flip(&rt, rt.alloc(), 2);
    let six = [
        1, -1, 1, 1, 1, -1, 1, 1, 1, -1, 1, 1, 1, -1, 1, 1, 1, -1, 1, 1, 1, -1, 1, 1,
    ];
    let own = fingerprint_of(&rt, rt.alloc(), &t);
    assert!(rt; own.as_slice() == six.as_slice());
    let other = fingerprint_of(&rt, rt.alloc(), &across);
    assert!(rt; other.as_slice() == six.as_slice());
}

/// The starting atlas finds its entry by its fingerprint, and no entry behind it.
#[test]
fn the_first_entry_is_likely(rt: HostRuntime) {
    let t = principal_of(&rt, rt.alloc(), 2);
    let print = fingerprint_of(&rt, rt.alloc(), &t);
    match Atlas::start(rt.alloc(), 2) {
        Ok(atlas) => {
            assert!(rt; atlas.likely(print.as_slice(), 0) == Some(0));
            assert!(rt; atlas.likely(print.as_slice(), 1).is_none());
        }
        Err(_) => assert!(rt; false),
    }
}
