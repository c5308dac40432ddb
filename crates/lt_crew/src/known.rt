//! Entries that a worker has tested.

ghost use Rattle.std.specs.Prelude.{◌≡◌, true, IsTrue, ◌↔◌, map};
ghost use Rattle.std.specs.Arc.{arc_value};
ghost use Rattle.lt_crew.specs.Tasks.{AreKnown};

use lt_core::Atlas;
use lt_lattice::Normal;
use lt_triang::Triangulation;
use std::alloc::Global;
use std::sync::Arc;

/// Whether the entries below `tested` with this fingerprint are the known ones, in their order.
pub fn are_known(
    atlas: &Atlas,
    print: &[i128],
    known: &[Arc<Triangulation, Global>],
    tested: u32,
) -> bool
    ensures { result ≡ true → AreKnown atlas.now print.now (map arc_value known.now) tested }
{
    let mut from = 0;
    let mut seen = 0;
    while from < tested {
        let k = match atlas.likely(print, from) {
            Some(k) => k,
            None => return true,
        };
        if k >= tested {
            return true;
        }
        if seen >= known.len() {
            return false;
        }
        let same = atlas.entry(k).triangulation == *known[seen];
        if !same {
            return false;
        }
        seen += 1;
        from = k + 1;
    }
    true
}

/// Whether the normals are the same.
pub fn same_normal(normal: &Normal, other: &Normal) -> bool
    ensures { IsTrue result ↔ (normal.now ≡ other.now) }
{
    normal == other
}
