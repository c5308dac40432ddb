//! Where a facet stands in the queue of an atlas.

ghost use Rattle.std.specs.Prelude.{◌≡◌, ◌<◌, length};
ghost use Rattle.lt_model.specs.Atlases.{open_mark, mark_at, place_at};

use lt_core::Atlas;

/// The position of an open facet in the queue.
pub fn position_of(atlas: &Atlas, entry: u32, facet: u32) -> u64
    requires { mark_at atlas.now.marks (entry, facet) ≡ open_mark }
    ensures queued { result < length atlas.now.queue }
    ensures place { place_at atlas.now.queue result ≡ (entry, facet) }
{
    atlas.keeps();
    for position in 0..atlas.queued() {
        let (k, f) = atlas.place(position);
        if k == entry && f == facet {
            return position;
        }
    }
    unreachable!()
}
