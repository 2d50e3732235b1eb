ghost use Rattle.std.specs.Prelude.{◌≡◌, ◌<◌, ◌≤◌, length};
ghost use Rattle.packed_bytes.specs.Place.{IsFirstPart};

use crate::Data;

/// What stands from a place on, as far as its chunk goes, and not past that end.
pub(crate) fn first_part(store: &Data, at: usize, until: usize) -> &[u8]
    requires order { at < until }
    requires within { until ≤ length store.now.items }
    ensures { IsFirstPart store.now.items at until result.now }
{
    let piece = store.piece(at);
    &piece[..piece.len().min(until - at)]
}
