ghost use Rattle.std.specs.Prelude.{◌≡◌, ◌+◌, ◌≤◌, pos, is_some, IfSome};
ghost use Rattle.vol_units.specs.Range.{is_good, place_of};

/// The place that an offset names, where so many bytes from there on lie within the size.
pub fn place_within(offset: i64, length: usize, size: usize) -> Option<usize>
    ensures some { is_some result ≡ is_good size offset length }
    ensures place { IfSome result (λ at. (at ≡ place_of offset) × (at + length ≤ size)) }
    ensures named { IfSome result (λ at. offset ≡ pos at) }
{
    if offset < 0 {
        return None;
    }
    let at = offset as usize;
    if at <= size && length <= size - at {
        Some(at)
    } else {
        None
    }
}
