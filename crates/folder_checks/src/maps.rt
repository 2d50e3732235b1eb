ghost use Rattle.std.specs.Prelude.{◌≡◌, ◌+◌, ◌<◌, ◌≤◌, List, ℕ, Some, length, IfOk, MatchResult};
ghost use Rattle.std.specs.Option.{option_map};
ghost use Rattle.outer_traits.specs.Causes.{HasOuterCause};
ghost use Rattle.image_maps.specs.Maps.{AreSpans};
ghost use Rattle.image_maps.specs.Reading.{Begins};
ghost use Rattle.folder_checks.specs.Told.{Told};
ghost use Rattle.folder_checks.specs.Images.{IsBadMap, IsMapThere};
ghost use Rattle.folder_checks.specs.Pieces.{IsMapRead, IsReadFile, IsFed, FeedsMore, FeedsAll};

use crate::file::file_len;
use chain_meta::ImageName;
use folder_names::map_file;
use image_maps::{BlockSpan, MapError, MapReader};
use shelf_traits::{Outer, OuterError, Shelves};
use std::alloc::{AllocError, Global};

/// How many bytes of a map are read at once.
const PIECE_BYTES: usize = 16_384;

/// The runs of the image's map, or the place where that is bad.
pub fn good_map<S: Shelves>(
    alloc: Global,
    block_count: u32,
    image: &ImageName,
    shelf: u8,
    shelves: &mut S,
) -> Outer<Result<Vec<BlockSpan>, u64>>
    ensures same { S.holds shelves.new ≡ S.holds shelves.old }
    ensures told { IfOk result (λ found. Told (S.holds shelves.old)
        (λ files. MatchResult found (λ spans. IsMapThere (files shelf) image.now block_count spans.items)
        (IsBadMap (files shelf) image.now block_count))) }
    ensures known { IfOk result (λ found. IfOk found (λ spans. AreSpans 0 block_count spans.items)) }
    ensures cause { HasOuterCause (S.faults shelves.old) (S.faults shelves.new) result }
{
    let file = map_file(alloc, image)?;
    match file_len(file.as_str(), shelf, shelves)? {
        None => Ok(Err(0)),
        Some(len) => read_pieces(alloc, block_count, len, file.as_str(), shelf, shelves),
    }
}

/// The runs of the map that a file of that length is, or the place where it is bad. No more than a
/// piece of it is held.
fn read_pieces<S: Shelves>(
    alloc: Global,
    block_count: u32,
    len: u64,
    file: &str,
    shelf: u8,
    shelves: &mut S,
) -> Outer<Result<Vec<BlockSpan>, u64>>
    requires { Told (S.holds shelves.old) (λ files. Some len ≡ option_map length (files shelf file.now)) }
    ensures same { S.holds shelves.new ≡ S.holds shelves.old }
    ensures told { IfOk result (λ found. Told (S.holds shelves.old)
        (λ files. IsReadFile block_count (files shelf file.now) found)) }
    ensures known { IfOk result (λ found. IfOk found (λ spans. AreSpans 0 block_count spans.items)) }
    ensures cause { HasOuterCause (S.faults shelves.old) (S.faults shelves.new) result }
{
    let mut room = vec![in alloc; 0u8; PIECE_BYTES]?;
    let mut reader = MapReader::new(alloc, block_count);
    match feed_all(len, file, shelf, &mut room, &mut reader, shelves)? {
        Some(place) => Ok(Err(place)),
        None => Ok(end_map(reader)?),
    }
}

/// Feeds a file of that length, or up to its first bad line, and tells where that begins.
fn feed_all<S: Shelves>(
    len: u64,
    file: &str,
    shelf: u8,
    room: &mut [u8],
    reader: &mut MapReader,
    shelves: &mut S,
) -> Outer<Option<u64>>
    requires { 0 < length room.old }
    ensures blocks { reader.new.blocks ≡ reader.old.blocks }
    ensures same { S.holds shelves.new ≡ S.holds shelves.old }
    ensures told { IfOk result (λ bad. Told (S.holds shelves.old)
        (λ files. IsFed (files shelf file.now) len 0 reader.old.fed
        → FeedsAll reader.old.blocks (files shelf file.now) len reader.new.fed bad)) }
    ensures cause { HasOuterCause (S.faults shelves.old) (S.faults shelves.new) result }
{
    let mut at = 0;
    while at < len {
        let most = piece_of(len - at, room.len());
        match feed_more(len, at, file, shelf, &mut room[..most], reader, shelves)? {
            Err(place) => return Ok(Some(place)),
            // The file is shorter than it was said to be.
            Ok(0) => return Ok(None),
            Ok(count) => at += count as u64,
        }
    }
    Ok(None)
}

/// How much of so many bytes is read at once.
fn piece_of(left: u64, room: usize) -> usize
    ensures room { result ≤ room }
    ensures left { result ≤ left }
    ensures some { 0 < left → 0 < room → 0 < result }
{
    if left < room as u64 {
        left as usize
    } else {
        room
    }
}

/// Feeds the bytes of a file that fill the room, behind those that were fed, or tells where its
/// first bad line begins.
fn feed_more<S: Shelves>(
    len: u64,
    at: u64,
    file: &str,
    shelf: u8,
    room: &mut [u8],
    reader: &mut MapReader,
    shelves: &mut S,
) -> Outer<Result<usize, u64>>
    requires { at + length room.old ≤ len }
    ensures bound { IfOk result (λ found. IfOk found (λ count. count ≤ length room.old)) }
    ensures blocks { reader.new.blocks ≡ reader.old.blocks }
    ensures same { S.holds shelves.new ≡ S.holds shelves.old }
    ensures told { IfOk result (λ found. Told (S.holds shelves.old)
        (λ files. IsFed (files shelf file.now) len at reader.old.fed
        → FeedsMore reader.old.blocks (files shelf file.now) len at (length room.old) reader.new.fed found)) }
    ensures cause { HasOuterCause (S.faults shelves.old) (S.faults shelves.new) result }
{
    let count = shelves.read_at(shelf, file, at, room)?;
    match reader.feed(&room[..count]) {
        Ok(()) => Ok(Ok(count)),
        Err(MapError::BadLine(place)) => Ok(Err(place)),
        Err(MapError::NoMemory) => Err(OuterError::NoMemory),
    }
}

/// The runs of what was fed, or the place where that is bad.
fn end_map(reader: MapReader) -> Result<Result<Vec<BlockSpan>, u64>, AllocError>
    ensures told { IfOk result (λ found. (text : List ℕ) → reader.fed ≡ Begins text
        → IsMapRead reader.blocks text found) }
    ensures known { IfOk result (λ found. IfOk found (λ spans. AreSpans 0 reader.blocks spans.items)) }
{
    match reader.end() {
        Ok(spans) => Ok(Ok(spans)),
        Err(MapError::BadLine(place)) => Ok(Err(place)),
        Err(MapError::NoMemory) => Err(AllocError),
    }
}
