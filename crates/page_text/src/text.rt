ghost use Rattle.std.specs.Prelude.{◌≡◌, ◌*◌, ◌+◌, ◌<◌, ◌≤◌, ◌++◌, ◌∷◌, length, vec_len, vec_capacity, OnOk, OnErr};
ghost use Rattle.page_text.specs.Text.{bit_at, block_at, map_byte, map_of, blocks_of, page_text, longest_text};

use sparse_image::{BLOCK_BYTES, PAGE_BLOCKS, Page};
use std::alloc::AllocError;
use vol_units::LayerName;

/// The bytes of the map, which has a bit for each block of the page.
const MAP_BYTES: usize = PAGE_BLOCKS as usize / 8;

/// The longest text: the length of the name, the longest name, the map, and all blocks of the page.
pub const LONGEST_TEXT: usize = 1 + 64 + MAP_BYTES + PAGE_BLOCKS as usize * BLOCK_BYTES;

/// Appends the text of a page of a layer. The layout is this project's own, for the frames of a rebuild: a byte with the
/// length of the layer's name, the name, 64 bytes of map, in which block i of the page is bit i mod 8 of byte i / 8, the
/// lowest bit being 0, and then the blocks that are there, in rising order. Memory is taken for the longest text, where
/// there is no room for it.
pub fn append_text(text: &mut Vec<u8>, layer: &LayerName, page: &Page) -> Result<(), AllocError>
    ensures ok { OnOk result (text.new.items ≡ text.old.items ++ page_text layer.now page.now) }
    ensures few { OnOk result (length (page_text layer.now page.now) ≤ longest_text) }
    ensures err { OnErr result (text.new.items ≡ text.old.items) }
    ensures room { vec_capacity text.old ≤ vec_capacity text.new }
{
    text.reserve(LONGEST_TEXT)?;
    append_name(text, layer);
    append_map(text, page);
    append_blocks(text, page);
    Ok(())
}

fn append_name(text: &mut Vec<u8>, layer: &LayerName)
    requires room { vec_len text.old + 65 ≤ vec_capacity text.old }
    ensures spelled { text.new.items ≡ text.old.items ++ (length layer.now ∷ layer.now) }
    ensures few { length layer.now ≤ 64 }
    ensures room { vec_capacity text.old ≤ vec_capacity text.new }
{
    let name = bytes_of(layer);
    text.push(name.len() as u8).unwrap();
    text.extend_from_slice(name).unwrap();
}

/// The bytes of a name, which are few.
fn bytes_of(layer: &LayerName) -> &[u8]
    ensures value { result.now ≡ layer.now }
    ensures few { length result.now ≤ 64 }
{
    layer.as_bytes()
}

fn append_map(text: &mut Vec<u8>, page: &Page)
    requires room { vec_len text.old + MAP_BYTES ≤ vec_capacity text.old }
    ensures spelled { text.new.items ≡ text.old.items ++ map_of page.now }
    ensures few { length (map_of page.now) ≡ MAP_BYTES }
    ensures room { vec_capacity text.old ≤ vec_capacity text.new }
{
    for byte in 0..MAP_BYTES {
        text.push(map_byte(page, byte)).unwrap();
    }
}

/// A byte of the map.
fn map_byte(page: &Page, byte: usize) -> u8
    requires { byte < MAP_BYTES }
    ensures { result ≡ map_byte page.now byte }
{
    let first = byte * 8;
    bit(page, first)
        + 2 * bit(page, first + 1)
        + 4 * bit(page, first + 2)
        + 8 * bit(page, first + 3)
        + 16 * bit(page, first + 4)
        + 32 * bit(page, first + 5)
        + 64 * bit(page, first + 6)
        + 128 * bit(page, first + 7)
}

/// Whether a block is there.
fn bit(page: &Page, place: usize) -> u8
    ensures value { result ≡ bit_at page.now place }
    ensures most { result ≤ 1 }
{
    if page.get(place).is_some() { 1 } else { 0 }
}

fn append_blocks(text: &mut Vec<u8>, page: &Page)
    requires room { vec_len text.old + PAGE_BLOCKS * BLOCK_BYTES ≤ vec_capacity text.old }
    ensures spelled { text.new.items ≡ text.old.items ++ blocks_of page.now }
    ensures few { length (blocks_of page.now) ≤ PAGE_BLOCKS * BLOCK_BYTES }
    ensures room { vec_capacity text.old ≤ vec_capacity text.new }
{
    for place in 0..PAGE_BLOCKS as usize {
        append_block(text, page, place);
    }
}

fn append_block(text: &mut Vec<u8>, page: &Page, place: usize)
    requires room { vec_len text.old + BLOCK_BYTES ≤ vec_capacity text.old }
    ensures spelled { text.new.items ≡ text.old.items ++ block_at page.now place }
    ensures few { length (block_at page.now place) ≤ BLOCK_BYTES }
    ensures room { vec_capacity text.old ≤ vec_capacity text.new }
{
    if let Some(block) = page.get(place) {
        text.extend_from_slice(block).unwrap();
    }
}
