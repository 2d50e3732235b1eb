ghost use Rattle.std.specs.Prelude.{◌≡◌, ◌<◌, ◌↔◌, length, drop, IfSome, IfNone, IsNone};
ghost use Rattle.std.specs.Int.{w32, w64, to_le_bytes, cast_unsigned};
ghost use Rattle.frame_wire.specs.Spelling.{header_length, header};
ghost use Rattle.frame_wire.specs.Decoding.{Decodes, BeginsWith, HasOtherMagic, HasNoOtherMagic};
ghost use Rattle.frame_wire.specs.declared.decoded.Decoded.{Decoded};

use crate::decoded::Decoded;
use crate::head::Head;

/// The length of a header, in bytes.
pub const HEADER_LENGTH: usize = 26;

/// The first two bytes of each frame, as a number.
const MAGIC: u16 = 0x1b01;

/// The one spelling of a header.
pub fn encode_header(head: &Head) -> [u8; HEADER_LENGTH]
    ensures { result ≡ header head.now }
{
    let mut bytes = [0u8; HEADER_LENGTH];
    bytes[0..2].copy_from_slice(&MAGIC.to_le_bytes());
    bytes[2..6].copy_from_slice(&head.seq.to_le_bytes());
    bytes[6..10].copy_from_slice(&head.kind.to_le_bytes());
    bytes[10..18].copy_from_slice(&head.offset.to_le_bytes());
    bytes[18..22].copy_from_slice(&head.size.to_le_bytes());
    bytes[22..26].copy_from_slice(&head.len.to_le_bytes());
    bytes
}

/// What the front of the bytes is, for a reader that takes at most `most` bytes of data.
pub fn decode(bytes: &[u8], most: u32) -> Decoded
    // The answer is true of the bytes,
    ensures means { Decodes bytes.now most result }
    // and it is the only one that is.
    ensures only { (other : Decoded) → Decodes bytes.now most other → result ≡ other }
{
    decoded(bytes, most)
}

/// An answer that is true of the bytes. No other can be, whatever they are.
fn decoded(bytes: &[u8], most: u32) -> Decoded
    ensures { Decodes bytes.now most result }
{
    if let Some(found) = other_magic(bytes) {
        return Decoded::BadMagic(found);
    }
    let Some(head) = head_of(bytes) else {
        return Decoded::Short;
    };
    if head.len > most {
        return Decoded::TooLong(head.len);
    }
    let used = HEADER_LENGTH + head.len as usize;
    if bytes.len() < used {
        return Decoded::Short;
    }
    Decoded::Frame(head, used)
}

/// The number that the first two bytes are, where they are there and are not the magic.
fn other_magic(bytes: &[u8]) -> Option<u16>
    ensures some { IfSome result (HasOtherMagic bytes.now) }
    ensures none { IfNone result (HasNoOtherMagic bytes.now) }
{
    if bytes.len() < 2 {
        return None;
    }
    let found = u16::from_le_bytes([bytes[0], bytes[1]]);
    if found == MAGIC { None } else { Some(found) }
}

/// The header that the bytes begin with, where it is there whole.
fn head_of(bytes: &[u8]) -> Option<Head>
    requires { HasNoOtherMagic bytes.now }
    ensures some { IfSome result (λ h. BeginsWith bytes.now h (drop header_length bytes.now)) }
    ensures none { IsNone result ↔ (length bytes.now < header_length) }
{
    let b = bytes.first_chunk::<HEADER_LENGTH>()?;
    Some(Head {
        seq: u32_of([b[2], b[3], b[4], b[5]]),
        kind: u32_of([b[6], b[7], b[8], b[9]]),
        offset: i64_of([b[10], b[11], b[12], b[13], b[14], b[15], b[16], b[17]]),
        size: u32_of([b[18], b[19], b[20], b[21]]),
        len: u32_of([b[22], b[23], b[24], b[25]]),
    })
}

fn u32_of(bytes: [u8; 4]) -> u32
    ensures { to_le_bytes w32 result ≡ bytes }
{
    u32::from_le_bytes(bytes)
}

fn i64_of(bytes: [u8; 8]) -> i64
    ensures { to_le_bytes w64 (cast_unsigned w64 result) ≡ bytes }
{
    i64::from_le_bytes(bytes)
}
