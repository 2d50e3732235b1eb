ghost use Rattle.std.specs.Prelude.{◌≡◌};
ghost use Rattle.backup_units.specs.Blocks.{is_zeros};

use vol_units::{BLOCK_BYTES, PAGE_BYTES};

/// The bytes of a page, 2 MiB: what backupstore calls a block.
pub const PAGE_LENGTH: usize = PAGE_BYTES as usize;

/// How many bytes are looked at together.
const PIECE: usize = BLOCK_BYTES as usize;

/// Whether all bytes are 0. It ends at the first piece that has another byte.
pub fn is_zeros(bytes: &[u8]) -> bool
    ensures { result ≡ is_zeros bytes.now }
{
    let mut rest = bytes;
    while rest.len() > PIECE {
        let (piece, behind) = rest.split_at(PIECE);
        if !are_zeros(piece) {
            return false;
        }
        rest = behind;
    }
    are_zeros(rest)
}

/// The same of a piece. It has no way out at the first other byte, so that it becomes vector code.
fn are_zeros(bytes: &[u8]) -> bool
    ensures { result ≡ is_zeros bytes.now }
{
    let mut zeros = true;
    for byte in bytes {
        zeros &= *byte == 0;
    }
    zeros
}
