ghost use Rattle.std.specs.Prelude.{◌≡◌, ◌*◌};
ghost use Rattle.std.specs.Result.{OkIff};
ghost use Rattle.vol_units.specs.Size.{IsVolumeSize};

use crate::error::BadSize;
use std::marker::Model;

/// The bytes of a block.
pub const BLOCK_BYTES: u64 = 4096;

/// The bytes of a page: 512 blocks.
pub const PAGE_BYTES: u64 = 2_097_152;

/// The largest size of a volume: 1 GiB.
pub const LARGEST_SIZE: u64 = 1_073_741_824;

/// The size of a volume in bytes: whole pages, one at least.
#[derive(Clone, Copy, Debug, PartialEq, Eq, PartialOrd, Ord)]
pub struct VolumeSize {
    bytes: u64,
}

impl Model for VolumeSize {
    ghost use Rattle.std.specs.Prelude.{ℕ};
    ghost use Rattle.vol_units.specs.Size.{IsVolumeSize};

    ghost Value = { ℕ };

    ghost view = { λ s. s.bytes };

    ghost invariant = { λ s. IsVolumeSize s.bytes };

    ghost inverse = { λ bytes. record { bytes = bytes } };
}

impl VolumeSize {
    /// The one test of a volume's size.
    pub fn new(bytes: u64) -> Result<VolumeSize, BadSize>
        ensures { OkIff result (IsVolumeSize bytes) bytes }
    {
        if bytes % PAGE_BYTES == 0 && PAGE_BYTES <= bytes && bytes <= LARGEST_SIZE {
            Ok(VolumeSize { bytes })
        } else {
            Err(BadSize)
        }
    }

    pub fn bytes(self) -> u64
        ensures value { result ≡ self }
        ensures size { IsVolumeSize self }
    {
        self.bytes
    }

    pub fn block_count(self) -> u32
        ensures { result * BLOCK_BYTES ≡ self }
    {
        (self.bytes / BLOCK_BYTES) as u32
    }

    pub fn page_count(self) -> u32
        ensures { result * PAGE_BYTES ≡ self }
    {
        (self.bytes / PAGE_BYTES) as u32
    }
}
