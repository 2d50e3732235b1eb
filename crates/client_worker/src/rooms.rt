//! The memory that calls are carried in: it is made before a call starts, and kept for those behind it.

ghost use Rattle.std.specs.Prelude.{◌≡◌, ◌+◌, ◌*◌, ◌<◌, ◌≤◌, ◌++◌, ◌^◌, [], length, drop, All, OnOk, vec_len};
ghost use Rattle.std.specs.Prelude.{vec_capacity};
ghost use Rattle.vol_units.specs.declared.size.TheConstants.{BLOCK_BYTES};
ghost use Rattle.frame_wire.specs.Spelling.{header_length};
ghost use Rattle.client_worker.specs.Rooms.{AreBoxes, HasWriteRoom, HasReadRoom};

use frame_wire::HEADER_LENGTH;
use sparse_image::Blocks;
use std::alloc::{AllocError, Global};
use vol_units::BLOCK_BYTES;

/// A piece of memory, in bytes, and how many boxes it has place for.
const PIECE: usize = 122_880;

const PIECE_BOXES: usize = 28;

/// What the calls of a stream are carried in, one after another. It grows as a call needs, and what it has stays for
/// the next: a call that needs no more takes no memory.
#[derive(Drop)]
pub struct Rooms {
    /// A write's request: a place for the header, and all bytes of the blocks.
    pub(crate) request: Vec<u8>,
    /// A read's reply, as long as the longest needs.
    pub(crate) reply: Vec<u8>,
    /// Where frames arrive.
    pub(crate) arrivals: Vec<u8>,
    /// Boxes for a write's blocks, for each replica.
    pub(crate) sets: Vec<Blocks>,
    /// How many boxes the last piece that was asked for has place for still.
    ahead: usize,
}

impl Rooms {
    /// With no memory yet.
    pub fn new(alloc: Global) -> Rooms {
        Rooms {
            request: Vec::new(alloc),
            reply: Vec::new(alloc),
            arrivals: Vec::new(alloc),
            sets: Vec::new(alloc),
            ahead: 0,
        }
    }

    /// Makes room for a write of so many blocks, on so many replicas.
    pub(crate) fn make_for_write(
        &mut self,
        alloc: Global,
        count: usize,
        replicas: usize,
    ) -> Result<(), AllocError>
        requires { count * BLOCK_BYTES < 2 ^ 32 }
        ensures { OnOk result (HasWriteRoom count replicas self.new) }
    {
        let most = HEADER_LENGTH + count * BLOCK_BYTES as usize;
        self.ask_ahead(alloc, count.saturating_mul(replicas))?;
        self.request.clear();
        self.request.reserve_exact(most)?;
        self.arrivals.clear();
        self.arrivals.reserve_exact(HEADER_LENGTH + most)?;
        make_sets(alloc, &mut self.sets, count, replicas)
    }

    /// Has the allocator ask the system for a piece at once, where the last one has no place for these boxes. For one box
    /// after another it asks for each by itself, for which threads wait for one another.
    fn ask_ahead(&mut self, alloc: Global, boxes: usize) -> Result<(), AllocError> {
        if self.ahead < boxes {
            // It is let go at once, and the allocator has it for the boxes.
            let _piece: Vec<u8> = Vec::with_capacity(alloc, PIECE)?;
            self.ahead = PIECE_BOXES;
        }
        self.ahead = self.ahead.saturating_sub(boxes);
        Ok(())
    }

    /// Makes room for a read of so many bytes.
    pub(crate) fn make_for_read(&mut self, count: u32) -> Result<(), AllocError>
        ensures { OnOk result (HasReadRoom count self.new) }
    {
        let most = HEADER_LENGTH + count as usize;
        if self.reply.len() < most {
            self.reply.resize(most, 0)?;
        }
        self.arrivals.clear();
        self.arrivals.reserve_exact(HEADER_LENGTH + most)?;
        Ok(())
    }
}

/// Makes the sets as many as the replicas, with so many boxes in each.
fn make_sets(
    alloc: Global,
    sets: &mut Vec<Blocks>,
    count: usize,
    replicas: usize,
) -> Result<(), AllocError>
    ensures count { OnOk result (length sets.new.items ≡ replicas) }
    ensures boxes { OnOk result (All (AreBoxes count) sets.new.items) }
{
    sets.truncate(replicas);
    make_all_full(alloc, sets, count)?;
    for _r in sets.len()..replicas {
        sets.push(Blocks::with_count(alloc, count)?)?;
    }
    Ok(())
}

/// Makes each set so many boxes.
fn make_all_full(alloc: Global, sets: &mut [Blocks], count: usize) -> Result<(), AllocError>
    ensures count { length sets.new ≡ length sets.old }
    ensures boxes { OnOk result (All (AreBoxes count) sets.new) }
{
    for r in 0..sets.len() {
        sets[r].make_full(alloc, count)?;
    }
    Ok(())
}

/// Puts all bytes of a write's blocks into its request, behind the place of the header. It takes no memory.
pub(crate) fn fill_request(request: &mut Vec<u8>, front: &[u8], bytes: &[u8], back: &[u8])
    requires empty { request.old.items ≡ [] }
    requires room { header_length + (length front.now + length bytes.now + length back.now)
        ≤ vec_capacity request.old }
    ensures whole { drop header_length request.new.items ≡ (front.now ++ bytes.now) ++ back.now }
    ensures count { length request.new.items
        ≡ header_length + (length front.now + length bytes.now + length back.now) }
{
    request.extend_from_slice(&[0; HEADER_LENGTH]).unwrap();
    request.extend_from_slice(front).unwrap();
    request.extend_from_slice(bytes).unwrap();
    request.extend_from_slice(back).unwrap();
}
