//! What a replica's head reads as, as bytes of a call.

ghost use Rattle.std.specs.Prelude.{◌≡◌, ◌+◌, ◌≤◌, length, IfOk};
ghost use Rattle.vol_units.specs.Bytes.{bytes_at};

use replica_node::ReplicaNode;
use std::alloc::{AllocError, Global};
use step_answers::Buffer;
use volume_model::Bytes;

/// So many bytes from a place on. Who clones them copies none.
pub fn read_of(
    alloc: Global,
    node: &mut ReplicaNode,
    at: usize,
    count: usize,
) -> Result<Bytes, AllocError>
    requires { at + count ≤ length node.old.disk }
    ensures bytes { IfOk result (λ b. b ≡ bytes_at node.old.disk at count) }
    ensures same { node.new ≡ node.old }
{
    let mut bytes = Vec::with_capacity(alloc, count)?;
    node.append_bytes(at, count, &mut bytes)?;
    Ok(Bytes::from_vec(bytes)?)
}

/// Those from a place on, as many as the buffer has. It takes no memory.
pub fn read_into(buffer: &mut Buffer, node: &mut ReplicaNode, at: usize)
    requires { at + length buffer.old ≤ length node.old.disk }
    ensures bytes { buffer.new ≡ bytes_at node.old.disk at (length buffer.old) }
    ensures same { node.new ≡ node.old }
{
    node.read_bytes(None, at, &mut buffer.bytes);
}
