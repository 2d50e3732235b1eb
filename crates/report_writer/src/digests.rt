ghost use Rattle.std.specs.Prelude.{◌≡◌, ◌↔◌, ◌≤◌, IsTrue, IfOk, vec_capacity};
ghost use Rattle.digest.specs.Digest.{digest_text};

use digest::Digest;
use replica_node::ReplicaNode;
use std::alloc::{AllocError, Global};

/// The digests of heads. Of heads that are equal one is digested, since that costs far more than to compare them.
#[derive(Drop)]
pub(crate) struct Digests<'a> {
    known: Vec<Known<'a>>,
}

/// A replica whose head was digested.
#[derive(Drop)]
struct Known<'a> {
    replica: &'a ReplicaNode,
    digest: [u8; 64],
    ghost exact: { digest ≡ digest_text replica.now.disk },
}

impl<'a> Digests<'a> {
    /// With memory for so many: that many take none later.
    pub fn with_capacity(alloc: Global, count: usize) -> Result<Digests<'a>, AllocError>
        ensures { IfOk result (λ digests. count ≤ vec_capacity digests.known) }
    {
        Ok(Digests {
            known: Vec::with_capacity(alloc, count)?,
        })
    }

    /// The digest of a head.
    pub fn of(&mut self, replica: &'a ReplicaNode) -> Result<[u8; 64], AllocError>
        ensures { IfOk result (λ digest. digest ≡ digest_text replica.now.disk) }
    {
        for known in self.known.iter() {
            if same_head(known.replica, replica) {
                return Ok(known.digest);
            }
        }
        let digest = digest_of_head(replica);
        self.known.push(Known { replica, digest })?;
        Ok(digest)
    }
}

/// Whether two heads read the same. It takes no memory.
fn same_head(one: &ReplicaNode, other: &ReplicaNode) -> bool
    ensures { IsTrue result ↔ (one.now.disk ≡ other.now.disk) }
{
    if one.block_count() != other.block_count() {
        return false;
    }
    for block in 0..one.block_count() {
        if !one.same_block(other, block) {
            return false;
        }
    }
    true
}

/// The digest of all bytes of a head. Each is hashed once, and none is made for a block that was never
/// written.
pub(crate) fn digest_of_head(replica: &ReplicaNode) -> [u8; 64]
    ensures { result ≡ digest_text replica.now.disk }
{
    let mut digest = Digest::new();
    for block in 0..replica.block_count() {
        digest.add(replica.block(&None, block));
    }
    digest.text()
}
