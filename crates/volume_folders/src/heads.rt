ghost use Rattle.std.specs.Prelude.{◌≡◌, IfOk};
ghost use Rattle.volume_folders.specs.Heads.{head_at, head_meta};
ghost use Rattle.volume_folders.specs.Steps.{head_read};

use crate::reason::Reason;
use replica_node::ReplicaNode;
use replica_shelf::{HeadMeta, TimeText};
use std::alloc::{AllocError, Global};

/// A head that was opened, by its number, and what is told of it.
#[derive(Debug, Drop)]
pub struct OpenedHead {
    pub number: u64,
    pub meta: HeadMeta,
}

/// What is kept of the head of a replica: nothing where it is not read.
pub(crate) fn head_read(
    node: &ReplicaNode,
    meta: HeadMeta,
    why: &Option<Reason>,
) -> Option<OpenedHead>
    ensures { result ≡ head_read node.now.number meta why.now }
{
    match why {
        None => Some(OpenedHead {
            number: node.head_number(),
            meta,
        }),
        Some(_) => None,
    }
}

/// What is told of the head of a replica that is saved on a shelf: what was told when it was
/// opened, where it is that head still.
pub(crate) fn head_meta(
    alloc: Global,
    time: &TimeText,
    heads: &[Option<OpenedHead>],
    shelf: u8,
    node: &ReplicaNode,
) -> Result<HeadMeta, AllocError>
    ensures { IfOk result (λ meta. meta ≡ head_meta time.now (head_at heads.now shelf) node.now.number) }
{
    if let Some(Some(head)) = heads.get(usize::from(shelf)) {
        if head.number == node.head_number() {
            return head.meta.copied(alloc);
        }
    }
    HeadMeta::made_at(alloc, time)
}
