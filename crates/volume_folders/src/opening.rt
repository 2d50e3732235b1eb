ghost use Rattle.std.specs.Prelude.{◌≡◌, ◌≢◌, ◌<◌, ℕ, length, map, Some, None, IfOk, IfSome};
ghost use Rattle.std.specs.Option.{option_copied, option_map};
ghost use Rattle.outer_traits.specs.Causes.{HasOuterCause};
ghost use Rattle.folder_checks.specs.Told.{Told};
ghost use Rattle.open_calls.specs.Calls.{node_at};
ghost use Rattle.volume_folders.specs.Heads.{AnswersHeads, AreHeadsTold};
ghost use Rattle.volume_folders.specs.Reasons.{reason_at};
ghost use Rattle.volume_folders.specs.Opened.{AnswersFolders, IsKnownFolders};
ghost use Rattle.volume_folders.specs.Steps.{source_after, AreOpenedSoFar, AreKnownSoFar};

use crate::beside::open_beside;
use crate::heads::OpenedHead;
use crate::reason::Reason;
use replica_node::ReplicaNode;
use shelf_traits::{Outer, Shelves};
use std::alloc::{AllocError, Global};
use vol_units::VolumeSize;

/// The replicas of the folders, each with its head, where it is read, and why it is not.
#[derive(Drop)]
pub struct OpenedReplicas {
    pub nodes: Vec<ReplicaNode>,
    pub heads: Vec<Option<OpenedHead>>,
    pub reasons: Vec<Option<Reason>>,
}

/// What the folders of all replicas are found to be.
#[derive(Drop)]
pub enum OpenedFolders {
    /// Some folder is clean, and the lowest one is the disk.
    Volume(OpenedReplicas),
    /// None is, each for its reason.
    NoneClean(Vec<Reason>),
}

/// Opens the folder of each of so many replicas of a volume of that size. Nothing is changed.
pub fn open_replicas<S: Shelves>(
    alloc: Global,
    size: VolumeSize,
    replicas: u8,
    shelves: &mut S,
) -> Outer<OpenedFolders>
    ensures same { S.holds shelves.new ≡ S.holds shelves.old }
    ensures found { IfOk result (λ opened. Told (S.holds shelves.old) (λ files. AnswersFolders files size replicas opened)) }
    ensures known { IfOk result (IsKnownFolders size replicas) }
    ensures heads { IfOk result (λ opened. Told (S.holds shelves.old) (λ files. AnswersHeads files opened)) }
    ensures cause { HasOuterCause (S.faults shelves.old) (S.faults shelves.new) result }
{
    let (opened, source) = open_each(alloc, size, replicas, shelves)?;
    match source {
        Some(_) => Ok(OpenedFolders::Volume(opened)),
        None => Ok(OpenedFolders::NoneClean(all_reasons(alloc, opened.reasons)?)),
    }
}

/// The same, with the first that is read, if one is.
fn open_each<S: Shelves>(
    alloc: Global,
    size: VolumeSize,
    replicas: u8,
    shelves: &mut S,
) -> Outer<(OpenedReplicas, Option<usize>)>
    ensures same { S.holds shelves.new ≡ S.holds shelves.old }
    ensures found { IfOk result (λ x. Told (S.holds shelves.old)
        (λ files. AreOpenedSoFar files size x.0.nodes.items x.0.reasons.items x.1)) }
    ensures known { IfOk result (λ x. AreKnownSoFar size replicas x.0.nodes.items x.0.reasons.items x.1) }
    ensures heads { IfOk result (λ x. Told (S.holds shelves.old)
        (λ files. AreHeadsTold files x.0.reasons.items x.0.heads.items)) }
    ensures cause { HasOuterCause (S.faults shelves.old) (S.faults shelves.new) result }
{
    let mut nodes = Vec::new(alloc);
    let mut heads = Vec::new(alloc);
    let mut reasons = Vec::new(alloc);
    let mut source = None;
    for shelf in 0..replicas {
        let disk = disk_of(&nodes, source);
        let (node, head, why) = open_beside(alloc, size, disk, shelf, shelves)?;
        source = source_after(source, shelf, &why);
        nodes.push(node)?;
        heads.push(head)?;
        reasons.push(why)?;
    }
    Ok((
        OpenedReplicas {
            nodes,
            heads,
            reasons,
        },
        source,
    ))
}

/// The replica that is the disk, if one is yet.
fn disk_of(nodes: &[ReplicaNode], source: Option<usize>) -> Option<&ReplicaNode>
    requires { IfSome source (λ s. s < length nodes.now) }
    ensures { option_copied result ≡ option_map (node_at nodes.now) source }
{
    match source {
        Some(source) => Some(&nodes[source]),
        None => None,
    }
}

/// The first that is read, once the one on that shelf is opened too.
fn source_after(source: Option<usize>, shelf: u8, why: &Option<Reason>) -> Option<usize>
    ensures { result ≡ source_after source shelf why.now }
{
    match (source, why) {
        (Some(source), _) => Some(source),
        (None, None) => Some(usize::from(shelf)),
        (None, Some(_)) => None,
    }
}

/// The reasons, where there is one for each.
fn all_reasons(alloc: Global, reasons: Vec<Option<Reason>>) -> Result<Vec<Reason>, AllocError>
    requires { (r : ℕ) → r < length reasons.items → reason_at reasons.items r ≢ None }
    ensures { IfOk result (λ all. map Some all.items ≡ reasons.items) }
{
    let mut all = Vec::new(alloc);
    for reason in reasons {
        match reason {
            Some(why) => all.push(why)?,
            None => unreachable!(),
        }
    }
    Ok(all)
}
