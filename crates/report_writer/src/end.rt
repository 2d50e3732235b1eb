ghost use Rattle.std.specs.Prelude.{◌≡◌, ◌+◌, ◌<◌, ◌++◌, length, map, IfOk, OnOk};
ghost use Rattle.run_report.specs.Report.{mode_lines};
ghost use Rattle.replica_node.specs.Volume.{volume_of_node};
ghost use Rattle.report_writer.specs.Written.{end_text, replica_line, replica_lines};

use crate::digests::Digests;
use replica_node::ReplicaNode;
use run_report::{print_chain, print_head, print_mode};
use std::alloc::{AllocError, Global};
use volume_model::Mode;

/// What a line at the end tells of a replica that is read and written.
#[derive(Clone, Copy)]
pub(crate) enum EndLine {
    Chain,
    /// The digest of its head.
    Digest,
}

/// The text of what a run leaves of replicas of these modes: the mode of each, and the chain and the head's digest of each
/// that is read and written.
pub(crate) fn print_end(
    alloc: Global,
    modes: &[Mode],
    replicas: &[ReplicaNode],
) -> Result<Vec<u8>, AllocError>
    requires few { length modes.now < 256 }
    requires each { length replicas.now ≡ length modes.now }
    ensures { IfOk result (λ text. text.items ≡ end_text modes.now (map volume_of_node replicas.now)) }
{
    let mut text = Vec::new(alloc);
    // The memory for the digests is taken first: from there on no digest takes any.
    let mut digests = Digests::with_capacity(alloc, replicas.len())?;
    print_modes(0, modes, &mut text)?;
    print_each(
        alloc,
        EndLine::Chain,
        0,
        modes,
        replicas,
        &mut digests,
        &mut text,
    )?;
    print_each(
        alloc,
        EndLine::Digest,
        0,
        modes,
        replicas,
        &mut digests,
        &mut text,
    )?;
    Ok(text)
}

/// The modes of the replicas, the first of which is `r`.
fn print_modes(r: u8, modes: &[Mode], into: &mut Vec<u8>) -> Result<(), AllocError>
    requires { r + length modes.now < 256 }
    ensures { OnOk result (into.new.items ≡ into.old.items ++ mode_lines r modes.now) }
{
    let [mode, rest @ ..] = modes else {
        return Ok(());
    };
    print_mode(r, *mode, into)?;
    print_modes(r + 1, rest, into)
}

/// A line of this kind for each that is read and written.
fn print_each<'a>(
    alloc: Global,
    kind: EndLine,
    r: u8,
    modes: &[Mode],
    replicas: &'a [ReplicaNode],
    digests: &mut Digests<'a>,
    into: &mut Vec<u8>,
) -> Result<(), AllocError>
    requires few { r + length modes.now < 256 }
    requires each { length replicas.now ≡ length modes.now }
    ensures { OnOk result (into.new.items
        ≡ into.old.items ++ replica_lines kind r modes.now (map volume_of_node replicas.now)) }
{
    let ([mode, modes @ ..], [replica, replicas @ ..]) = (modes, replicas) else {
        return Ok(());
    };
    match mode {
        Mode::Rw => print_line(alloc, kind, r, replica, digests, into)?,
        Mode::Wo | Mode::Err => {}
    }
    print_each(alloc, kind, r + 1, modes, replicas, digests, into)
}

fn print_line<'a>(
    alloc: Global,
    kind: EndLine,
    r: u8,
    replica: &'a ReplicaNode,
    digests: &mut Digests<'a>,
    into: &mut Vec<u8>,
) -> Result<(), AllocError>
    ensures { OnOk result (into.new.items
        ≡ into.old.items ++ replica_line kind r (volume_of_node replica.now)) }
{
    match kind {
        EndLine::Chain => print_chain(Some(r), &replica.chain(alloc)?, into),
        EndLine::Digest => print_head(r, &digests.of(replica)?, into),
    }
}
