//! A blank replica of one page, served.

use outer_memory::{FaultPlan, MemorySource, NoFaultSink, NoFaultSource};
use outer_traits::{Sink, Source};
use replica_node::{ReplicaNode, VolumeSize};
use replica_serve::{ServeError, serve_replica};
use std::alloc::Global;
use std::sync::Wait;
use std::test::Fail;

/// How serving ends.
pub(crate) type End = Result<(), ServeError>;

/// Serves what a source gives.
pub(crate) fn serve<S: Source, K: Sink>(
    rt: &impl Wait,
    alloc: Global,
    source: &mut S,
    sink: &mut K,
) -> Result<End, Fail> {
    let node = ReplicaNode::blank(alloc, VolumeSize::new(2_097_152)?)?;
    Ok(serve_replica(rt, alloc, source, sink, node))
}

/// Serves an input of which each read gives at most so many bytes.
pub(crate) fn serve_pieces(
    rt: &impl Wait,
    alloc: Global,
    input: &[u8],
    most: usize,
) -> Result<(End, NoFaultSink), Fail> {
    if most == 0 {
        return Err(Fail::new("no bytes"));
    }
    let mut source = NoFaultSource::new(input.to_vec(alloc)?, most);
    let mut sink = NoFaultSink::new(alloc, 1_000_000);
    let end = serve(rt, alloc, &mut source, &mut sink)?;
    Ok((end, sink))
}

/// The same, where a read fails once so many gave bytes.
pub(crate) fn serve_failing(
    rt: &impl Wait,
    alloc: Global,
    input: &[u8],
    most: usize,
    before: u64,
) -> Result<(End, NoFaultSink), Fail> {
    if most == 0 {
        return Err(Fail::new("no bytes"));
    }
    let plan = FaultPlan::new(Vec::from_slice(alloc, &[before.saturating_add(1)])?);
    let mut source = MemorySource::new(input.to_vec(alloc)?, most, plan);
    let mut sink = NoFaultSink::new(alloc, 1_000_000);
    let end = serve(rt, alloc, &mut source, &mut sink)?;
    Ok((end, sink))
}
