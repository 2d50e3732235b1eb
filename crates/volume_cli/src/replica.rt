//! One replica, served by itself.

ghost use Rattle.std.specs.Prelude.{◌≡◌};
ghost use Rattle.replica_serve.specs.Ends.{HasServed, ServeCounts};
ghost use Rattle.volume_model.specs.Disk.{zeros};
ghost use Rattle.volume_cli.specs.Served.{serve_status};

use crate::status::Status;
use outer_traits::{Sink, Source};
use replica_node::ReplicaNode;
use replica_serve::{ServeError, serve_replica};
use std::alloc::Global;
use std::sync::Wait;
use vol_units::VolumeSize;

/// Serves a blank replica of that size to the client whose frames the source gives, and writes the replies to the sink.
pub(crate) fn serve_blank<R: Wait, S: Source, K: Sink>(
    rt: &R,
    alloc: Global,
    size: VolumeSize,
    source: &mut S,
    sink: &mut K,
) -> Result<(), ServeError>
    ensures served { HasServed (zeros size) (S.left source.old) (K.contents sink.old) (K.contents sink.new) result }
    ensures counts { ServeCounts result (S.faults source.old) (S.faults source.new)
        (K.faults sink.old) (K.faults sink.new) }
{
    let node = ReplicaNode::blank(alloc, size)?;
    serve_replica(rt, alloc, source, sink, node)
}

/// The status of a serving that ended so.
pub(crate) fn how_served(served: Result<(), ServeError>) -> Status
    ensures { result ≡ serve_status served }
{
    match served {
        Ok(()) => Status::Done,
        Err(ServeError::ReadFault) => Status::ReadFault,
        Err(ServeError::WriteFault) => Status::WriteFault,
        Err(ServeError::Frame(place)) => Status::Frame { place },
        Err(ServeError::NoMemory) => Status::NoMemory,
    }
}
