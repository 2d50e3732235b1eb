//! `longhorn`: serves the streams of a script on a replicated volume, and prints the journal of the run
//! with the replies; runs a load that generates itself, and sums it up; serves one replica by frames; serves sessions that
//! come by a port, side by side, on a fresh volume; or writes what a store of backups holds.
#![tactic(auto)]

mod begin;
mod edge;
mod finish;
mod laws;
mod load;
mod replica;
mod serve;
mod standard;
mod status;
mod stores;
#[cfg(test)]
mod tests;
mod top;

use crate::status::Status;
use fault_lines::PlanWiring;
use folder_target::FolderTarget;
use outer_real::{FolderShelves, OpenGate, StdSink, StdSource};
use std::io;
use std::process::ExitCode;
use tcp_doors::TcpEnds;

/// The folder that the replicas' folders lie in.
const REPLICAS: &str = "replicas";

/// The folder that the store of backups lies in.
const STORE_BASE: &str = ".";

fn main(rt: HostRuntime) -> ExitCode {
    let status = match standard::words(&rt) {
        Ok(words) => match (
            FolderShelves::new(&rt, REPLICAS),
            FolderTarget::new(&rt, STORE_BASE),
        ) {
            (Ok(mut shelves), Ok(mut target)) => {
                let mut source = StdSource::new(rt.reader());
                let mut sink = StdSink::new(io::writer(&rt));
                let mut wiring = PlanWiring::new(rt.alloc());
                let mut doors = TcpEnds::new(&rt);
                top::longhorn(
                    &rt,
                    rt.alloc(),
                    &words,
                    &mut source,
                    &mut sink,
                    &mut wiring,
                    &mut shelves,
                    &mut target,
                    &OpenGate,
                    &mut doors,
                )
            }
            _ => Status::NoMemory,
        },
        Err(status) => status,
    };
    standard::note(&rt, &status);
    status.exit_code()
}
