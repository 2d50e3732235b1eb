//! Doors that are a TCP port: who connects is a session.
#![tactic(auto)]

mod tcp_ends;

pub use tcp_ends::TcpEnds;
