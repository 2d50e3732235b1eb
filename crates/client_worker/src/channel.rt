//! A line of the stream to one replica, and what is carried on it.

ghost use Rattle.std.specs.Prelude.{◌≡◌, ◌<◌, ◌≤◌, length, map, vec_capacity};
ghost use Rattle.client_worker.specs.Asking.{Arrives, CountsOn, TellsOf};
ghost use Rattle.client_worker.specs.Working.{KeepsChannels};

use outer_traits::Line;

/// A line to one replica, and how many exchanges were begun on it, modulo 2^32.
#[derive(Drop)]
pub struct Channel<L: Drop> {
    pub line: L,
    pub seq: u32,
}

impl<L: Line + Drop> Channel<L> {
    pub fn new(line: L) -> Channel<L>
        ensures { result.line ≡ line }
    {
        Channel { line, seq: 0 }
    }
}

/// The number of the next exchange on the line to a replica, which is begun. The request and its reply share it.
pub fn next_exchange<L: Line + Drop>(channels: &mut [Channel<L>], replica: u8) -> u32
    requires { replica < length channels.old }
    ensures count { length channels.new ≡ length channels.old }
    ensures ends { map (λ c. L.ends c.line) channels.new ≡ map (λ c. L.ends c.line) channels.old }
    ensures faults { map (λ c. L.count c.line) channels.new ≡ map (λ c. L.count c.line) channels.old }
    ensures carried { map (λ c. L.carried c.line) channels.new ≡ map (λ c. L.carried c.line) channels.old }
{
    let channel = &mut channels[replica as usize];
    channel.seq = channel.seq.wrapping_add(1);
    channel.seq
}

/// Carries a whole frame on the line to a replica, and says whether it came through: where it did not, the line has failed
/// once more. It arrives in the room, which takes no memory.
pub fn carry<L: Line + Drop>(
    channels: &mut [Channel<L>],
    replica: u8,
    frame: &[u8],
    room: &mut Vec<u8>,
) -> bool
    requires line { replica < length channels.old }
    requires frame { Arrives frame.now (vec_capacity room.old) }
    ensures keeps { KeepsChannels L.ends channels.old channels.new }
    ensures room { vec_capacity room.old ≤ vec_capacity room.new }
    ensures counts { CountsOn replica result (map (λ c. L.count c.line) channels.old)
        (map (λ c. L.count c.line) channels.new) }
    ensures tells { TellsOf replica frame.now result (map (λ c. L.carried c.line) channels.old)
        (map (λ c. L.carried c.line) channels.new) }
{
    room.clear();
    channels[replica as usize].line.carry(frame, room).is_ok()
}
