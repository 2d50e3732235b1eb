ghost use Rattle.std.specs.Prelude.{◌≡◌, ◌*◌, ◌<◌, ◌≤◌, ◌∷◌, ◌++◌, [], codes, replicate, IfOk, OnOk};
ghost use Rattle.frame_stream.specs.Frames.{spelled};
ghost use Rattle.script_text.specs.Generated.{CanGenerate, next_state, drawn_in, drawn_behind, state_behind};
ghost use Rattle.script_text.specs.Generated.{page_bytes, frame_in, frames_of, control_commands, streams_from, generated};

use crate::frames::Frames;
use crate::script::{Script, Stream};
use frame_stream::{Bytes, READ, WRITE};
use frame_wire::{Head, encode_header};
use script_head::{Command, Sequence, TimeText};
use std::alloc::{AllocError, Global};
use vol_units::{LayerName, PAGE_BYTES, PlainName, SnapName, VolumeSize};

/// How many offsets within a page there are at which the largest frame ends in the page too.
const OFFSETS: u64 = 2_093_056;

/// The largest frame reads or writes a block.
const LARGEST_FRAME: u64 = 4096;

/// How many bytes are written at once.
const PIECE: usize = 256;

/// The generated script of a number: so many streams of frames, each of so many calls within a page of its own, and a
/// control stream behind them.
pub fn make_script(
    alloc: Global,
    number: u64,
    streams: u8,
    calls: u32,
) -> Result<Script, AllocError>
    requires { CanGenerate streams calls }
    ensures { IfOk result (λ script. script ≡ generated number streams calls) }
{
    Ok(Script {
        streams: make_streams(alloc, number, streams, calls)?,
        lines: Sequence::of(Vec::new(alloc)),
        now: no_time(alloc)?,
        volume: volume_name(),
        size: volume_size(streams),
        replicas: 2,
        opens: false,
        saves: false,
    })
}

fn make_streams(
    alloc: Global,
    number: u64,
    streams: u8,
    calls: u32,
) -> Result<Sequence<Stream>, AllocError>
    requires { CanGenerate streams calls }
    ensures { IfOk result (λ made. made ≡ streams_from number calls 0 streams) }
{
    let mut made = Vec::with_capacity(alloc, streams as usize + 1)?;
    for page in 0..streams {
        made.push(Stream::Frames(make_frames(alloc, number, page, calls)?))?;
    }
    made.push(Stream::Control(make_commands(alloc)?))?;
    Ok(Sequence::of(made))
}

/// The frames of the stream that has this page. Their data is a part of the stream's bytes.
fn make_frames(alloc: Global, number: u64, page: u8, calls: u32) -> Result<Frames, AllocError>
    requires page { page < 15 }
    requires calls { calls ≤ 4096 }
    ensures { IfOk result (λ frames. frames ≡ frames_of number calls page) }
{
    let mut generator = Generator {
        state: number.wrapping_add(u64::from(page)),
    };
    let mut bytes = Vec::new(alloc);
    for index in 0..calls {
        let drawn = generator.draw_frame();
        let head = head_in(page, index + 1, &drawn);
        append_frame(&head, drawn.byte, &mut bytes)?;
    }
    Ok(Frames::of(calls as usize, Bytes::from_vec(bytes)?))
}

/// Appends a frame whose data is one byte, over and over.
fn append_frame(head: &Head, byte: u8, bytes: &mut Vec<u8>) -> Result<(), AllocError>
    ensures { OnOk result (bytes.new.items ≡ bytes.old.items
        ++ spelled (record { head = head.now; body = replicate head.now.len byte })) }
{
    bytes.extend_from_slice(&encode_header(head))?;
    append_same(byte, head.len as usize, bytes)
}

/// Appends one byte so many times, many of them at once.
fn append_same(byte: u8, count: usize, bytes: &mut Vec<u8>) -> Result<(), AllocError>
    ensures { OnOk result (bytes.new.items ≡ bytes.old.items ++ replicate count byte) }
{
    let piece = [byte; PIECE];
    for _i in 0..count / PIECE {
        bytes.extend_from_slice(&piece)?;
    }
    bytes.extend_from_slice(&piece[..count % PIECE])
}

/// The header of the frame that four numbers make in a page.
fn head_in(page: u8, seq: u32, drawn: &Drawn) -> Head
    requires page { page < 15 }
    requires offset { drawn.now.offset < OFFSETS }
    ensures { frame_in page seq drawn.now
        ≡ record { head = result; body = replicate result.len drawn.now.byte } }
{
    let (kind, len) = match drawn.choice {
        0 => (READ, 0),
        _ => (WRITE, drawn.size),
    };
    Head {
        seq,
        kind,
        offset: i64::from(u32::from(page) * PAGE_BYTES as u32 + drawn.offset),
        size: drawn.size,
        len,
    }
}

fn make_commands(alloc: Global) -> Result<Sequence<Command>, AllocError>
    ensures { IfOk result (λ commands. commands ≡ control_commands) }
{
    let name = snap_name();
    let commands = vec![in alloc;
        Command::Snapshot(name),
        Command::Fail(1),
        Command::Add(1),
        Command::Remove(LayerName::from(name)),
        Command::Purge,
    ]?;
    Ok(Sequence::of(commands))
}

fn snap_name() -> SnapName
    ensures { result ≡ codes "g" }
{
    match SnapName::read(b"g") {
        Ok(name) => name,
        Err(_) => unreachable!(),
    }
}

fn volume_name() -> PlainName
    ensures { result ≡ codes "gen" }
{
    match PlainName::read(b"gen") {
        Ok(name) => name,
        Err(_) => unreachable!(),
    }
}

/// A page for each stream of frames.
fn volume_size(streams: u8) -> VolumeSize
    requires { (1 ≤ streams) × (streams ≤ 15) }
    ensures { result ≡ streams * page_bytes }
{
    match VolumeSize::new(u64::from(streams) * PAGE_BYTES) {
        Ok(size) => size,
        Err(_) => unreachable!(),
    }
}

/// A time that says nothing.
fn no_time(alloc: Global) -> Result<TimeText, AllocError>
    ensures { IfOk result (λ time. time ≡ []) }
{
    match TimeText::read(alloc, "")? {
        Some(time) => Ok(time),
        None => unreachable!(),
    }
}

/// The four numbers that make a frame.
#[derive(Debug, Drop)]
struct Drawn {
    /// The frame is a read where it is 0, and else a write.
    choice: u64,
    /// Where in its page the frame begins.
    offset: u32,
    /// How many bytes it reads or writes.
    size: u32,
    /// The byte that it writes.
    byte: u8,
}

/// A linear congruence, by the numbers of Knuth's MMIX.
#[derive(Debug, Drop)]
struct Generator {
    state: u64,
}

impl Generator {
    /// The next number: the upper 31 bits of the next state.
    fn draw(&mut self) -> u64
        ensures state { self.new.state ≡ next_state self.old.state }
        ensures drawn { result ≡ drawn_in self.new.state }
    {
        self.state = self
            .state
            .wrapping_mul(6_364_136_223_846_793_005)
            .wrapping_add(1_442_695_040_888_963_407);
        self.state >> 33
    }

    /// The numbers of the next frame.
    fn draw_frame(&mut self) -> Drawn
        ensures state { self.new.state ≡ state_behind self.old.state }
        ensures drawn { result ≡ drawn_behind self.old.state }
    {
        let choice = self.draw() % 4;
        let offset = self.draw() % OFFSETS;
        let size = 1 + self.draw() % LARGEST_FRAME;
        let byte = self.draw() % 256;
        Drawn {
            choice,
            offset: offset as u32,
            size: size as u32,
            byte: byte as u8,
        }
    }
}
