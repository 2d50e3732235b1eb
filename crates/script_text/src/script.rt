ghost use Rattle.std.specs.Prelude.{◌≡◌, ◌+◌, ◌^◌, ◌<◌, length, IfOk, IfErr};
ghost use Rattle.script_head.specs.Answers.{IsOnlyAnswer};
ghost use Rattle.script_text.specs.Refusals.{AnswersBody};
ghost use Rattle.script_text.specs.Script.{IsScript, RefusesInput, AnswersInput};
ghost use Rattle.script_text.specs.Streams.{frame_count};

use crate::error::ScriptError;
use crate::frames::Frames;
use crate::line::line_length;
use crate::streams::{other_end, read_streams, room_beside};
use crate::what::What;
use frame_stream::Bytes;
use script_head::limits::MOST_INPUT;
use script_head::{Command, LinePlan, ScriptHead, Sequence, StreamHead, TimeText, read_head};
use std::alloc::Global;
use vol_units::{PlainName, VolumeSize};

/// One stream of a script.
#[derive(Debug, Drop)]
pub enum Stream {
    /// The frames that are calls, in their order.
    Frames(Frames),
    /// The commands, in their order.
    Control(Sequence<Command>),
}

impl Stream {
    /// How many of its calls are frames.
    pub(crate) fn frame_count(&self) -> usize
        ensures { result ≡ frame_count self.now }
    {
        match self {
            Stream::Frames(frames) => frames.len(),
            Stream::Control(_) => 0,
        }
    }
}

/// What is to be run.
#[derive(Debug, Drop)]
pub struct Script {
    pub streams: Sequence<Stream>,
    /// The lines that fail, no line twice.
    pub lines: Sequence<LinePlan>,
    /// What the run writes as its time.
    pub now: TimeText,
    pub volume: PlainName,
    pub size: VolumeSize,
    pub replicas: u8,
    /// The run begins with the replicas' folders.
    pub opens: bool,
    /// The run leaves the replicas in their folders.
    pub saves: bool,
}

/// The script that an input is. Its frames share the input's bytes.
pub fn read_script(alloc: Global, input: &Bytes) -> Result<Script, ScriptError>
    ensures found { IfOk result (IsScript input.now) }
    ensures refused { IfErr result (RefusesInput input.now) }

    // Unless memory runs out, no other answer is true of the input.
    ensures only { IsOnlyAnswer ScriptError.NoMemory (AnswersInput input.now) result }
{
    script_in(alloc, input)
}

fn script_in(alloc: Global, input: &Bytes) -> Result<Script, ScriptError>
    ensures { AnswersInput input.now result }
{
    if input.len() > MOST_INPUT {
        return Err(ScriptError::Bad {
            place: MOST_INPUT as u64,
            what: What::Input,
        });
    }
    let Some(length) = line_length(input.as_slice()) else {
        return Err(ScriptError::Bad {
            place: 0,
            what: What::Line,
        });
    };
    let ScriptHead {
        streams: heads,
        lines,
        now,
        volume,
        size,
        replicas,
        opens,
        saves,
    } = read_head(alloc, &input.as_slice()[..length])?;
    let body = input.slice(length + 1..)?;
    let streams = read_body(alloc, heads, body, length as u64 + 1)?;
    Ok(Script {
        streams,
        lines,
        now,
        volume,
        size,
        replicas,
        opens,
        saves,
    })
}

/// The streams that stand behind the first line, from a place of the input to its end.
fn read_body(
    alloc: Global,
    heads: Sequence<StreamHead>,
    body: Bytes,
    place: u64,
) -> Result<Sequence<Stream>, ScriptError>
    requires { place + length body < 2 ^ 64 }
    ensures { AnswersBody place heads body result }
{
    if let Some(end) = other_end(heads.as_slice(), place, body.len()) {
        return Err(ScriptError::Bad {
            place: end,
            what: What::Rest,
        });
    }
    let Some(room) = room_beside(heads.as_slice()) else {
        return Err(ScriptError::Bad {
            place: 0,
            what: What::Calls,
        });
    };
    read_streams(alloc, heads, body, room, place)
}
