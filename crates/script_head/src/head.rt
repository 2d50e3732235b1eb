ghost use Rattle.std.specs.Prelude.{◌≡◌, IfOk, IfErr};
ghost use Rattle.serde_json.specs.View.{view};
ghost use Rattle.script_head.specs.Answers.{IsOnlyAnswer};
ghost use Rattle.script_head.specs.Head.{byte_count, command_count, Says, RefusesLine, AnswersLine};
ghost use Rattle.script_head.specs.Members.{backs_up};
ghost use Rattle.script_head.specs.Refusals.{AnswersObject};

use crate::error::HeadError;
use crate::line_plan::LinePlan;
use crate::lines::lines_in;
use crate::member::Member;
use crate::members;
use crate::streams::has_backup;
use serde_json::Value;
use std::alloc::Global;
use vol_units::{PlainName, TimeText, VolumeSize};
use volume_model::{Command, Sequence};

/// What the first line says of one stream.
#[derive(Debug, Drop)]
pub enum StreamHead {
    /// It has so many bytes of frames.
    Frames(u64),
    /// It has these commands, and no bytes of the input.
    Control(Sequence<Command>),
}

impl StreamHead {
    /// How many bytes of the input the stream has.
    pub fn byte_count(&self) -> u64
        ensures { result ≡ byte_count self.now }
    {
        match self {
            StreamHead::Frames(count) => *count,
            StreamHead::Control(_) => 0,
        }
    }

    /// How many commands the stream has.
    pub fn command_count(&self) -> u64
        ensures { result ≡ command_count self.now }
    {
        match self {
            StreamHead::Frames(_) => 0,
            StreamHead::Control(commands) => commands.len() as u64,
        }
    }

    /// Whether a backup is among its commands.
    pub fn backs_up(&self) -> bool
        ensures { result ≡ backs_up self.now }
    {
        match self {
            StreamHead::Frames(_) => false,
            StreamHead::Control(commands) => has_backup(commands.as_slice()),
        }
    }
}

/// What the first line of a script says.
#[derive(Debug, Drop)]
pub struct ScriptHead {
    pub streams: Sequence<StreamHead>,
    /// The lines that fail, no line twice.
    pub lines: Sequence<LinePlan>,
    pub now: TimeText,
    pub volume: PlainName,
    pub size: VolumeSize,
    pub replicas: u8,
    /// The run begins with the replicas' folders.
    pub opens: bool,
    /// The run leaves the replicas in their folders.
    pub saves: bool,
}

/// What the first line of a script says, its line feed left out.
pub fn read_head(alloc: Global, line: &[u8]) -> Result<ScriptHead, HeadError>
    ensures found { IfOk result (Says line.now) }
    ensures refused { IfErr result (RefusesLine line.now) }

    // Unless memory runs out, no other answer is true of the line.
    ensures only { IsOnlyAnswer HeadError.NoMemory (AnswersLine line.now) result }
{
    head_of(alloc, line)
}

fn head_of(alloc: Global, line: &[u8]) -> Result<ScriptHead, HeadError>
    ensures { AnswersLine line.now result }
{
    let value = Value::from_slice(alloc, line)?;
    if !value.is_object() {
        return Err(HeadError::Json);
    }
    head_in(alloc, &value)
}

/// What the members of the line say.
fn head_in(alloc: Global, line: &Value) -> Result<ScriptHead, HeadError>
    ensures { AnswersObject (view line.now) result }
{
    let volume = members::volume_in(line)?;
    let size = members::size_in(line)?;
    let replicas = members::replicas_in(line)?;
    let opens = members::flag_in(line, "open", Member::Open)?;
    let saves = members::flag_in(line, "save", Member::Save)?;
    let now = members::now_in(alloc, line)?;
    let streams = members::streams_in(alloc, line, replicas)?;
    let lines = lines_in(alloc, line, streams.len() as u8, replicas)?;
    Ok(ScriptHead {
        streams,
        lines,
        now,
        volume,
        size,
        replicas,
        opens,
        saves,
    })
}
