ghost use Rattle.std.specs.Prelude.{◌≡◌, ◌≢◌, ◌==◌, ℕ, ◌<◌, ◌++◌, length, take, decimal, position, IfOk, IfErr, OnOk, OnErr, IfSome, IfNone};
ghost use Rattle.volume_model.specs.Commands.{command_text, IsCommand, IsNoCommand, IsOfBackup, IsOfNoBackup, HasNoBlank, ArePartsOf};

use itoa::Buffer;
use std::alloc::AllocError;
use thiserror::Error;
use vol_units::{BadName, LayerName, PlainName, SnapName};

/// What a control stream asks of the volume.
#[derive(Clone, Copy, Debug, PartialEq, Eq)]
pub enum Command {
    /// Keeps what the volume reads as under a name.
    Snapshot(SnapName),
    /// Marks a snapshot as one that is to be removed.
    Remove(LayerName),
    /// Lets the volume read as a snapshot does.
    Revert(LayerName),
    /// Takes out the layers that are to be removed, as far as that goes.
    Purge,
    /// How many layers there are, and the mode of each replica.
    Status,
    /// Lets the replica of that number fail.
    Fail(u8),
    /// Lets the replica of that number, which failed, be rebuilt.
    Add(u8),
    /// Backs a snapshot up, under the name of the backup.
    Backup {
        backup: PlainName,
        snapshot: LayerName,
    },
}

/// A text that is no command.
#[derive(Clone, Copy, Debug, PartialEq, Eq, Error)]
#[error("the text is no command")]
pub struct BadCommand;

impl Command {
    /// The command that a text is.
    pub fn read(text: &[u8]) -> Result<Command, BadCommand>
        ensures found { IfOk result (IsCommand text.now) }
        ensures refused { IfErr result (λ _. IsNoCommand text.now) }
    {
        if text == b"status".as_slice() {
            return Ok(Command::Status);
        }
        if text == b"purge".as_slice() {
            return Ok(Command::Purge);
        }
        if let Some(name) = text.strip_prefix(b"snapshot ") {
            return Ok(Command::Snapshot(SnapName::read(name)?));
        }
        if let Some(name) = text.strip_prefix(b"remove ") {
            return Ok(Command::Remove(LayerName::read(name)?));
        }
        if let Some(name) = text.strip_prefix(b"revert ") {
            return Ok(Command::Revert(LayerName::read(name)?));
        }
        if let Some(number) = text.strip_prefix(b"fail r") {
            return Ok(Command::Fail(digit_in(number).ok_or(BadCommand)?));
        }
        if let Some(number) = text.strip_prefix(b"add r") {
            return Ok(Command::Add(digit_in(number).ok_or(BadCommand)?));
        }
        if let Some(names) = text.strip_prefix(b"backup ") {
            return backup_of(names);
        }
        Err(BadCommand)
    }

    /// Appends the text of the command, or nothing where memory runs out.
    pub fn append_to(&self, into: &mut Vec<u8>) -> Result<(), AllocError>
        ensures ok { OnOk result (into.new.items ≡ into.old.items ++ command_text self.now) }
        ensures err { OnErr result (into.new.items ≡ into.old.items) }
    {
        let len = into.len();
        let appended = self.append_parts(into);
        if appended.is_err() {
            into.truncate(len);
        }
        appended
    }

    /// Appends the text, or where memory runs out what there is room for.
    fn append_parts(&self, into: &mut Vec<u8>) -> Result<(), AllocError>
        ensures ok { OnOk result (into.new.items ≡ into.old.items ++ command_text self.now) }
        ensures err { OnErr result (take (length into.old.items) into.new.items ≡ into.old.items) }
    {
        let mut digits = Buffer::new();
        let (word, name, blank, other) = self.parts(&mut digits);
        into.extend_from_slice(word)?;
        into.extend_from_slice(name)?;
        into.extend_from_slice(blank)?;
        into.extend_from_slice(other)
    }

    /// The command's word with what stands behind it up to its name or number, that name or number, and of a backup the
    /// blank behind it and the snapshot's name. What the command has not is empty.
    fn parts<'a>(&'a self, digits: &'a mut Buffer) -> (&'a [u8], &'a [u8], &'a [u8], &'a [u8])
        ensures { result.0.now ++ (result.1.now ++ (result.2.now ++ result.3.now)) ≡ command_text self.now }
    {
        match self {
            Command::Snapshot(name) => (b"snapshot ", name.as_bytes(), b"", b""),
            Command::Remove(name) => (b"remove ", name.as_bytes(), b"", b""),
            Command::Revert(name) => (b"revert ", name.as_bytes(), b"", b""),
            Command::Purge => (b"purge", b"", b"", b""),
            Command::Status => (b"status", b"", b"", b""),
            Command::Fail(replica) => (b"fail r", digits.format(*replica).as_bytes(), b"", b""),
            Command::Add(replica) => (b"add r", digits.format(*replica).as_bytes(), b"", b""),
            Command::Backup { backup, snapshot } => {
                (b"backup ", backup.as_bytes(), b" ", snapshot.as_bytes())
            }
        }
    }
}

/// The backup that two names ask, which one blank parts: its own name and that of the snapshot.
fn backup_of(names: &[u8]) -> Result<Command, BadCommand>
    ensures found { IfOk result (IsOfBackup names.now) }
    ensures refused { IfErr result (λ _. IsOfNoBackup names.now) }
{
    let Some((backup, snapshot)) = parted(names) else {
        return Err(BadCommand);
    };
    let backup = PlainName::read(backup)?;
    let snapshot = LayerName::read(snapshot)?;
    Ok(Command::Backup { backup, snapshot })
}

/// What stands before the first blank of a text, and what stands behind it.
fn parted(text: &[u8]) -> Option<(&[u8], &[u8])>
    ensures some { IfSome result (λ parts. ArePartsOf text.now parts.0.now parts.1.now) }
    ensures none { IfNone result (HasNoBlank text.now) }
{
    match first_blank(text) {
        Some(blank) => Some((&text[..blank], &text[blank + 1..])),
        None => None,
    }
}

/// The place of the first blank.
fn first_blank(text: &[u8]) -> Option<usize>
    ensures place { result ≡ position (λ byte. byte == 32) text.now }
    ensures within { IfSome result (λ n. n < length text.now) }
{
    text.iter().position(|byte| *byte == b' ')
}

/// The number that one digit is.
fn digit_in(text: &[u8]) -> Option<u8>
    ensures some { IfSome result (λ n. (n < 10) × (text.now ≡ decimal n)) }
    ensures none { IfNone result ((n : ℕ) → n < 10 → text.now ≢ decimal n) }
{
    match text {
        [byte] if byte.is_ascii_digit() => Some(*byte - b'0'),
        _ => None,
    }
}

impl From<BadName> for BadCommand {
    fn from(_e: BadName) -> BadCommand {
        BadCommand
    }
}
