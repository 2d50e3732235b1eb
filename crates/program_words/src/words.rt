ghost use Rattle.std.specs.Prelude.{◌≡◌, None, Some, map, IfOk, IsErrOf, codes, string_bytes};
ghost use Rattle.clap.specs.Words.{first_of, found_of, kind_of, rows_of, subcommand_rows_of};
ghost use Rattle.program_words.specs.Asked.{asked_at, asked_by, asked_named, backups_of, generate_of, name_at, number_at};
ghost use Rattle.program_words.specs.Asked.{plain_name, replica_of, restore_of, run_of, serve_at, serve_of, workers_named};
ghost use Rattle.program_words.specs.Asked.{workers_of, IsErrorOf};
ghost use Rattle.program_words.specs.declared.words.WordsError.TheVariants.{NoMemory};

use crate::address::Address;
use crate::numbers::{calls_of, number_of, replicas_of, sessions_of, size_of, streams_of};
use crate::program::command;
use clap::ArgMatches;
use clap::error::ErrorKind;
use std::alloc::{AllocError, Global};
use vol_units::{PlainName, VolumeSize};

/// Who serves the streams of a script.
#[derive(Clone, Copy, Debug, PartialEq, Eq)]
pub enum Workers {
    /// One worker, stream after stream.
    One,
    /// A worker for each stream.
    Each,
}

/// What the program is asked to do.
#[derive(Debug, Drop, PartialEq, Eq)]
pub enum Words {
    /// To run a script.
    Run {
        workers: Workers,
    },
    /// To write the disk that a volume's backup has.
    Restore {
        backup: PlainName,
        volume: PlainName,
    },
    /// To list a volume's backups.
    Backups {
        volume: PlainName,
    },
    /// To serve one blank replica.
    Replica {
        size: VolumeSize,
    },
    /// To run the script that a number makes: so many streams, each of so many calls.
    Generate {
        number: u64,
        streams: u8,
        calls: u32,
    },
    /// To serve a fresh volume of so many replicas to so many sessions.
    Serve {
        address: Address,
        size: VolumeSize,
        replicas: u8,
        sessions: u8,
    },
}

/// Why nothing is asked.
#[derive(Clone, Copy, Debug, PartialEq, Eq)]
pub enum WordsError {
    /// The words ask for nothing that there is.
    Usage,
    /// Memory ran out.
    NoMemory,
}

impl From<AllocError> for WordsError {
    ghost from_gives = { λ _ e. e ≡ NoMemory };

    fn from(_e: AllocError) -> WordsError {
        WordsError::NoMemory
    }
}

impl From<clap::Error> for WordsError {
    ghost from_gives = { λ refusal e. IsErrorOf (kind_of refusal) e };

    fn from(refusal: clap::Error) -> WordsError {
        match refusal.kind() {
            ErrorKind::OutOfMemory => WordsError::NoMemory,
            _ => WordsError::Usage,
        }
    }
}

/// What the words behind the program's name ask for. Want of memory alone is free.
pub fn read_words(alloc: Global, words: &[String]) -> Result<Words, WordsError>
    ensures found { IfOk result (λ asked. asked_by (map string_bytes words.now) ≡ Some asked) }
    ensures usage { IsErrOf result WordsError.Usage → asked_by (map string_bytes words.now) ≡ None }
{
    let matches = command(alloc)?.try_get_matches_from(words)?;
    match words_in(alloc, &matches)? {
        Some(asked) => Ok(asked),
        None => Err(WordsError::Usage),
    }
}

/// What the matches of the program ask for.
fn words_in(alloc: Global, matches: &ArgMatches<'_>) -> Result<Option<Words>, AllocError>
    ensures { IfOk result (λ asked. asked ≡ asked_named (subcommand_rows_of matches.now)) }
{
    match matches.subcommand() {
        None => Ok(None),
        Some((name, arguments)) => asked_at(alloc, name, arguments),
    }
}

/// What the subcommand of this name asks for, with these arguments.
fn asked_at(
    alloc: Global,
    name: &str,
    arguments: &ArgMatches<'_>,
) -> Result<Option<Words>, AllocError>
    ensures { IfOk result (λ asked. asked ≡ asked_at name.now (rows_of (found_of arguments.now))) }
{
    match name {
        "run" => Ok(run_in(arguments)),
        "restore" => Ok(restore_in(arguments)),
        "backups" => Ok(backups_in(arguments)),
        "replica" => Ok(replica_in(arguments)),
        "gen" => Ok(generate_in(arguments)),
        "serve" => serve_in(alloc, arguments),
        _ => Ok(None),
    }
}

fn run_in(arguments: &ArgMatches<'_>) -> Option<Words>
    ensures { result ≡ run_of (rows_of (found_of arguments.now)) }
{
    let workers = workers_in(arguments)?;
    Some(Words::Run { workers })
}

fn restore_in(arguments: &ArgMatches<'_>) -> Option<Words>
    ensures { result ≡ restore_of (rows_of (found_of arguments.now)) }
{
    let backup = name_in(arguments, "backup")?;
    let volume = name_in(arguments, "volume")?;
    Some(Words::Restore { backup, volume })
}

fn backups_in(arguments: &ArgMatches<'_>) -> Option<Words>
    ensures { result ≡ backups_of (rows_of (found_of arguments.now)) }
{
    let volume = name_in(arguments, "volume")?;
    Some(Words::Backups { volume })
}

fn replica_in(arguments: &ArgMatches<'_>) -> Option<Words>
    ensures { result ≡ replica_of (rows_of (found_of arguments.now)) }
{
    let bytes = number_in(arguments, "size")?;
    let size = size_of(bytes)?;
    Some(Words::Replica { size })
}

fn generate_in(arguments: &ArgMatches<'_>) -> Option<Words>
    ensures { result ≡ generate_of (rows_of (found_of arguments.now)) }
{
    let number = number_in(arguments, "number")?;
    let streams = streams_of(number_in(arguments, "streams")?)?;
    let calls = calls_of(number_in(arguments, "calls")?)?;
    Some(Words::Generate {
        number,
        streams,
        calls,
    })
}

#[tactic(auto, using(crate::proofs::AskedLemmas::first_values))]
fn serve_in(alloc: Global, arguments: &ArgMatches<'_>) -> Result<Option<Words>, AllocError>
    ensures { IfOk result (λ asked. asked ≡ serve_of (rows_of (found_of arguments.now))) }
{
    match arguments.get_str("address") {
        None => Ok(None),
        Some(text) => {
            let address = Address::of(alloc, text)?;
            Ok(serve_at(address, arguments))
        }
    }
}

fn serve_at(address: Address, arguments: &ArgMatches<'_>) -> Option<Words>
    ensures { result ≡ serve_at address (rows_of (found_of arguments.now)) }
{
    let size = size_of(number_in(arguments, "size")?)?;
    let replicas = replicas_of(number_in(arguments, "replicas")?)?;
    let sessions = sessions_of(number_in(arguments, "sessions")?)?;
    Some(Words::Serve {
        address,
        size,
        replicas,
        sessions,
    })
}

/// The number that is given for an argument, if one is given.
#[tactic(auto, using(crate::proofs::AskedLemmas::first_values))]
fn number_in(arguments: &ArgMatches<'_>, id: &str) -> Option<u64>
    ensures { result ≡ number_at id.now (rows_of (found_of arguments.now)) }
{
    let text = arguments.get_str(id)?;
    number_of(text)
}

/// The name that is given for an argument, if one is given.
#[tactic(auto, using(crate::proofs::AskedLemmas::first_values))]
fn name_in(arguments: &ArgMatches<'_>, id: &str) -> Option<PlainName>
    ensures { result ≡ name_at id.now (rows_of (found_of arguments.now)) }
{
    let text = arguments.get_str(id)?;
    name_of(text)
}

fn name_of(text: &str) -> Option<PlainName>
    ensures { result ≡ plain_name text.now }
{
    PlainName::read(text.as_bytes()).ok()
}

/// Who is to serve, by the options of `run`.
#[tactic(auto, using(crate::proofs::AskedLemmas::first_values))]
fn workers_in(arguments: &ArgMatches<'_>) -> Option<Workers>
    ensures { result ≡ workers_of (first_of (codes "workers") (rows_of (found_of arguments.now))) }
{
    match arguments.get_str("workers") {
        None => Some(Workers::Each),
        Some(value) => workers_named(value),
    }
}

fn workers_named(value: &str) -> Option<Workers>
    ensures { result ≡ workers_named value.now }
{
    match value {
        "one" => Some(Workers::One),
        "each" => Some(Workers::Each),
        _ => None,
    }
}
