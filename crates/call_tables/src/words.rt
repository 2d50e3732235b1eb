use crate::told::same;
use program_words::{Address, Words, WordsError, Workers, read_words};
use std::alloc::{AllocError, Global};
use std::process::Abort;
use std::test::Fail;
use vol_units::{PlainName, VolumeSize};

type Read = Result<Words, WordsError>;

/// The words of a line.
fn split(alloc: Global, line: &str) -> Result<Vec<String>, AllocError> {
    let mut words = Vec::new(alloc);
    for word in line.split_whitespace() {
        words.push(String::from_str(alloc, word)?)?;
    }
    Ok(words)
}

/// Reads the words of each line, and compares what they ask for.
fn read_lines(rt: &impl Abort, alloc: Global, rows: &[(&str, Read)]) -> Result<(), Fail> {
    for (row, (line, wanted)) in rows.iter().enumerate() {
        let words = split(alloc, line)?;
        same(rt, row, &read_words(alloc, &words), wanted);
    }
    Ok(())
}

fn run_by(workers: Workers) -> Read {
    Ok(Words::Run { workers })
}

fn replica_of(size: VolumeSize) -> Read {
    Ok(Words::Replica { size })
}

fn load_of(number: u64, streams: u8, calls: u32) -> Read {
    Ok(Words::Generate {
        number,
        streams,
        calls,
    })
}

fn restore_of(backup: PlainName, volume: PlainName) -> Read {
    Ok(Words::Restore { backup, volume })
}

fn backups_of(volume: PlainName) -> Read {
    Ok(Words::Backups { volume })
}

fn serve_at(
    alloc: Global,
    address: &str,
    size: VolumeSize,
    replicas: u8,
    sessions: u8,
) -> Result<Read, AllocError> {
    Ok(Ok(Words::Serve {
        address: Address::of(alloc, address)?,
        size,
        replicas,
        sessions,
    }))
}

fn usage_error() -> Read {
    Err(WordsError::Usage)
}

#[test]
fn words_are_read(rt: HostRuntime) -> Result<(), Fail> {
    let (one, each) = (Workers::One, Workers::Each);
    let rows = [
        ("run", run_by(each)),
        ("run --workers one", run_by(one)),
        ("run --workers=one", run_by(one)),
        ("run --workers each", run_by(each)),
        ("run --", run_by(each)),
        ("", usage_error()),
        ("-- run", usage_error()),
        ("run one", usage_error()),
        ("run --workers", usage_error()),
        ("run --workers two", usage_error()),
        ("run --workers=one --workers=one", usage_error()),
        ("help", usage_error()),
        ("run --help", usage_error()),
    ];
    read_lines(&rt, rt.alloc(), &rows)
}

#[test]
fn words_of_backups_are_read(rt: HostRuntime) -> Result<(), Fail> {
    let (backup, volume) = (PlainName::read(b"b-1")?, PlainName::read(b"v.2")?);
    let rows = [
        ("restore b-1 v.2", restore_of(backup, volume)),
        ("restore -- b-1 v.2", restore_of(backup, volume)),
        ("restore b-1 -- v.2", restore_of(backup, volume)),
        ("backups v.2", backups_of(volume)),
        ("backups v.2 --", backups_of(volume)),
        ("restore b-1", usage_error()),
        ("restore b-1 v.2 w", usage_error()),
        ("restore _b v.2", usage_error()),
        ("restore b-1 a/v", usage_error()),
        ("restore --help", usage_error()),
        ("backups", usage_error()),
        ("backups b-1 v.2", usage_error()),
        ("backups -- -v", usage_error()),
    ];
    read_lines(&rt, rt.alloc(), &rows)
}

#[test]
fn words_of_loads_are_read(rt: HostRuntime) -> Result<(), Fail> {
    let size = VolumeSize::new(6_291_456)?;
    let rows = [
        ("replica 6291456", replica_of(size)),
        ("replica -- 6291456", replica_of(size)),
        ("gen 0 1 1", load_of(0, 1, 1)),
        ("gen 7 15 1024", load_of(7, 15, 1024)),
        (
            "gen 18446744073709551615 15 4096",
            load_of(u64::MAX, 15, 4096),
        ),
        ("gen 7 -- 2 3", load_of(7, 2, 3)),
        ("replica", usage_error()),
        ("replica 0", usage_error()),
        ("replica 6291457", usage_error()),
        ("replica 06291456", usage_error()),
        ("replica 1075838976", usage_error()),
        ("replica 6291456 6291456", usage_error()),
        ("replica --help", usage_error()),
        ("gen 0 1", usage_error()),
        ("gen 0 1 1 1", usage_error()),
        ("gen +7 1 1", usage_error()),
        ("gen 07 1 1", usage_error()),
        ("gen 18446744073709551616 1 1", usage_error()),
        ("gen 7 16 1", usage_error()),
        ("gen 7 0 1", usage_error()),
        ("gen 7 1 4097", usage_error()),
        ("gen 7 1 0", usage_error()),
        ("gen -7 1 1", usage_error()),
    ];
    read_lines(&rt, rt.alloc(), &rows)
}

#[test]
fn words_of_served_volumes_are_read(rt: HostRuntime) -> Result<(), Fail> {
    let alloc = rt.alloc();
    let size = VolumeSize::new(2_097_152)?;
    let rows = [
        ("serve x 2097152 1 1", serve_at(alloc, "x", size, 1, 1)?),
        (
            "serve 127.0.0.1:0 2097152 8 16",
            serve_at(alloc, "127.0.0.1:0", size, 8, 16)?,
        ),
        (
            "serve -- -x 2097152 2 3",
            serve_at(alloc, "-x", size, 2, 3)?,
        ),
        ("serve x 2097152 1", usage_error()),
        ("serve 2097152 1 1", usage_error()),
        ("serve x 2097152 1 1 1", usage_error()),
        ("serve -x 2097152 1 1", usage_error()),
        ("serve x 2097153 1 1", usage_error()),
        ("serve x 2097152 0 1", usage_error()),
        ("serve x 2097152 9 1", usage_error()),
        ("serve x 2097152 1 0", usage_error()),
        ("serve x 2097152 1 17", usage_error()),
        ("serve x 2097152 01 1", usage_error()),
        ("serve --help", usage_error()),
    ];
    read_lines(&rt, alloc, &rows)
}
