ghost use Rattle.std.specs.Prelude.{◌≡◌, IfOk, false};
ghost use Rattle.clap.specs.Words.{app_of, rule_of};
ghost use Rattle.clap.specs.declared.builder.Command.TheViews.{out-Command as fields_of};
ghost use Rattle.program_words.specs.Program.{backups_app, generate_app, positional, program};
ghost use Rattle.program_words.specs.Program.{replica_app, restore_app, run_app, serve_app};

use clap::{Arg, Command};
use std::alloc::{AllocError, Global};

/// The program, as `clap` is told of it.
pub fn command<'a>(alloc: Global) -> Result<Command<'a>, AllocError>
    ensures { IfOk result (λ c. app_of c ≡ program) }
{
    Command::new(alloc, "longhorn")
        .no_binary_name(true)
        .subcommand_required(true)
        .subcommand(run_command(alloc)?)?
        .subcommand(restore_command(alloc)?)?
        .subcommand(backups_command(alloc)?)?
        .subcommand(replica_command(alloc)?)?
        .subcommand(generate_command(alloc)?)?
        .subcommand(serve_command(alloc)?)
}

fn run_command<'a>(alloc: Global) -> Result<Command<'a>, AllocError>
    ensures shape { IfOk result (λ c. app_of c ≡ run_app) }
    ensures local { IfOk result (λ c. (fields_of c).has_globals ≡ false) }
{
    let workers = Arg::new(alloc, "workers").long("workers");
    Command::new(alloc, "run").arg(workers)
}

fn restore_command<'a>(alloc: Global) -> Result<Command<'a>, AllocError>
    ensures shape { IfOk result (λ c. app_of c ≡ restore_app) }
    ensures local { IfOk result (λ c. (fields_of c).has_globals ≡ false) }
{
    let backup = Arg::new(alloc, "backup").required(true);
    let volume = Arg::new(alloc, "volume").required(true);
    Command::new(alloc, "restore").arg(backup)?.arg(volume)
}

fn backups_command<'a>(alloc: Global) -> Result<Command<'a>, AllocError>
    ensures shape { IfOk result (λ c. app_of c ≡ backups_app) }
    ensures local { IfOk result (λ c. (fields_of c).has_globals ≡ false) }
{
    let volume = Arg::new(alloc, "volume").required(true);
    Command::new(alloc, "backups").arg(volume)
}

fn replica_command<'a>(alloc: Global) -> Result<Command<'a>, AllocError>
    ensures shape { IfOk result (λ c. app_of c ≡ replica_app) }
    ensures local { IfOk result (λ c. (fields_of c).has_globals ≡ false) }
{
    let size = Arg::new(alloc, "size").required(true);
    Command::new(alloc, "replica").arg(size)
}

fn generate_command<'a>(alloc: Global) -> Result<Command<'a>, AllocError>
    ensures shape { IfOk result (λ c. app_of c ≡ generate_app) }
    ensures local { IfOk result (λ c. (fields_of c).has_globals ≡ false) }
{
    let number = Arg::new(alloc, "number").required(true);
    let streams = Arg::new(alloc, "streams").required(true);
    let calls = Arg::new(alloc, "calls").required(true);
    Command::new(alloc, "gen")
        .arg(number)?
        .arg(streams)?
        .arg(calls)
}

fn serve_command<'a>(alloc: Global) -> Result<Command<'a>, AllocError>
    ensures shape { IfOk result (λ c. app_of c ≡ serve_app) }
    ensures local { IfOk result (λ c. (fields_of c).has_globals ≡ false) }
{
    let address = Arg::new(alloc, "address").required(true);
    let size = Arg::new(alloc, "size").required(true);
    let replicas = Arg::new(alloc, "replicas").required(true);
    let sessions = Arg::new(alloc, "sessions").required(true);
    Command::new(alloc, "serve")
        .arg(address)?
        .arg(size)?
        .arg(replicas)?
        .arg(sessions)
}
