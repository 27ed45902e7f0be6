//! Describes the program to the parser of command lines.

ghost use Rattle.std.specs.Prelude.{◌≡◌, IfOk, codes, false, true};
ghost use Rattle.clap.specs.Words.{App, app_of, new_app, rule_of, with_subcommand};
ghost use Rattle.distnode.specs.CommandLine.{bare_app, cookie_app, names_app, program_app, run_app, value, value_or};

use clap::{Arg, ArgAction, Command};
use std::alloc::{AllocError, Global};

fn cookie_command<'a>(alloc: Global) -> Result<Command<'a>, AllocError>
    ensures { IfOk result (λ c. app_of c ≡ cookie_app) }
{
    let file = Arg::new(alloc, "file")
        .required(true)
        .action(ArgAction::Set);
    let command = Command::new(alloc, "cookie").arg(file)?;
    let challenge = Arg::new(alloc, "challenge")
        .long("challenge")
        .action(ArgAction::Set);
    command.arg(challenge)
}

// The port of the port mapper, with its first name.
fn port<'a>(alloc: Global) -> Arg<'a>
    ensures rule { rule_of result ≡ value (codes "port") }
    ensures local { result.global ≡ false }
{
    Arg::new(alloc, "port").long("port").action(ArgAction::Set)
}

// The same, with both names.
fn port_or_epmd_port<'a>(alloc: Global) -> Result<Arg<'a>, AllocError>
    ensures rule { IfOk result (λ a. rule_of a ≡ value_or (codes "port") (codes "epmd-port")) }
    ensures local { IfOk result (λ a. a.global ≡ false) }
{
    port(alloc).alias("epmd-port")
}

fn names_command<'a>(alloc: Global) -> Result<Command<'a>, AllocError>
    ensures { IfOk result (λ c. app_of c ≡ names_app) }
{
    let port = port_or_epmd_port(alloc)?;
    Command::new(alloc, "names").arg(port)
}

fn run_command<'a>(alloc: Global) -> Result<Command<'a>, AllocError>
    ensures { IfOk result (λ c. app_of c ≡ run_app) }
{
    let file = Arg::new(alloc, "file")
        .required(true)
        .action(ArgAction::Set);
    Command::new(alloc, "run").arg(file)
}

// The program without its commands, one of which is required.
fn bare<'a>(alloc: Global) -> Command<'a>
    ensures { app_of result ≡ bare_app }
{
    Command::new(alloc, "distnode")
        .no_binary_name(true)
        .disable_help_subcommand(true)
        .subcommand_required(true)
}

// The program with one more command, if there was memory for it.
fn with_command<'a>(
    program: Command<'a>,
    command: Result<Command<'a>, AllocError>,
) -> Result<Command<'a>, AllocError>
    ensures { (app : App) → app.top.is_plain ≡ true → IfOk command.entry (λ c. app_of c ≡ app)
        → IfOk result (λ c. app_of c ≡ with_subcommand (app_of program.entry) app.top) }
{
    match command {
        Ok(command) => program.subcommand(command),
        Err(error) => Err(error),
    }
}

// The program with the command that takes no arguments.
fn enact_program<'a>(alloc: Global) -> Result<Command<'a>, AllocError>
    ensures { IfOk result (λ c. app_of c ≡ with_subcommand bare_app (new_app (codes "enact")).top) }
{
    bare(alloc).subcommand(Command::new(alloc, "enact"))
}

/// The program with its commands, one of which is required.
pub fn program<'a>(alloc: Global) -> Result<Command<'a>, AllocError>
    ensures { IfOk result (λ c. app_of c ≡ program_app) }
{
    let cookie = with_command(enact_program(alloc)?, cookie_command(alloc))?;
    let names = with_command(cookie, names_command(alloc))?;
    with_command(names, run_command(alloc))
}
