//! What the command line asks for.

use crate::fault::Fault;
use crate::{HELP, VERSION};
use clap::error::ErrorKind;
use clap::{Arg, ArgAction, ArgMatches, Error};
use dist_program::{WordFault, command_line, name_in, option, option_number, parser_sentence};
use distribution::NodeName;
use std::alloc::Global;

/// After how many seconds a silent peer is given up. Source: Erlang/OTP, application `kernel`, `net_ticktime`.
const NET_TICKTIME: u16 = 60;

/// What the command line asks for.
#[derive(Drop)]
pub enum Invocation<'a> {
    /// Print this: the help or the version.
    Prints(&'static str),
    /// Join a node.
    Joins(JoinRequest<'a>),
}

/// The node to join, and how.
#[derive(Drop)]
pub struct JoinRequest<'a> {
    /// The node's name.
    pub node: NodeName,
    /// Our name.
    pub name: NodeName,
    /// The host to connect to.
    pub host: &'a str,
    /// The cookie's file, if it is not that of the home folder.
    pub cookie_file: Option<&'a str>,
    /// Whether the file is read even if others than its owner may use it.
    pub is_unsafe: bool,
    /// The port of the port mapper.
    pub mapper_port: u16,
    /// After how many seconds a silent peer is given up, at least one.
    pub net_ticktime: u16,
}

// The program's name.
const PROGRAM: &str = "joining";

// The options that take a value.
const VALUES: [&str; 4] = ["name", "address", "epmd-port", "net-ticktime"];

// So does this one; the other programs also name the cookie's file by it. Its older form follows.
const COOKIE: &str = "cookie";

const COOKIE_FILE: &str = "cookie-file";

// The option that takes no value.
const UNSAFE: &str = "cookie-unsafe";

// The number from 1 to 65,535 of this option, if it is given.
fn number_of(alloc: Global, matches: &ArgMatches<'_>, id: &str) -> Result<Option<u16>, WordFault> {
    option_number(alloc, PROGRAM, id, matches.get_str(id))
}

// The node's name and ours, which is checked first if it is given, and the node's host. If it is not given, it is one at that host, so
// that both names are long or both short.
fn names_in<'a>(
    alloc: Global,
    matches: &ArgMatches<'a>,
) -> Result<(NodeName, NodeName, &'a str), Fault> {
    let given = match matches.get_str("name") {
        Some(word) => Some(name_in(alloc, word)?),
        None => None,
    };
    let Some(word) = matches.get_str("node") else {
        return Err(Fault::NamesNoNode);
    };
    let node = name_in(alloc, word)?;
    let (_, host) = word.split_once('@').unwrap_or(("", ""));
    let name = match given {
        Some(name) => name,
        None => name_in(alloc, &format!(in alloc; "joining@{host}")?)?,
    };
    Ok((node, name, host))
}

// What the parser matched.
fn wanted_in<'a>(
    alloc: Global,
    matches: &ArgMatches<'a>,
    usual_port: u16,
) -> Result<JoinRequest<'a>, Fault> {
    let mapper_port = number_of(alloc, matches, "epmd-port")?;
    let net_ticktime = number_of(alloc, matches, "net-ticktime")?;
    let (address, cookie_file) = (matches.get_str("address"), matches.get_str(COOKIE));
    let is_unsafe = matches.get_flag(UNSAFE);
    let (node, name, host) = names_in(alloc, matches)?;
    Ok(JoinRequest {
        node,
        name,
        host: address.unwrap_or(host),
        cookie_file,
        is_unsafe,
        mapper_port: mapper_port.unwrap_or(usual_port),
        net_ticktime: net_ticktime.unwrap_or(NET_TICKTIME),
    })
}

// What is asked for if the parser matched nothing.
fn request_instead<'a>(alloc: Global, error: &Error) -> Result<Invocation<'a>, Fault> {
    match error.kind() {
        ErrorKind::DisplayHelp => Ok(Invocation::Prints(HELP)),
        ErrorKind::DisplayVersion => Ok(Invocation::Prints(VERSION)),
        ErrorKind::OutOfMemory => Err(Fault::NoMemory),
        _ => Err(Fault::BadWord(parser_sentence(alloc, PROGRAM, error)?)),
    }
}

/// What these words ask for. `usual_port` is the port mapper's port if they name none.
pub fn request_of<'a>(
    alloc: Global,
    words: &'a [String],
    usual_port: u16,
) -> Result<Invocation<'a>, Fault> {
    let node = Arg::new(alloc, "node").action(ArgAction::Set);
    let cookie = option(alloc, COOKIE, ArgAction::Set).alias(COOKIE_FILE)?;
    let program = command_line(alloc, PROGRAM, node, &[UNSAFE], &VALUES)?.arg(cookie)?;
    match program.try_get_matches_from(words) {
        Ok(matches) => Ok(Invocation::Joins(wanted_in(alloc, &matches, usual_port)?)),
        Err(error) => request_instead(alloc, &error),
    }
}
