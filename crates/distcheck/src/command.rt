//! What the command line asks for.

use crate::fault::Fault;
use crate::{HELP, VERSION};
use clap::error::ErrorKind;
use clap::{Arg, ArgAction, ArgMatches, Command};
use dist_names::{escape, number_16};
use dist_program::{
    WordFault, command_line, name_in, option, option_number, parser_sentence, with_word,
};
use std::alloc::{AllocError, Global};
use std::fmt::Write;

/// What the command line asks for.
#[derive(Clone, Copy)]
pub enum CheckTask<'a> {
    /// Print this: the help or the version.
    Print(&'static str),
    /// Print rows, or check a node, a port mapper, or both.
    Check(CheckOrder<'a>),
}

/// The rows to print, or what is checked, and how.
#[derive(Clone, Copy)]
pub struct CheckOrder<'a> {
    /// The command line.
    pub words: &'a [String],
    /// The name of the node that is checked.
    pub node: Option<&'a str>,
    /// The node's port, if its port mapper is not asked.
    pub port: Option<u16>,
    /// The host and the port of the tunnel of TLS to the node, if it is dialled through one.
    pub tunnel: Option<(&'a str, u16)>,
    /// The port at which the node's port mapper is asked.
    pub mapper_port: u16,
    /// The host and the port of the port mapper that is checked.
    pub mapper: Option<(&'a str, u16)>,
    /// The host and the port at which orders to dial are taken.
    pub make_it_dial: Option<(&'a str, u16)>,
    /// The host and the port at which orders to start the node are taken.
    pub start: Option<(&'a str, u16)>,
    /// The cookie's file, if it is not that of the home folder.
    pub cookie_file: Option<&'a str>,
    /// Whether the file is read even if others than its owner may use it.
    pub is_unsafe: bool,
    /// The folder of the rows, if it is not the program's own.
    pub rows: Option<&'a str>,
    /// The rows, talks or sections that are played alone, with commas between them.
    pub only: Option<&'a str>,
    /// The release of OTP whose guide counts: what later ones demand is at level may.
    pub guide: u16,
    /// A word in the names that this run gives itself.
    pub tag: &'a str,
    /// Whether slow rows are left out.
    pub quick: bool,
    /// Whether rows are played that can end a fragile node.
    pub harsh: bool,
    /// Whether every level counts for the exit status.
    pub strict: bool,
    /// Whether one talk is played at a time.
    pub serial: bool,
    /// Whether JSON objects are printed in place of lines.
    pub json: bool,
    /// Whether the rows are printed, and nothing is checked.
    pub list: bool,
    /// The row of which all is printed, and nothing is checked.
    pub explain: Option<&'a str>,
}

// The program's name.
const PROGRAM: &str = "distcheck";

// The options that take no value.
const SWITCHES: [&str; 7] = [
    "cookie-unsafe",
    "list",
    "quick",
    "harsh",
    "strict",
    "serial",
    "json",
];

// The options that take a value.
const VALUES: [&str; 11] = [
    "epmd-port",
    "port",
    "tls-through",
    "mapper",
    "make-it-dial",
    "start",
    "explain",
    "guide",
    "only",
    "tag",
    "rows",
];

// The option that names the cookie's file, and its other form.
const COOKIE: &str = "cookie";

const COOKIE_FILE: &str = "cookie-file";

// The most letters and digits of a tag.
const MOST_OF_TAG: usize = 8;

// The command line: the node, and the options.
fn program<'a>(alloc: Global) -> Result<Command<'a>, AllocError> {
    let node = Arg::new(alloc, "node").action(ArgAction::Set);
    let cookie = option(alloc, COOKIE, ArgAction::Set).alias(COOKIE_FILE)?;
    command_line(alloc, PROGRAM, node, &SWITCHES, &VALUES)?.arg(cookie)
}

fn number_in(alloc: Global, matches: &ArgMatches<'_>, id: &str) -> Result<Option<u16>, WordFault> {
    option_number(alloc, PROGRAM, id, matches.get_str(id))
}

// The node's name, if it is given.
fn node_in<'a>(alloc: Global, matches: &ArgMatches<'a>) -> Result<Option<&'a str>, WordFault> {
    let Some(name) = matches.get_str("node") else {
        return Ok(None);
    };
    name_in(alloc, name)?;
    Ok(Some(name))
}

// The host and the port of a word HOST:PORT.
fn host_and_port(word: &str) -> Option<(&str, u16)> {
    let (host, port) = word.rsplit_once(':')?;
    match number_16(port.as_bytes()) {
        Some(0) | None => None,
        Some(_) if host.is_empty() => None,
        Some(port) => Some((host, port)),
    }
}

// The place that this option names, if it is given.
fn place_in<'a>(
    alloc: Global,
    matches: &ArgMatches<'a>,
    id: &str,
) -> Result<Option<(&'a str, u16)>, Fault> {
    let Some(word) = matches.get_str(id) else {
        return Ok(None);
    };
    match host_and_port(word) {
        None => {
            let front = format!(in alloc; "--{id} takes HOST:PORT: ")?;
            Err(Fault::BadWord(with_word(alloc, &front, word)?))
        }
        place => Ok(place),
    }
}

// The word in the names of this run: letters and digits, so that it fits a name.
fn tag_in<'a>(alloc: Global, matches: &ArgMatches<'a>) -> Result<&'a str, Fault> {
    let tag = matches.get_str("tag").unwrap_or("");
    if tag.len() <= MOST_OF_TAG && tag.bytes().all(|byte| byte.is_ascii_alphanumeric()) {
        return Ok(tag);
    }
    let front = "--tag takes up to 8 letters and digits: ";
    Err(Fault::BadWord(with_word(alloc, front, tag)?))
}

impl CheckOrder<'_> {
    // What is missing, or contradicts the rest.
    fn fault(&self) -> Option<Fault> {
        let is_checked = self.node.is_some() || self.mapper.is_some();
        let has_way = self.port.is_some() || self.make_it_dial.is_some() || self.start.is_some();
        if !is_checked && !self.list && self.explain.is_none() {
            Some(Fault::NothingNamed)
        } else if self.tunnel.is_some() && (self.node.is_none() || has_way) {
            Some(Fault::TunnelAlone)
        } else {
            None
        }
    }
}

fn order_in<'a>(
    alloc: Global,
    words: &'a [String],
    matches: &ArgMatches<'a>,
    usual_port: u16,
) -> Result<CheckOrder<'a>, Fault> {
    let order = CheckOrder {
        words,
        node: node_in(alloc, matches)?,
        port: number_in(alloc, matches, "port")?,
        tunnel: place_in(alloc, matches, "tls-through")?,
        mapper_port: number_in(alloc, matches, "epmd-port")?.unwrap_or(usual_port),
        mapper: place_in(alloc, matches, "mapper")?,
        make_it_dial: place_in(alloc, matches, "make-it-dial")?,
        start: place_in(alloc, matches, "start")?,
        cookie_file: matches.get_str(COOKIE),
        is_unsafe: matches.get_flag("cookie-unsafe"),
        rows: matches.get_str("rows"),
        only: matches.get_str("only"),
        guide: number_in(alloc, matches, "guide")?.unwrap_or(u16::MAX),
        tag: tag_in(alloc, matches)?,
        quick: matches.get_flag("quick"),
        harsh: matches.get_flag("harsh"),
        strict: matches.get_flag("strict"),
        serial: matches.get_flag("serial"),
        json: matches.get_flag("json"),
        list: matches.get_flag("list"),
        explain: matches.get_str("explain"),
    };
    match order.fault() {
        Some(fault) => Err(fault),
        None => Ok(order),
    }
}

/// What these words ask for. `usual_port` is the port mapper's port if they name none.
pub fn task_of<'a>(
    alloc: Global,
    words: &'a [String],
    usual_port: u16,
) -> Result<CheckTask<'a>, Fault> {
    match program(alloc)?.try_get_matches_from(words) {
        Ok(matches) => Ok(CheckTask::Check(order_in(alloc, words, &matches, usual_port)?)),
        Err(error) => match error.kind() {
            ErrorKind::DisplayHelp => Ok(CheckTask::Print(HELP)),
            ErrorKind::DisplayVersion => Ok(CheckTask::Print(VERSION)),
            ErrorKind::OutOfMemory => Err(Fault::NoMemory),
            _ => Err(Fault::BadWord(parser_sentence(alloc, PROGRAM, &error)?)),
        },
    }
}

// Whether a shell takes this character as it is.
fn is_plain(byte: u8) -> bool {
    byte.is_ascii_alphanumeric() || b"@%+=:,./_-".contains(&byte)
}

// Adds a word as a shell reads it back, as far as it is printable.
fn push_word(alloc: Global, line: &mut String, word: &str) -> Result<(), AllocError> {
    let is_plain = !word.is_empty() && word.bytes().all(is_plain);
    line.push_str(" ")?;
    if is_plain {
        return line.push_str(word);
    }
    let word = word.replace(alloc, "'", "'\\''")?;
    write!(line, "'{}'", escape(alloc, word.as_bytes())?)
}

/// The command line without the rows that it names, and without `--json`: behind it `--only` may name one.
pub fn command_of(alloc: Global, words: &[String]) -> Result<String, AllocError> {
    let mut line = PROGRAM.to_owned(alloc)?;
    let mut is_left_out = false;
    for word in words {
        let is_named = word.as_str() == "--only";
        let is_given = word.starts_with("--only=") || word.as_str() == "--json";
        if !is_left_out && !is_named && !is_given {
            push_word(alloc, &mut line, word)?;
        }
        is_left_out = is_named;
    }
    Ok(line)
}
