//! A command line of nodes and options, each option by its word.

use clap::{Arg, ArgAction, Command};
use std::alloc::{AllocError, Global};

/// An option.
pub fn option<'a>(alloc: Global, word: &'a str, action: ArgAction) -> Arg<'a> {
    Arg::new(alloc, word).long(word).action(action)
}

/// The command line with more options, all made in this way.
pub fn with_options<'a>(
    alloc: Global,
    mut program: Command<'a>,
    words: &[&'a str],
    action: ArgAction,
) -> Result<Command<'a>, AllocError> {
    for word in words {
        program = program.arg(option(alloc, word, action))?;
    }
    Ok(program)
}

/// The command line of a program: the nodes, the options that take no value, and those that take one.
pub fn command_line<'a>(
    alloc: Global,
    program: &'a str,
    nodes: Arg<'a>,
    switches: &[&'a str],
    values: &[&'a str],
) -> Result<Command<'a>, AllocError> {
    let bare = Command::new(alloc, program)
        .no_binary_name(true)
        .version("0")
        .arg(nodes)?;
    let program = with_options(alloc, bare, switches, ArgAction::SetTrue)?;
    with_options(alloc, program, values, ArgAction::Set)
}
