//! Prints a line for each step, and flushes each at once, so that the user sees where the program waits. If several nodes are dialled
//! at once, the lines of all but the first wait on a page.

ghost use Rattle.std.specs.Prelude.{◌≡◌};

use crate::page::Page;
use crate::piece::LinePiece::{self, Names, Number, Text};
use crate::piece::line_of;
use crate::sink::ResultSink;
use dist_names::Flags;
use distping_words::{Choices, Detail, Fault};
use std::alloc::{AllocError, Global};
use std::io::Stdout;

mod many;
mod steps;
mod verdicts;

/// Where lines are written.
#[derive(Clone, Copy)]
pub enum Output<'p> {
    /// Standard output, at once.
    Screen(Stdout),
    /// A page, to be printed later.
    Page(&'p Page),
}

/// Where the lines of steps go.
#[derive(Clone, Copy)]
pub struct LineSink<'p> {
    /// Where memory for a line comes from.
    pub alloc: Global,
    /// Where they are written.
    pub out: Output<'p>,
    /// Whether objects are printed in place of lines.
    pub quiet: bool,
    // How much is printed of a probe.
    detail: Detail,
    // Whether the run ends once nobody reads its output. A run that ends by itself goes on to its verdict.
    ends_when_closed: bool,
    // Whether marks have a colour.
    has_colors: bool,
}

// A check mark and a cross, and each in its colour: green and red.
const CHECK: (&str, &str) = ("✓", "\x1b[32m✓\x1b[0m");

const CROSS: (&str, &str) = ("✗", "\x1b[31m✗\x1b[0m");

// The marks at the front of a line, and each in its colour. That of a warning is yellow.
const MARKS: [(&str, &str); 3] = [CHECK, CROSS, ("!", "\x1b[33m!\x1b[0m")];

// Appends a line, with its mark in colour.
fn push_colored(text: &mut String, line: &str) -> Result<(), AllocError> {
    for (mark, colored) in &MARKS {
        if let Some(rest) = line.strip_prefix(*mark) {
            text.push_str(colored)?;
            return text.push_str(rest);
        }
    }
    text.push_str(line)
}

// The lines of a text, with their marks in colour.
fn with_colors(alloc: Global, text: &str) -> Result<String, AllocError> {
    let mut made = String::new(alloc);
    for line in text.lines() {
        push_colored(&mut made, line)?;
        made.push('\n')?;
    }
    Ok(made)
}

impl<'p> LineSink<'p> {
    /// Lines on the screen; with `quiet`, those of steps are left out.
    pub fn on_screen(rt: &HostRuntime, quiet: bool) -> LineSink<'p>
        ensures { result.quiet ≡ quiet }
    {
        LineSink {
            alloc: rt.alloc(),
            out: Output::Screen(rt.stdout()),
            quiet,
            detail: Detail::Flags,
            ends_when_closed: false,
            has_colors: false,
        }
    }

    /// The same for a probe; `has_colors` says whether marks have a colour.
    pub fn for_probe(self, choices: &Choices<'_>, has_colors: bool) -> LineSink<'p>
        ensures { result.quiet ≡ self.entry.quiet }
    {
        LineSink {
            detail: choices.detail,
            ends_when_closed: choices.watch.is_some(),
            has_colors: has_colors && !self.quiet,
            ..self
        }
    }

    /// The same for lines on this page.
    pub fn on_page<'q>(self, page: &'q Page) -> LineSink<'q>
        ensures { result.quiet ≡ self.entry.quiet }
    {
        LineSink {
            out: Output::Page(page),
            ..self
        }
    }

    /// Writes a text to the screen, and flushes; or to the page.
    pub fn write(self, text: &str) -> Result<(), Fault> {
        match self.out {
            Output::Screen(screen) if self.has_colors => {
                self.show(screen, &with_colors(self.alloc, text)?)
            }
            Output::Screen(screen) => self.show(screen, text),
            Output::Page(page) => Ok(page.push(text)?),
        }
    }

    // Writes a text to the screen, and flushes.
    fn show(self, screen: Stdout, text: &str) -> Result<(), Fault> {
        let mut sink = ResultSink::new(screen);
        sink.print(text)?;
        if sink.is_closed() && self.ends_when_closed {
            return Err(Fault::OutputClosed);
        }
        Ok(())
    }

    /// Writes a text, if there was memory for it.
    pub fn write_made(self, text: Result<String, AllocError>) -> Result<(), Fault> {
        match text {
            Ok(text) => self.write(&text),
            Err(_) => Err(Fault::NoMemory),
        }
    }

    /// Prints a line of these pieces, unless objects are printed in place of lines.
    pub fn put_result(self, pieces: &[LinePiece<'_>]) -> Result<(), Fault> {
        if self.quiet {
            Ok(())
        } else {
            self.write_made(line_of(self.alloc, pieces))
        }
    }

    /// The same, unless the verdict alone is printed.
    pub fn put(self, pieces: &[LinePiece<'_>]) -> Result<(), Fault> {
        match self.detail {
            Detail::Verdict => Ok(()),
            Detail::Steps | Detail::Flags => self.put_result(pieces),
        }
    }

    // Prints a line of this text.
    fn put_text(self, text: &'static str) -> Result<(), Fault> {
        self.put(&[Text(text)])
    }

    // Prints a number between two texts.
    fn put_count(self, front: &'static str, count: u32, back: &'static str) -> Result<(), Fault> {
        self.put(&[Text(front), Number(count), Text(back)])
    }

    // Prints a line of flags by name.
    fn put_flags(self, front: &'static str, flags: Flags) -> Result<(), Fault> {
        self.put(&[Text(front), Names(flags)])
    }

    // Prints a line of flags that a node lacks, if it lacks any.
    fn put_lacks(self, front: &'static str, flags: Flags) -> Result<(), Fault> {
        if flags.0 == 0 {
            return Ok(());
        }
        self.put_flags(front, flags)
    }
}
