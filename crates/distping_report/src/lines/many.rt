//! The lines about several nodes, or their objects: where their names come from, what can be said of each pair, a summary, and the
//! changes of watched nodes.

use crate::left_out::LeftOut;
use crate::lines::LineSink;
use crate::lines::verdicts::exit_mark;
use crate::many_texts::{summary_lines, times_text};
use crate::moment::utc_text;
use crate::objects::{
    change_object, latency_object, left_out_object, more_left_out_object, pair_object,
    summary_object,
};
use crate::piece::LinePiece::{Escaped, Foreign, Name, Number, Text};
use crate::watched::{Answers, Seen, verdict_word_in};
use dist_cluster::{Group, Pairing, Summary, VerdictChange};
use dist_names::NodeName;
use dist_talk::HandshakeVerdict;
use distping_words::Fault;

impl LineSink<'_> {
    /// Prints which node is dialled, or which host is asked for its nodes.
    pub fn put_heading(self, word: &[u8]) -> Result<(), Fault> {
        self.put_result(&[Text("-- "), Name(word)])
    }

    /// Prints how many nodes the port mapper knows.
    pub fn put_known(self, mapper_port: u16, count: u32) -> Result<(), Fault> {
        self.put(&[
            Text("✓  epmd      port "),
            Number(u32::from(mapper_port)),
            Text(" answers: nodes that are registered there: "),
            Number(count),
        ])
    }

    /// Prints a text that the port mapper of a host has in place of a node's name.
    pub fn put_left_out(self, group: &Group, text: &[u8]) -> Result<(), Fault> {
        if self.quiet {
            self.write_made(left_out_object(self.alloc, group, text))
        } else {
            let front = Text("!  epmd      no node's name, and left out: ");
            self.put(&[front, Name(text)])
        }
    }

    /// Prints how much of the answer of a host's port mapper was left out, if anything was.
    pub fn put_more_left_out(self, group: &Group, left_out: LeftOut) -> Result<(), Fault> {
        if self.quiet && !left_out.is_nothing() {
            return self.write_made(more_left_out_object(self.alloc, group, left_out));
        }
        if left_out.lines > 0 {
            let front = "!  epmd      no nodes' names, and left out: ";
            self.put_count(front, left_out.lines, " more lines")?;
        }
        if left_out.nodes > 0 {
            let front = "!  epmd      more nodes than the 1024 that are dialled, and left out: ";
            self.put_count(front, left_out.nodes, "")?;
        }
        if left_out.is_cut {
            self.put_cut()?;
        }
        Ok(())
    }

    /// Prints what can be said of two nodes.
    pub fn put_pair<'x>(
        self,
        first: &'x NodeName,
        second: &'x NodeName,
        pairing: Pairing,
    ) -> Result<(), Fault> {
        if self.quiet {
            return self.write_made(pair_object(self.alloc, first, second, pairing));
        }
        let mark = match pairing {
            Pairing::Agree => "✓",
            Pairing::NotReached | Pairing::Unsure => " ",
            _ => "✗",
        };
        self.put_result(&[
            Text(mark),
            Text("  pair      "),
            Name(first.bytes()),
            Text(" and "),
            Name(second.bytes()),
            Text(": "),
            Text(pairing.name()),
            Text(": "),
            Text(pairing.cause()),
        ])?;
        match pairing {
            Pairing::LacksFlags(of_first, of_second) => {
                self.put_lacks("   lacking   the first:", of_first)?;
                self.put_lacks("   lacking   the second:", of_second)
            }
            _ => Ok(()),
        }
    }

    /// Prints how many nodes have which verdict, and how many pairs which word. `status` is the exit status.
    pub fn put_summary(self, summary: &Summary, status: u8) -> Result<(), Fault> {
        if self.quiet {
            self.write_made(summary_object(self.alloc, summary, status))
        } else {
            self.write_made(summary_lines(self.alloc, summary))
        }
    }

    // Prints the line of the verdict on a watched node at this time, and the word of the one before; that is empty if there was none.
    fn put_watched<'x>(
        self,
        time: &'x str,
        node: &'x NodeName,
        verdict: HandshakeVerdict,
        before: &'x [u8],
    ) -> Result<(), Fault> {
        self.put_result(&[
            Escaped(time),
            Text(" "),
            Text(exit_mark(verdict.status(), false)),
            Text("  "),
            Name(node.bytes()),
            Text(": "),
            Text(verdict.name()),
            Text(if before.is_empty() { "" } else { ", was " }),
            Foreign(before),
            Text(": "),
            Text(verdict.cause()),
        ])
    }

    /// Prints that a watched node has another verdict than before, if it had one.
    pub fn put_change(self, seen: &Seen<'_>, change: &VerdictChange) -> Result<(), Fault> {
        let time = utc_text(self.alloc, change.at)?;
        if self.quiet {
            return self.write_made(change_object(self.alloc, &time, seen, change));
        }
        let before = match &change.before {
            Some(before) => verdict_word_in(before),
            None => b"",
        };
        self.put_watched(&time, seen.half.node, seen.half.verdict, before)
    }

    // Prints the line of how long a node's answers took.
    fn put_times<'x>(self, node: &'x NodeName, times: &'x str) -> Result<(), Fault> {
        self.put_result(&[
            Text("   latency   "),
            Name(node.bytes()),
            Text(": "),
            Escaped(times),
        ])
    }

    /// Prints how long a watched node's answers took.
    pub fn put_answers(self, answers: &Answers<'_>) -> Result<(), Fault> {
        if self.quiet {
            return self.write_made(latency_object(self.alloc, answers));
        }
        let times = times_text(self.alloc, answers.rounds, answers.summary)?;
        self.put_times(answers.node, &times)
    }
}
