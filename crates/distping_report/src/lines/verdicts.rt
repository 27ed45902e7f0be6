//! The texts of the results of a probe, of a connection that was taken, and of a host without nodes, and what is printed before them.

ghost use Rattle.std.specs.Prelude.{◌≡◌, IfOk, string_bytes};
ghost use Rattle.distping_report.specs.{Results.IsCallerText, Results.IsNodeText, Texts.IsVerdictText, Texts.mark_of};

use crate::asked::{Dial, Listen};
use crate::found::{Caller, ProbeOutcome};
use crate::lines::{CHECK, CROSS, LineSink};
use crate::objects::{Judged, caller_object, group_object, object_of};
use crate::piece::LinePiece::{Host, Name, Number, Text};
use crate::sentences::{cause_of, remedy_of};
use dist_cluster::Group;
use dist_names::NodeName;
use dist_talk::HandshakeVerdict;
use distping_words::{Detail, Fault};
use std::alloc::AllocError;
use std::net::SocketAddr;

/// The mark of an exit status, plain or in its colour.
pub fn exit_mark(status: u8, has_colors: bool) -> &'static str
    ensures { result.now ≡ mark_of has_colors status }
{
    let (plain, colored) = if status == 0 { CHECK } else { CROSS };
    if has_colors { colored } else { plain }
}

impl LineSink<'_> {
    // The text of a verdict with its sentences: word and cause, and the remedy, unless the verdict alone is printed.
    fn judged_text(self, judged: Judged<'_>) -> Result<String, AllocError>
        ensures { IfOk result (λ text. IsVerdictText judged.entry.verdict (string_bytes text)) }
    {
        let verdict = judged.verdict;
        let mark = exit_mark(verdict.status(), self.has_colors);
        let (name, cause) = (verdict.name(), judged.cause);
        if self.detail == Detail::Verdict {
            return format!(in self.alloc; "{mark}  {name}: {cause}\n");
        }
        let remedy = judged.remedy;
        format!(in self.alloc; "{mark}  {name}: {cause}\n   remedy    {remedy}\n")
    }

    /// The same of a verdict with the sentences that it always has.
    pub fn verdict_text(self, verdict: HandshakeVerdict) -> Result<String, AllocError>
        ensures { IfOk result (λ text. IsVerdictText verdict (string_bytes text)) }
    {
        self.judged_text(Judged::of(verdict))
    }

    /// The text of the result of a probe.
    pub fn node_text(self, dial: &Dial<'_>, outcome: &ProbeOutcome) -> Result<String, AllocError>
        ensures { IfOk result (λ text. IsNodeText self.entry.quiet dial.now outcome.now (string_bytes text)) }
    {
        let cause = cause_of(self.alloc, dial, outcome)?;
        let judged = Judged {
            verdict: outcome.verdict,
            cause: &cause,
            remedy: remedy_of(dial, outcome.verdict),
        };
        if self.quiet {
            object_of(self.alloc, dial, outcome, judged)
        } else {
            self.judged_text(judged)
        }
    }

    /// The text of the result of a connection that was taken.
    pub fn caller_text(
        self,
        listen: &Listen<'_>,
        caller: &Caller,
        verdict: HandshakeVerdict,
    ) -> Result<String, AllocError>
        ensures { IfOk result (λ text. IsCallerText self.entry.quiet listen.now caller.now verdict (string_bytes text)) }
    {
        if self.quiet {
            caller_object(self.alloc, listen, caller, verdict)
        } else {
            self.verdict_text(verdict)
        }
    }

    // Prints that the node was found by way of `--address`, which nodes don't use.
    fn put_other_way(self, node: &NodeName) -> Result<(), Fault> {
        self.put(&[
            Text("!  address   nodes do not know --address: they dial what "),
            Name(node.host()),
            Text(" resolves to, which was not tried"),
        ])
    }

    // Prints which of several addresses got furthest.
    fn put_furthest(self, address: &SocketAddr, count: u32) -> Result<(), Fault> {
        self.put(&[
            Text("   furthest  "),
            Host(address.ip()),
            Text(", of "),
            Number(count),
            Text(" addresses that were tried; nodes dial the first of a kind alone"),
        ])
    }

    /// Prints what belongs before the text of a verdict: the missing flags, or how many bytes arrived without a whole message.
    pub fn put_details(self, verdict: HandshakeVerdict) -> Result<(), Fault> {
        match verdict {
            HandshakeVerdict::LacksFlags(_, flags) => self.put_flags("   lacking  ", flags),
            HandshakeVerdict::Silent(_, count) if count > 0 => {
                let count = u32::try_from(count).unwrap_or(u32::MAX);
                self.put_count("   came      ", count, " bytes, and no whole message")
            }
            _ => Ok(()),
        }
    }

    /// Prints the lines of a verdict.
    pub fn put_verdict(self, verdict: HandshakeVerdict) -> Result<(), Fault> {
        self.put_details(verdict)?;
        self.write_made(self.verdict_text(verdict))
    }

    /// Prints what belongs before the text of the result of a probe: of several addresses which got furthest; if the node was found by
    /// `--address`, that nodes don't use it; and the details of the verdict.
    pub fn put_before_result(self, dial: &Dial<'_>, outcome: &ProbeOutcome) -> Result<(), Fault> {
        let count = u32::try_from(outcome.verdicts.len()).unwrap_or(u32::MAX);
        if let Some(address) = &outcome.found.address
            && count > 1
        {
            self.put_furthest(address, count)?;
        }
        if let Some(host) = dial.choices.address
            && outcome.verdict.status() == 0
            && !dial.choices.is_tunnelled
            && host.as_bytes() != dial.node.host()
        {
            self.put_other_way(dial.node)?;
        }
        self.put_details(outcome.verdict)
    }

    /// Prints the result for a host that gave no node.
    pub fn put_nobody(self, group: &Group, outcome: &ProbeOutcome) -> Result<(), Fault> {
        if self.quiet {
            self.write_made(group_object(self.alloc, group, outcome))
        } else {
            self.put_verdict(outcome.verdict)
        }
    }
}
