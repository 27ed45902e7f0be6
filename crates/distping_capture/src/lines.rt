//! The lines about one conversation.

ghost use Rattle.std.specs.Prelude.{◌≡◌, Bool, IfNone, IfOk, IfSome, OnOk, false, string_bytes};
ghost use Rattle.dist_talk.specs.Words.{status_of};
ghost use Rattle.distping_capture.specs.Printing.{IsAttemptText, PrintsText, attempt_mark};
ghost use Rattle.distping_report.specs.Texts.{mark_of};

use crate::dials::PastDial;
use crate::say::say;
use dist_conversation::{Carried, Conclusion, Conversation, MapperTalk, is_long, registration_of};
use dist_epmd::{Answer, NodeInfo, Request};
use dist_epmd_calls::LookupError;
use dist_frames::first_body;
use dist_messages::{Message, Side};
use dist_names::{ByteString, Flags};
use dist_talk::{
    Handshake, HandshakeVerdict, NodeDescription, SentContent, SentMessage, Terms, other_side,
};
use distping_report::LinePiece::{self, Digits, Escaped, Foreign, Host, Name, Number, Text};
use distping_report::{LineSink, ResultSink, utc_text};
use distping_words::Fault;
use std::alloc::{AllocError, Global};
use std::io::Write;

// How long a side may take for a message, or from its lookup to its dial, before a line says so, in nanoseconds: half of the time after
// which a node gives up. Our own choice.
const SLOW: u64 = 3_500_000_000;

// How long a side of a connection that is up may send nothing before that is said, in nanoseconds: a node looks in each quarter of
// `net_ticktime`, which is 60 seconds if it is not set, whether it has to send a tick. Source: Kernel Reference Manual, kernel.
const TICK: u64 = 15_000_000_000;

// How close behind the acknowledgement an end is said to come at once, in nanoseconds. Our own choice.
const SECOND: u64 = 1_000_000_000;

/// Where the lines about one conversation are printed.
#[derive(Clone, Copy)]
pub struct Sheet<'l, 'c> {
    pub lines: LineSink<'l>,
    pub seen: &'c Conversation,
}

// A span of time in seconds, as `12.000345`.
fn seconds_text(alloc: Global, nanoseconds: u64) -> Result<String, AllocError> {
    let micros = nanoseconds / 1000;
    let (whole, rest) = (micros / 1_000_000, micros % 1_000_000);
    format!(in alloc; "{whole}.{rest:06}")
}

// The word for a side.
fn side_word(side: Side) -> &'static str {
    match side {
        Side::Dialler => "the dialler",
        Side::Acceptor => "the acceptor",
    }
}

// What a message is called, and the text that it carries.
fn word_of(message: &Message) -> (&'static str, LinePiece<'_>) {
    let word = match message {
        Message::Status(status) => return ("status ", Foreign(status.text())),
        Message::OldName { .. } => "name, in the older form",
        Message::NewName { .. } => "name",
        Message::OldChallenge { .. } => "challenge, in the older form",
        Message::NewChallenge { .. } => "challenge",
        Message::Complement { .. } => "complement",
        Message::Reply { .. } => "reply",
        Message::Ack { .. } => "acknowledgement",
    };
    (word, Text(""))
}

// The same of a body that is none of these: a status may give a name to a node that asked for one, with the name's length in 2 bytes
// before it, and a creation behind. Source: ERTS User's Guide, Distribution Handshake.
fn other_word(side: Side, body: &ByteString) -> (&'static str, LinePiece<'_>) {
    match body.as_slice().strip_prefix(b"snamed:") {
        Some(rest) if side == Side::Acceptor => {
            ("status named: ", Name(first_body(rest).unwrap_or(b"")))
        }
        _ => ("no message of a handshake", Text("")),
    }
}

// The message that stands first of these, in the order of the capture.
fn first_said<'m>(
    dialler: &'m [SentMessage],
    acceptor: &'m [SentMessage],
) -> Option<(Side, &'m SentMessage)> {
    match (dialler, acceptor) {
        ([one, ..], [other, ..]) if other.number < one.number => Some((Side::Acceptor, other)),
        ([one, ..], _) => Some((Side::Dialler, one)),
        ([], [other, ..]) => Some((Side::Acceptor, other)),
        ([], []) => None,
    }
}

/// Prints that a side took long, if it did. `what` stands behind the number.
pub fn put_slow(
    lines: LineSink<'_>,
    side: Side,
    waited: u64,
    what: &'static str,
) -> Result<(), Fault> {
    if waited < SLOW {
        return Ok(());
    }
    let seconds = seconds_text(lines.alloc, waited)?;
    let form = "!  slow      % took %%; a node gives up after 7 (net_setuptime)";
    say(
        lines,
        form,
        &[Text(side_word(side)), Escaped(&seconds), Text(what)],
    )
}

impl Sheet<'_, '_> {
    // Prints a line of this form, with these pieces in place of its `%`.
    fn say(self, form: &'static str, pieces: &[LinePiece<'_>]) -> Result<(), Fault> {
        say(self.lines, form, pieces)
    }

    // The same, of a side.
    fn say_side(self, form: &'static str, side: Side) -> Result<(), Fault> {
        say(self.lines, form, &[Text(side_word(side))])
    }

    /// Prints from where to where a connection goes, and when it began.
    fn put_heading(self) -> Result<(), Fault> {
        let (from, to) = (self.seen.dialler, self.seen.acceptor);
        let (from_port, to_port) = (u32::from(from.port), u32::from(to.port));
        let time = utc_text(self.lines.alloc, self.seen.began / 1_000_000_000)?;
        self.lines.put(&[
            Text("-- "),
            Host(from.address),
            Text(" port "),
            Number(from_port),
            Text(" to "),
            Host(to.address),
            Text(" port "),
            Number(to_port),
            Text(", "),
            Escaped(&time),
        ])
    }

    // ---- a handshake

    // Prints what a message says beside its name; in the older form there is no creation.
    fn put_content(self, message: &Message) -> Result<(), Fault> {
        match message {
            Message::OldName { flags, name } | Message::OldChallenge { flags, name, .. } => {
                let flags = Digits(Flags(u64::from(*flags)));
                self.say("   node      %, flags %", &[Name(name.as_slice()), flags])
            }
            Message::NewName {
                flags,
                creation,
                name,
            }
            | Message::NewChallenge {
                flags,
                creation,
                name,
                ..
            } => self.lines.put_peer(NodeDescription {
                name: name.as_slice(),
                flags: *flags,
                creation: Some(*creation),
            }),
            Message::Complement { high, creation } => {
                let flags = Digits(Flags::of_halves(*high, 0));
                self.say(
                    "   node      creation %, flags %",
                    &[Number(creation.0), flags],
                )
            }
            Message::Status(_) | Message::Reply { .. } | Message::Ack { .. } => Ok(()),
        }
    }

    fn put_word<'x>(
        self,
        time: &'x str,
        side: Side,
        word: (&'static str, LinePiece<'x>),
    ) -> Result<(), Fault> {
        self.say(
            "   %  %: %%",
            &[Escaped(time), Text(side_word(side)), Text(word.0), word.1],
        )
    }

    // Prints a message. `before` is when the one before it was there.
    fn put_message(self, before: u64, side: Side, sent: &SentMessage) -> Result<(), Fault> {
        put_slow(self.lines, side, sent.at.saturating_sub(before), " seconds")?;
        let time = seconds_text(self.lines.alloc, sent.at.saturating_sub(self.seen.began))?;
        match &sent.content {
            SentContent::Message(message) => {
                self.put_word(&time, side, word_of(message))?;
                self.put_content(message)
            }
            SentContent::Other(body) => self.put_word(&time, side, other_word(side, body)),
        }
    }

    // Prints the messages of a handshake, in the order in which they were whole.
    fn put_messages(self, handshake: &Handshake) -> Result<(), Fault> {
        let (mut dialler, mut acceptor, mut before) = (0, 0, self.seen.began);
        for _ in 0..handshake.len() {
            let (_, one) = handshake
                .dialler
                .split_at(dialler.min(handshake.dialler.len()));
            let (_, other) = handshake
                .acceptor
                .split_at(acceptor.min(handshake.acceptor.len()));
            if let Some((side, sent)) = first_said(one, other) {
                self.put_message(before, side, sent)?;
                before = sent.at;
                match side {
                    Side::Dialler => dialler = dialler.saturating_add(1),
                    Side::Acceptor => acceptor = acceptor.saturating_add(1),
                }
            }
        }
        Ok(())
    }

    // Prints what the capture lacks of a handshake; if that is its beginning, who ended it.
    fn put_missing(self, judged: &Conclusion, handshake: &Handshake) -> Result<(), Fault> {
        let missing = handshake.missing;
        if missing.beginning {
            self.say("!  missing   the beginning of this connection", &[])?;
        }
        for (side, lacks) in [
            (Side::Dialler, missing.dialler),
            (Side::Acceptor, missing.acceptor),
        ] {
            if lacks {
                self.say_side("!  missing   bytes of %, behind those that are shown", side)?;
            }
        }
        match self.seen.any_end() {
            Some((side, end)) if missing.beginning && judged.acknowledged_at().is_none() => {
                let how = if end.is_reset {
                    "   end       reset by %"
                } else {
                    "   end       closed by %"
                };
                self.say_side(how, side)
            }
            _ => Ok(()),
        }
    }

    // Prints how many segments would have ended a connection, and did not.
    fn put_strays(self) -> Result<(), Fault> {
        let form =
            "!  stray     a reset or an end with a number that the other side did not await, so it ended nothing: %";
        if self.seen.strays == 0 {
            return Ok(());
        }
        self.say(form, &[Number(self.seen.strays)])
    }

    /// Prints that bytes of a side came behind the end on which the verdict rests.
    pub fn put_doubt(self, side: Side) -> Result<(), Fault> {
        self.put_heading()?;
        let form =
            "!  doubt     bytes of % came behind the end of this connection: others before them are missing, or that end was not its own";
        self.say_side(form, side)
    }

    // ---- a talk with a port mapper

    // Prints a registration, and its result.
    fn put_registration(self, info: &NodeInfo, answer: &Answer) -> Result<(), Fault> {
        let (name, port) = (Name(info.name.as_slice()), Number(u32::from(info.port)));
        let (form, number) = match registration_of(answer) {
            Some((0, creation)) => ("   registers % at port %: creation %", creation),
            Some((code, _)) => (
                "   registers % at port %: refused, result %",
                u32::from(code),
            ),
            None => return Ok(()),
        };
        self.say(form, &[name, port, Number(number)])
    }

    // Prints what a port mapper was asked, and its answer.
    fn put_answer(self, request: &Request, answer: &Answer) -> Result<(), Fault> {
        self.put_heading()?;
        let port = self.seen.acceptor.port;
        match (request, answer) {
            (Request::Alive(info), answer) => self.put_registration(info, answer),
            (Request::PortPlease(name), Answer::Port(found)) => {
                self.say("   looks up  %", &[Name(name.as_slice())])?;
                match found {
                    Ok(info) => self.lines.put_registration(port, info),
                    Err(_) => self.lines.put_no_answer(port, LookupError::NotThere),
                }
            }
            _ => Ok(()),
        }
    }

    // Prints what a port mapper was asked that gave no answer, or none that is read.
    fn put_unanswered(self, request: Option<&Request>) -> Result<(), Fault> {
        let lacks = self.seen.lacks_bytes(Side::Acceptor);
        let (form, name) = match request {
            None if !self.seen.lacks_bytes(Side::Dialler) => return Ok(()),
            None => ("!  missing   bytes of the request", Text("")),
            Some(Request::Names) => ("   epmd      asked for the names of all nodes", Text("")),
            Some(Request::Alive(info)) => {
                let form = if lacks {
                    "!  missing   bytes of the answer to the registration of %"
                } else {
                    "!  epmd      no answer to the registration of %"
                };
                (form, Name(info.name.as_slice()))
            }
            Some(Request::PortPlease(name)) => {
                let form = if lacks {
                    "!  missing   bytes of the answer to the lookup of %"
                } else {
                    "!  epmd      no answer to the lookup of %"
                };
                (form, Name(name.as_slice()))
            }
        };
        self.put_heading()?;
        self.say(form, &[name])
    }

    // Prints what was said to a port mapper.
    fn put_talk(self, talk: &MapperTalk) -> Result<(), Fault> {
        match (&talk.request, &talk.answer) {
            (Some(request), Some(answer)) => self.put_answer(request, answer),
            (request, _) => self.put_unanswered(request.as_ref()),
        }
    }

    /// Prints that the registration of this name ended with its connection.
    pub fn put_unregistered(self, name: &[u8]) -> Result<(), Fault> {
        self.put_heading()?;
        self.say("   epmd      the registration ended of %", &[Name(name)])
    }

    // ---- what was judged

    /// Prints what was said on a connection, or to a port mapper, or that it carries TLS.
    pub fn put_said(self, judged: &Conclusion) -> Result<(), Fault> {
        match &judged.carried {
            Carried::Handshake(handshake) => {
                self.put_heading()?;
                self.put_messages(handshake)?;
                self.put_missing(judged, handshake)?;
                self.put_strays()
            }
            Carried::Unreached(_) => {
                self.put_heading()?;
                self.put_strays()
            }
            Carried::Talk(talk) => self.put_talk(talk),
            Carried::Tls => {
                self.put_heading()?;
                let form =
                    "   tls       TLS is not looked into: a node of -proto_dist inet_tls, or another program";
                self.say(form, &[])
            }
            Carried::Nothing => Ok(()),
        }
    }

    // ---- the end of a connection that came up

    // For how long a side had sent nothing at this time, and whether it had fallen silent: no tick came, or it did not receive what was sent to
    // it again and again.
    fn silence(self, side: Side, until: u64) -> (u64, bool) {
        let (own, other) = (self.seen.flow(side), self.seen.flow(other_side(side)));
        let waited = until.saturating_sub(own.latest);
        (
            waited,
            waited >= 2 * TICK || other.again > 0 && is_long(own.latest, until),
        )
    }

    // Prints for how long a side had sent nothing, if that was long, and how often it was sent something again.
    fn put_silence(self, side: Side, until: u64) -> Result<(), Fault> {
        let (waited, is_silent) = self.silence(side, until);
        if waited < TICK && !is_silent {
            return Ok(());
        }
        let mark = Text(if is_silent { "!" } else { " " });
        let seconds = seconds_text(self.lines.alloc, waited)?;
        let again = self.seen.flow(other_side(side)).again;
        let form = if again == 0 {
            "%  silent    for % seconds no byte came from %"
        } else {
            "%  silent    for % seconds no byte came from %, to which the other side had sent % packets again"
        };
        self.say(
            form,
            &[
                mark,
                Escaped(&seconds),
                Text(side_word(side)),
                Number(again),
            ],
        )
    }

    // Prints how a connection ended that had been up for so long.
    fn put_how(self, up: u64, now: u64) -> Result<(), Fault> {
        let is_silent = self.silence(Side::Dialler, now).1 || self.silence(Side::Acceptor, now).1;
        let (form, side) = match self.seen.any_end() {
            Some((side, end)) if end.is_reset => (
                "   end       up for % seconds, then reset by %",
                side,
            ),
            Some((side, _)) => ("   end       up for % seconds, then closed by %", side),
            None if is_silent => (
                "   end       up for % seconds, and its end is not in the capture",
                Side::Dialler,
            ),
            None => (
                "   end       up for % seconds, and still when the capture ended",
                Side::Dialler,
            ),
        };
        let seconds = seconds_text(self.lines.alloc, up)?;
        self.say(form, &[Escaped(&seconds), Text(side_word(side))])
    }

    /// Prints how a connection ended that came up then. `now` is the time of the last segment of the capture.
    pub fn put_end(self, up_at: u64, now: u64) -> Result<(), Fault> {
        let (ended, until) = (self.seen.any_end(), self.seen.end_or(now));
        let up = until.saturating_sub(up_at);
        self.put_heading()?;
        self.put_how(up, now)?;
        for side in [Side::Dialler, Side::Acceptor] {
            if !matches!(ended, Some((closer, _)) if closer == side) {
                self.put_silence(side, until)?;
            }
        }
        self.put_strays()?;
        if ended.is_some() && up < SECOND {
            let form = "!  at once   the connection ended within a second of the acknowledgement";
            self.say(form, &[])?;
        }
        Ok(())
    }
}

// Prints which side a verdict is about, as the other one sees it, unless it is about both, or about none.
fn put_subject(lines: LineSink<'_>, verdict: HandshakeVerdict) -> Result<(), Fault> {
    let side = match verdict {
        HandshakeVerdict::Up
        | HandshakeVerdict::Finished
        | HandshakeVerdict::Dynamic
        | HandshakeVerdict::Unfinished
        | HandshakeVerdict::Withdrawn(_)
        | HandshakeVerdict::NotRegistered
        | HandshakeVerdict::NameInUse
        | HandshakeVerdict::MapperFault(_)
        | HandshakeVerdict::NothingFound
        | HandshakeVerdict::NoMemory => return Ok(()),
        HandshakeVerdict::NoName | HandshakeVerdict::Left | HandshakeVerdict::Stopped =>
            Side::Dialler,
        HandshakeVerdict::Foreign(side, _) | HandshakeVerdict::WrongCookie(side) => side,
        HandshakeVerdict::Silent(due, _) | HandshakeVerdict::Unexpected(due) => due.side(),
        _ => Side::Acceptor,
    };
    let (own, other) = (Text(side_word(side)), Text(side_word(other_side(side))));
    say(lines, "   of        %, as % sees it", &[own, other])
}

// The mark before a verdict that has no remedy: nothing can be done, or nothing was concluded.
fn short_mark(verdict: HandshakeVerdict, has_cookie: bool) -> Option<&'static str>
    ensures some { IfSome result (λ mark. mark.now ≡ attempt_mark false verdict) }
    ensures none { IfNone result ((has_colors : Bool) → attempt_mark has_colors verdict ≡ mark_of has_colors (status_of verdict)) }
{
    match verdict {
        HandshakeVerdict::Up => Some("✓"),
        HandshakeVerdict::Finished if has_cookie => Some("✓"),
        HandshakeVerdict::Dynamic | HandshakeVerdict::Unfinished => Some(" "),
        _ => None,
    }
}

// The text of a verdict: one line where nothing can be done, or nothing was concluded.
fn attempt_text(
    lines: LineSink<'_>,
    verdict: HandshakeVerdict,
    has_cookie: bool,
) -> Result<String, AllocError>
    ensures { IfOk result (λ text. IsAttemptText verdict (string_bytes text)) }
{
    let Some(mark) = short_mark(verdict, has_cookie) else {
        return lines.verdict_text(verdict);
    };
    let (name, cause) = (verdict.name(), verdict.cause());
    format!(in lines.alloc; "{mark}  {name}: {cause}\n")
}

/// Prints a verdict: its text goes to `out`, and before it which side it is about, and its details.
pub fn print_verdict<W: Write>(
    lines: LineSink<'_>,
    verdict: HandshakeVerdict,
    has_cookie: bool,
    out: &mut ResultSink<W>,
) -> Result<(), Fault>
    ensures { OnOk result (PrintsText verdict out.old out.new) }
{
    put_subject(lines, verdict)?;
    lines.put_details(verdict)?;
    let text = attempt_text(lines, verdict, has_cookie)?;
    out.print(&text)
}

/// What both sides showed of the cookie that is known, in a sentence. `None` if a side showed nothing, or no cookie is known.
pub fn cookie_sentence(judged: &Conclusion, terms: &Terms<'_>) -> Option<&'static str> {
    let is_refused = matches!(judged.verdict, Some(HandshakeVerdict::WrongCookie(_)));
    let check = judged
        .handshake()?
        .check_cookie(terms.cookie.ok()?, is_refused)?;
    Some(check.sentence())
}

/// Prints what both sides showed of the cookie, if they showed anything, and a cookie is known.
pub fn put_cookie(
    lines: LineSink<'_>,
    judged: &Conclusion,
    terms: &Terms<'_>,
) -> Result<(), Fault> {
    match cookie_sentence(judged, terms) {
        Some(sentence) => say(lines, "   cookie    %", &[Text(sentence)]),
        None => Ok(()),
    }
}

// A node's name; empty if it is not known.
fn name_piece(name: &[u8]) -> LinePiece<'_> {
    if name.is_empty() {
        Text("an unknown node")
    } else {
        Name(name)
    }
}

/// Prints how many attempts between two nodes came to what, and whether others of them leave that in doubt.
pub fn put_pair(lines: LineSink<'_>, pair: &PastDial, is_doubted: bool) -> Result<(), Fault> {
    let form = if is_doubted {
        "   pair      % and %: % %; but they came up too: a cookie was changed, or a node was stopped when it ended the connection"
    } else {
        "   pair      % and %: % %"
    };
    let (one, other) = (
        name_piece(pair.name.as_slice()),
        name_piece(pair.other.as_slice()),
    );
    say(
        lines,
        form,
        &[one, other, Text(pair.verdict.name()), Number(pair.count)],
    )
}
