//! The objects of `--json`: of a connection of the distribution, a request to a port mapper, a doubt, a pair of nodes, and the whole capture.

ghost use Rattle.std.specs.Prelude.{◌≡◌, IfOk, codes, string_bytes};
ghost use Rattle.distping_capture.specs.Printing.{ShowsVerdict};

use crate::dials::PastDial;
use crate::left_out::PacketsLeftOut;
use crate::lines::cookie_sentence;
use dist_conversation::{Conclusion, Conversation};
use dist_epmd::Request;
use dist_messages::Side;
use dist_talk::{HandshakeVerdict, NodeDescription, Terms};
use distping_report::{Value, object_line};
use std::alloc::{AllocError, Global};

// A number, or null.
fn number_value(number: Option<u64>) -> Value<'static> {
    match number {
        Some(number) => Value::Number(number),
        None => Value::Null,
    }
}

// A word or a sentence, or null.
fn text_value(text: Option<&'static str>) -> Value<'static> {
    match text {
        Some(text) => Value::Text(text),
        None => Value::Null,
    }
}

// A name, or null where it is empty.
fn name_value(name: &[u8]) -> Value<'_> {
    if name.is_empty() {
        Value::Null
    } else {
        Value::Name(name)
    }
}

// The name of a side, its creation and its flags, each or null.
fn side_values(side: Option<NodeDescription<'_>>) -> [Value<'_>; 3] {
    match side {
        Some(side) => {
            let creation = side.creation.map(|it| u64::from(it.0));
            [
                Value::Name(side.name),
                number_value(creation),
                Value::Digits(side.flags),
            ]
        }
        None => [Value::Null, Value::Null, Value::Null],
    }
}

/// The object of a connection, as one line: the verdict that it came to. If its end is not in the capture, it lasts until now.
pub fn attempt_object(
    alloc: Global,
    seen: &Conversation,
    judged: &Conclusion,
    verdict: HandshakeVerdict,
    terms: &Terms<'_>,
    now: u64,
) -> Result<String, AllocError>
    ensures { IfOk result (λ line. ShowsVerdict (codes "handshake") verdict (string_bytes line)) }
{
    let [dialler, dialler_creation, dialler_flags] = side_values(judged.description_of(
        Side::Dialler,
    ));
    let [acceptor, acceptor_creation, acceptor_flags] = side_values(judged.description_of(
        Side::Acceptor,
    ));
    let until = seen.end_or(now);
    let up = judged
        .up_since()
        .map(|up_at| until.saturating_sub(up_at) / 1_000_000);
    let (from, to) = (seen.dialler, seen.acceptor);
    let members = [
        ("type", Value::Text("handshake")),
        ("form", Value::Number(1)),
        ("verdict", Value::Text(verdict.name())),
        ("exit", Value::Number(u64::from(verdict.status()))),
        ("began", Value::Number(seen.began / 1_000_000)),
        ("dialler", dialler),
        ("dialler_address", Value::Host(from.address)),
        ("dialler_port", Value::Number(u64::from(from.port))),
        ("dialler_creation", dialler_creation),
        ("dialler_flags", dialler_flags),
        ("acceptor", acceptor),
        ("acceptor_address", Value::Host(to.address)),
        ("acceptor_port", Value::Number(u64::from(to.port))),
        ("acceptor_creation", acceptor_creation),
        ("acceptor_flags", acceptor_flags),
        ("cause", Value::Text(verdict.cause())),
        ("remedy", Value::Text(verdict.remedy())),
        ("cookie", text_value(cookie_sentence(judged, terms))),
        ("up", number_value(up)),
    ];
    object_line(alloc, &members)
}

// What a port mapper was asked, and for which name.
fn request_values(request: Option<&Request>) -> [Value<'_>; 2] {
    match request {
        Some(Request::Alive(info)) => [
            Value::Text("registration"),
            Value::Name(info.name.as_slice()),
        ],
        Some(Request::PortPlease(name)) => [Value::Text("lookup"), Value::Name(name.as_slice())],
        Some(Request::Names) => [Value::Text("names"), Value::Null],
        None => [Value::Null, Value::Null],
    }
}

/// The object of a request to a port mapper that it did not grant, as one line.
pub fn mapper_object(
    alloc: Global,
    seen: &Conversation,
    judged: &Conclusion,
    verdict: HandshakeVerdict,
) -> Result<String, AllocError>
    ensures { IfOk result (λ line. ShowsVerdict (codes "mapper") verdict (string_bytes line)) }
{
    let [asked, name] = request_values(judged.request());
    let (from, to) = (seen.dialler, seen.acceptor);
    let members = [
        ("type", Value::Text("mapper")),
        ("form", Value::Number(1)),
        ("verdict", Value::Text(verdict.name())),
        ("exit", Value::Number(u64::from(verdict.status()))),
        ("began", Value::Number(seen.began / 1_000_000)),
        ("request", asked),
        ("name", name),
        ("dialler_address", Value::Host(from.address)),
        ("dialler_port", Value::Number(u64::from(from.port))),
        ("acceptor_address", Value::Host(to.address)),
        ("acceptor_port", Value::Number(u64::from(to.port))),
        ("cause", Value::Text(verdict.cause())),
        ("remedy", Value::Text(verdict.remedy())),
    ];
    object_line(alloc, &members)
}

/// The object of a verdict that is left in doubt, as one line: bytes of this side came behind the end on which it rests.
pub fn doubt_object(alloc: Global, seen: &Conversation, side: Side) -> Result<String, AllocError> {
    let (from, to) = (seen.dialler, seen.acceptor);
    let side = match side {
        Side::Dialler => "dialler",
        Side::Acceptor => "acceptor",
    };
    let members = [
        ("type", Value::Text("doubt")),
        ("form", Value::Number(1)),
        ("side", Value::Text(side)),
        ("began", Value::Number(seen.began / 1_000_000)),
        ("dialler_address", Value::Host(from.address)),
        ("dialler_port", Value::Number(u64::from(from.port))),
        ("acceptor_address", Value::Host(to.address)),
        ("acceptor_port", Value::Number(u64::from(to.port))),
    ];
    object_line(alloc, &members)
}

/// The object of a line of the summary, as one line.
pub fn pair_object(alloc: Global, pair: &PastDial) -> Result<String, AllocError> {
    let members = [
        ("type", Value::Text("pair")),
        ("form", Value::Number(1)),
        ("first", name_value(pair.name.as_slice())),
        ("second", name_value(pair.other.as_slice())),
        ("verdict", Value::Text(pair.verdict.name())),
        ("count", Value::Number(u64::from(pair.count))),
        ("exit", Value::Number(u64::from(pair.exit))),
    ];
    object_line(alloc, &members)
}

/// The object of what was left out of a capture, as one line, with the verdict if nothing was found, and the exit status.
pub fn capture_object(
    alloc: Global,
    left_out: &PacketsLeftOut,
    verdict: Option<HandshakeVerdict>,
    status: u8,
) -> Result<String, AllocError> {
    let counts = left_out.counts;
    let members = [
        ("type", Value::Text("capture")),
        ("form", Value::Number(1)),
        ("unknown_link", Value::Number(counts.unknown_link)),
        (
            "unknown_type",
            number_value(counts.unknown_type.map(u64::from)),
        ),
        ("cut_short", Value::Number(counts.cut_short)),
        ("vxlan", Value::Number(counts.vxlan)),
        ("gre", Value::Number(counts.gre)),
        ("ip_in_ip", Value::Number(counts.ip_in_ip)),
        ("many_headers", Value::Number(counts.many_headers)),
        ("fragment", Value::Number(counts.fragment)),
        ("malformed", Value::Number(counts.malformed)),
        ("other_protocol", Value::Number(counts.other_protocol)),
        ("forgotten", Value::Number(left_out.forgotten)),
        ("cut_off", Value::Bool(left_out.is_cut_off)),
        ("verdict", text_value(verdict.map(|it| it.name()))),
        ("exit", Value::Number(u64::from(status))),
    ];
    object_line(alloc, &members)
}
