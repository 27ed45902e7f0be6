//! What was found out about a connection that was taken, as one JSON object.

ghost use Rattle.std.specs.Prelude.{◌≡◌, IfOk, codes, string_bytes};
ghost use Rattle.distping_report.specs.Objects.{Shape, layout_of, member, no_member};
ghost use Rattle.distping_report.specs.Results.{ShowsVerdict};

use crate::asked::Listen;
use crate::found::Caller;
use crate::objects::member::{FORM, Member, Value, begin_line, end_line, put_members};
use crate::objects::parts::{Judged, lacking_flags, put_peer, verdict_members};
use crate::objects::values::{address_or_null, small_number};
use dist_talk::HandshakeVerdict;
use std::alloc::{AllocError, Global};

// The listener's name, and where the connection came from and went to.
fn call_members<'x>(listen: &Listen<'x>, caller: &Caller) -> [Member<'x>; 3]
    ensures { (name : Shape) × (address : Shape) × (port : Shape)
        × (layout_of result ≡ member (codes "name") name (member (codes "address") address (member (codes "port") port no_member))) }
{
    [
        ("name", Value::Name(listen.own.setup.name.bytes())),
        ("address", address_or_null(caller.address)),
        ("port", small_number(listen.port)),
    ]
}

/// What was found out about a caller, and the result, as one line.
pub fn caller_object(
    alloc: Global,
    listen: &Listen<'_>,
    caller: &Caller,
    verdict: HandshakeVerdict,
) -> Result<String, AllocError>
    ensures { IfOk result (λ line. ShowsVerdict (codes "connection") verdict (string_bytes line)) }
{
    let mut out = begin_line(alloc)?;
    let head = [("type", Value::Text("connection")), ("form", FORM)];
    put_members(alloc, &mut out, &head)?;
    put_members(alloc, &mut out, &call_members(listen, caller))?;
    put_peer(alloc, &mut out, caller.peer())?;
    let lacking = Value::Names(lacking_flags(verdict, caller.peer()));
    put_members(
        alloc,
        &mut out,
        &verdict_members(lacking, Judged::of(verdict)),
    )?;
    end_line(out)
}
