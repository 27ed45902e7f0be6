//! What the registry answers to a client that asks.

ghost use Rattle.std.specs.{Prelude.◌≡◌, Prelude.false, Prelude.IfOk, Prelude.OnOk, Prelude.OnErr, Prelude.option_copied, List.list_any};
ghost use Rattle.dist_epmd.specs.Registrations.{after_closed, is_of, registered_name};
ghost use Rattle.dist_epmd_calls.specs.Serving.{served_as};
ghost use Rattle.dist_epmd_clients.specs.{Replying.answer_for, Replying.registrations_after, Replying.text_of, Clients.Keeps, Standing.client_name};

use crate::client::{Client, Talk};
use dist_epmd::{Answer, EpmdError, Registry, Request, encode_answer};
use dist_epmd_calls::{Mapper, Served, served_as};
use dist_names::ByteString;
use std::alloc::{AllocError, Global};

// The bytes of an answer, and none where it has no spelling.
fn text_of(alloc: Global, answer: &Answer) -> Result<ByteString, AllocError>
    ensures { IfOk result (λ text. text ≡ text_of answer.now) }
{
    match encode_answer(alloc, answer) {
        Ok(bytes) => Ok(ByteString::from_vec(bytes)),
        Err(EpmdError::NoMemory) => Err(AllocError),
        Err(_) => Ok(ByteString::new(alloc)),
    }
}

// Asks the registry. A registration does not look through all rows for an earlier one of its connection.
fn ask_first(
    registry: &mut Registry,
    alloc: Global,
    conn: u64,
    request: &Request,
) -> Result<Answer, AllocError>
    // The client of this connection has not asked yet.
    requires { list_any (is_of conn) registry.old.rows ≡ false }
    ensures answer { IfOk result (λ answer. answer ≡ answer_for conn request.now registry.old) }
    ensures after { OnOk result (registry.new ≡ registrations_after conn request.now registry.old) }
    ensures err { OnErr result (registry.new ≡ registry.old) }
{
    if let Request::Alive(info) = request {
        return registry.alive_first(alloc, conn, info);
    }
    registry.ask(alloc, conn, request)
}

/// Asks the registry. Returns how the request is served, and the bytes of the answer.
///
/// After an `Err` the registrations are those that there were. A creation may be used up.
pub fn reply_to(
    registry: &mut Registry,
    alloc: Global,
    conn: u64,
    request: &Request,
) -> Result<(Served, ByteString), AllocError>
    // The client of this connection has not asked yet.
    requires { list_any (is_of conn) registry.old.rows ≡ false }
    ensures served { IfOk result (λ r. r.0 ≡ served_as request.now (answer_for conn request.now registry.old)) }
    ensures text { IfOk result (λ r. r.1 ≡ text_of (answer_for conn request.now registry.old)) }
    ensures after { OnOk result (registry.new ≡ registrations_after conn request.now registry.old) }
    ensures err { OnErr result (Keeps registry.old registry.new) }
{
    let answer = ask_first(registry, alloc, conn, request)?;
    let Ok(text) = text_of(alloc, &answer) else {
        registry.closed(conn);
        return Err(AllocError);
    };
    Ok((served_as(request, &answer), text))
}

/// Drops the registration of a connection, where its client has one.
pub fn drop_registration<S>(registry: &mut Registry, conn: u64, client: Option<&Client<S>>)
    // The caller looked it up, and registrations stand.
    requires { registered_name conn registry.old ≡ client_name (option_copied client) }
    ensures { registry.new ≡ after_closed conn registry.old }
{
    let Some(client) = client else {
        return;
    };
    if let Talk::Registered(name) = &client.talk {
        registry.closed_as(conn, name.as_slice());
    }
}
