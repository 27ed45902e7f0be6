//! What the journal hears of what is done.

ghost use Rattle.std.specs.Prelude.{◌≡◌, IfOk};
ghost use Rattle.dist_epmd_clients.specs.{Replying.name_in, Reporting.answered_event, Reporting.registered_event, Reporting.talk_ended};

use crate::client::Talk;
use crate::event::ClientEvent;
use dist_epmd::{NodeInfo, Registry, Request};
use dist_names::ByteString;
use std::alloc::{AllocError, Global};

/// The name that a request has, and none where it has no name.
pub fn name_in(alloc: Global, request: Request) -> ByteString
    ensures { result ≡ name_in request }
{
    match request {
        Request::Alive(info) => {
            let NodeInfo { name, .. } = info;
            name
        }
        Request::PortPlease(name) => name,
        Request::Names => ByteString::new(alloc),
    }
}

/// The connection of a client is over, whose talk stood here.
pub fn talk_ended(conn: u64, talk: Talk) -> Option<ClientEvent>
    ensures { result ≡ talk_ended conn talk }
{
    match talk {
        Talk::Asking(_) => None,
        Talk::Registered(name) => Some(ClientEvent::Ended { conn, name }),
    }
}

/// What happens where the node of a request is registered. Its name is copied before the request is answered, so that no event is
/// missed for lack of memory.
pub fn registration_event(
    alloc: Global,
    conn: u64,
    request: &Request,
) -> Result<Option<ClientEvent>, AllocError>
    ensures { IfOk result (λ event. event ≡ registered_event conn request.now) }
{
    match request {
        Request::Alive(info) => {
            let (name, port) = (info.name.try_clone(alloc)?, info.port);
            Ok(Some(ClientEvent::Registered { conn, name, port }))
        }
        Request::PortPlease(_) | Request::Names => Ok(None),
    }
}

/// A request was answered, and no node is registered for it.
pub fn answered_event(registry: &Registry, conn: u64, request: Request) -> ClientEvent
    ensures { result ≡ answered_event conn request registry.now }
{
    match request {
        Request::Alive(info) => {
            let NodeInfo { name, .. } = info;
            let is_taken = registry.port_please(name.as_slice()).is_some();
            ClientEvent::Refused {
                conn,
                name,
                is_taken,
            }
        }
        Request::PortPlease(_) => ClientEvent::LookedUp,
        Request::Names => ClientEvent::Listed,
    }
}
