//! A registry of the port mapper is made, asked, and let go.
ghost use Rattle.std.specs.{Prelude.◌≡◌, Prelude.Option, Prelude.Some, Prelude.None, Int.w16};
ghost use Rattle.dist_frames.specs.Stream.{first_body};
ghost use Rattle.dist_c_guest.specs.Nodes.{Frees};
ghost use Rattle.distnode_c.specs.Desks.{Opens, Asked, Answers, CopiesText, Closes, answer_text};

use crate::codes::epmd_code;
use crate::desk::{DeskError, RegistryDesk, registered_number};
use crate::held::{DnRegistry, REGISTRY_MARK};
use dist_c_guest::{AWAITS, IN_USE, NO_MEMORY, NOT_A_NODE, OK, copy_out};
use dist_epmd::{Answer, encode_answer};
use std::alloc::Global;
use std::mem::size_of;

const _: () = prove!(size_of::<DnServed>() == 16);

/// What became of a request.
#[repr(C)]
#[derive(Drop)]
pub struct DnServed {
    /// How many of the bytes that were given belong to the frame that was taken.
    pub taken: usize,
    /// 1 where the node that asked is registered.
    pub registered: u32,
}

/// Makes a registry without nodes, in a struct that holds none.
#[unsafe(no_mangle)]
pub extern "C" fn dn_registry_new(
    registry: &mut DnRegistry,
    alloc: Global,
    port: u16,
    first: u32,
) -> u32
    ensures { Opens port first result registry.old.slot.desk registry.new.slot.desk }
{
    if registry.mark == REGISTRY_MARK {
        return IN_USE;
    }
    match Box::new(alloc, RegistryDesk::new(alloc, port, first)) {
        Ok(desk) => {
            registry.shut(desk);
            OK
        }
        Err(_) => NO_MEMORY,
    }
}

/// Lets a registry go, with all its memory.
#[unsafe(no_mangle)]
pub extern "C" fn dn_registry_free(registry: &mut DnRegistry, alloc: Global) -> u32
    ensures { Frees result registry.old.slot.desk registry.new.slot.desk }
{
    match registry.open(alloc) {
        Some(desk) => {
            drop(desk);
            OK
        }
        None => NOT_A_NODE,
    }
}

/// Bytes came on a connection: the request of the frame at their front is answered.
#[unsafe(no_mangle)]
pub extern "C" fn dn_registry_asked(
    registry: &mut DnRegistry,
    alloc: Global,
    connection: u64,
    bytes: &[u8],
    served: &mut DnServed,
) -> u32
    ensures { Asked connection (first_body w16 bytes.now) result registry.old.slot.desk registry.new.slot.desk served.old served.new }
{
    let Some(mut desk) = registry.open(alloc) else {
        return NOT_A_NODE;
    };
    let code = match desk.receive(alloc, connection, bytes) {
        Ok(taken) => {
            if let Some(answer) = &desk.last {
                *served = DnServed {
                    taken,
                    registered: registered_number(answer),
                };
            }
            OK
        }
        Err(DeskError::Awaits) => AWAITS,
        Err(DeskError::Request(error)) => epmd_code(error),
    };
    registry.shut(desk);
    code
}

fn copy_answer(alloc: Global, last: &Option<Answer>, room: &mut [u8], len: &mut usize) -> u32
    ensures { CopiesText (answer_text last.now) result len.old len.new room.old room.new }
{
    match last {
        Some(answer) => match encode_answer(alloc, answer) {
            Ok(text) => copy_out(&text, room, len),
            Err(error) => epmd_code(error),
        },
        None => copy_out(&[], room, len),
    }
}

/// Copies the bytes of the newest answer.
#[unsafe(no_mangle)]
pub extern "C" fn dn_registry_say(
    registry: &mut DnRegistry,
    alloc: Global,
    room: &mut [u8],
    len: &mut usize,
) -> u32
    ensures says { Answers registry.old.slot.desk result len.old len.new room.old room.new }
    ensures same { registry.new.slot.desk ≡ registry.old.slot.desk }
{
    let Some(desk) = registry.open(alloc) else {
        return NOT_A_NODE;
    };
    let code = copy_answer(alloc, &desk.last, room, len);
    registry.shut(desk);
    code
}

/// A connection is closed: what was registered on it is dropped.
#[unsafe(no_mangle)]
pub extern "C" fn dn_registry_closed(
    registry: &mut DnRegistry,
    alloc: Global,
    connection: u64,
) -> u32
    ensures { Closes connection result registry.old.slot.desk registry.new.slot.desk }
{
    let Some(mut desk) = registry.open(alloc) else {
        return NOT_A_NODE;
    };
    desk.registry.closed(connection);
    registry.shut(desk);
    OK
}
