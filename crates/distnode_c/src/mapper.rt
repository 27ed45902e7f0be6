//! The messages of the port mapper, and the digest of a cookie.
ghost use Rattle.std.specs.Prelude.{◌≡◌};
ghost use Rattle.dist_secret.specs.Cookie.{cookie_of};
ghost use Rattle.dist_epmd.specs.{Reading.read_answer, Layout.written_request};
ghost use Rattle.distnode_c.specs.Mapper.{Asks, ReportsAlive, ReportsPort, Digests, alive_of};

use crate::codes::epmd_code;
use dist_c_guest::{NO_MEMORY, OK, cookie_code, copy_out};
use dist_epmd::{Answer, Asked, EpmdError, NodeInfo, Request, decode_answer, encode_request};
use dist_frames::{FrameError, write_short};
use dist_names::ByteString;
use dist_secret::{Cookie, digest};
use std::alloc::Global;
use std::mem::size_of;

const _: () = prove!(size_of::<DnInfo>() == 8);

// The most bytes of a request. A registration has 13 beside the node's name, and a lookup 1.
const MOST: usize = 65535;

/// What the port mapper knows of a node, but for its name.
#[repr(C)]
#[derive(Drop)]
pub struct DnInfo {
    /// Where it accepts connections.
    pub port: u16,
    /// The highest version of the handshake that it knows.
    pub highest: u16,
    /// The lowest one.
    pub lowest: u16,
    /// 0x4d for a normal node, 0x48 for a hidden one.
    pub node_type: u8,
    /// 0 for TCP over IPv4.
    pub protocol: u8,
}

// Copies the frame of a request.
fn copy_request(alloc: Global, request: &Request, room: &mut [u8], len: &mut usize) -> u32
    ensures { Asks (written_request request.now) result len.old len.new room.old room.new }
{
    match encode_request(alloc, request) {
        Ok(body) => match write_short(alloc, &body) {
            Ok(frame) => copy_out(&frame, room, len),
            Err(FrameError::NoMemory) => NO_MEMORY,
            Err(FrameError::TooLong) => epmd_code(EpmdError::Malformed),
        },
        Err(error) => epmd_code(error),
    }
}

/// Copies the frame by which a node registers.
#[unsafe(no_mangle)]
pub extern "C" fn dn_epmd_alive_request(
    alloc: Global,
    info: &DnInfo,
    name: &[u8],
    room: &mut [u8],
    len: &mut usize,
) -> u32
    ensures { Asks (written_request (alive_of info.now name.now)) result len.old len.new room.old room.new }
{
    if name.len() > MOST - 13 {
        return epmd_code(EpmdError::Malformed);
    }
    let Ok(name) = ByteString::from_slice(alloc, name) else {
        return NO_MEMORY;
    };
    let info = NodeInfo {
        port: info.port,
        node_type: info.node_type,
        protocol: info.protocol,
        highest: info.highest,
        lowest: info.lowest,
        name,
        extra: ByteString::new(alloc),
    };
    copy_request(alloc, &Request::Alive(info), room, len)
}

/// Copies the frame that asks for the node of this name, the part before the `@`.
#[unsafe(no_mangle)]
pub extern "C" fn dn_epmd_port_request(
    alloc: Global,
    name: &[u8],
    room: &mut [u8],
    len: &mut usize,
) -> u32
    ensures { Asks (written_request (Request.PortPlease name.now)) result len.old len.new room.old room.new }
{
    if name.len() > MOST - 1 {
        return epmd_code(EpmdError::Malformed);
    }
    let Ok(name) = ByteString::from_slice(alloc, name) else {
        return NO_MEMORY;
    };
    copy_request(alloc, &Request::PortPlease(name), room, len)
}

/// Copies the frame that asks for all names.
#[unsafe(no_mangle)]
pub extern "C" fn dn_epmd_names_request(alloc: Global, room: &mut [u8], len: &mut usize) -> u32
    ensures { Asks (written_request Request.Names) result len.old len.new room.old room.new }
{
    copy_request(alloc, &Request::Names, room, len)
}

/// Reads the answer to a registration. A result of 0 is success.
#[unsafe(no_mangle)]
pub extern "C" fn dn_epmd_alive_answer(
    alloc: Global,
    bytes: &[u8],
    outcome: &mut u32,
    creation: &mut u32,
) -> u32
    ensures { ReportsAlive (read_answer Asked.Alive bytes.now) result outcome.old outcome.new creation.old creation.new }
{
    match decode_answer(alloc, Asked::Alive, bytes) {
        Ok(
            Answer::AliveX {
                result_code,
                creation: given,
            },
        ) => {
            *outcome = result_code as u32;
            *creation = given;
            OK
        }
        Ok(
            Answer::Alive {
                result_code,
                creation: given,
            },
        ) => {
            *outcome = result_code as u32;
            *creation = given as u32;
            OK
        }
        Ok(_) => epmd_code(EpmdError::Malformed),
        Err(error) => epmd_code(error),
    }
}

/// Reads the answer to a lookup. A result of 0 is success, and then there is a node.
#[unsafe(no_mangle)]
pub extern "C" fn dn_epmd_port_answer(
    alloc: Global,
    bytes: &[u8],
    outcome: &mut u32,
    info: &mut DnInfo,
) -> u32
    ensures { ReportsPort (read_answer Asked.Port bytes.now) result outcome.old outcome.new info.old info.new }
{
    match decode_answer(alloc, Asked::Port, bytes) {
        Ok(Answer::Port(Ok(found))) => {
            *info = DnInfo {
                port: found.port,
                highest: found.highest,
                lowest: found.lowest,
                node_type: found.node_type,
                protocol: found.protocol,
            };
            *outcome = 0;
            OK
        }
        Ok(Answer::Port(Err(code))) => {
            *outcome = code as u32;
            OK
        }
        Ok(_) => epmd_code(EpmdError::Malformed),
        Err(error) => epmd_code(error),
    }
}

/// The digest of a challenge under a cookie.
#[unsafe(no_mangle)]
pub extern "C" fn dn_cookie_digest(
    alloc: Global,
    cookie: &[u8],
    challenge: u32,
    room: &mut [u8; 16],
) -> u32
    ensures { Digests (cookie_of cookie.now) challenge result room.old room.new }
{
    match Cookie::from_bytes(alloc, cookie) {
        Ok(cookie) => {
            *room = digest(&cookie, challenge);
            OK
        }
        Err(error) => cookie_code(error),
    }
}
