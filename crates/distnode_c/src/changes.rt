//! Which peers may connect, and under which cookie: changes of a node's setup, at any time between two steps.
ghost use Rattle.dist_names.specs.NodeName.{name_of_bytes};
ghost use Rattle.dist_secret.specs.Cookie.{cookie_of};
ghost use Rattle.dist_c_guest.specs.Changes.{AllowsText, AtGuest, DisallowsText, Keys, KeysUsually, Unkeys};
ghost use Rattle.dist_c_guest.specs.Forms.{has_form};

use dist_c_guest::{
    DnNode, MARK, NOT_A_NODE, allow_text, disallow_text, has_form, set_cookie, set_usual_cookie,
    take_cookie,
};
use std::alloc::Global;

/// Lets this peer connect, or all of a host, or all of a name before the `@`. From the first such call on only peers that were
/// named so may.
#[unsafe(no_mangle)]
pub extern "C" fn dn_node_allow(node: &mut DnNode, alloc: Global, peer: &[u8]) -> u32
    ensures { AtGuest (AllowsText (has_form peer.now) peer.now result) result node.old.slot.guest node.new.slot.guest }
{
    if node.mark != MARK {
        return NOT_A_NODE;
    }
    allow_text(node.slot.lend(), alloc, peer)
}

/// Lets this peer, or a form, connect no more, where the peers that may are listed.
#[unsafe(no_mangle)]
pub extern "C" fn dn_node_disallow(node: &mut DnNode, alloc: Global, peer: &[u8]) -> u32
    ensures { AtGuest (DisallowsText (has_form peer.now) peer.now result) result node.old.slot.guest node.new.slot.guest }
{
    if node.mark != MARK {
        return NOT_A_NODE;
    }
    disallow_text(node.slot.lend(), alloc, peer)
}

/// Keeps a cookie for this peer; one that it has of its own is replaced.
#[unsafe(no_mangle)]
pub extern "C" fn dn_node_cookie(
    node: &mut DnNode,
    alloc: Global,
    peer: &[u8],
    cookie: &[u8],
) -> u32
    ensures { AtGuest (Keys (name_of_bytes peer.now) (cookie_of cookie.now) result) result node.old.slot.guest node.new.slot.guest }
{
    if node.mark != MARK {
        return NOT_A_NODE;
    }
    set_cookie(node.slot.lend(), alloc, peer, cookie)
}

/// Takes away the cookie that this peer has of its own.
#[unsafe(no_mangle)]
pub extern "C" fn dn_node_no_cookie(node: &mut DnNode, alloc: Global, peer: &[u8]) -> u32
    ensures { AtGuest (Unkeys (name_of_bytes peer.now) result) result node.old.slot.guest node.new.slot.guest }
{
    if node.mark != MARK {
        return NOT_A_NODE;
    }
    take_cookie(node.slot.lend(), alloc, peer)
}

/// Changes the cookie of every peer that has none of its own.
#[unsafe(no_mangle)]
pub extern "C" fn dn_node_usual_cookie(node: &mut DnNode, alloc: Global, cookie: &[u8]) -> u32
    ensures { AtGuest (KeysUsually (cookie_of cookie.now) result) result node.old.slot.guest node.new.slot.guest }
{
    if node.mark != MARK {
        return NOT_A_NODE;
    }
    set_usual_cookie(node.slot.lend(), alloc, cookie)
}
