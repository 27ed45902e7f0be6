//! A node is made, begins anew, forgets, and is let go.
ghost use Rattle.std.specs.Prelude.{Ok};
ghost use Rattle.dist_names.specs.NodeName.{name_of_bytes};
ghost use Rattle.dist_secret.specs.Cookie.{cookie_of};
ghost use Rattle.dist_c_guest.specs.{Nodes.News, Nodes.version_of, Nodes.Frees, Ends.Forgets, Ends.Renews};

use dist_c_guest::{DnNode, DnSetup, IN_USE, MARK, NOT_A_NODE, OK, new_guest, renew};
use dist_peers::EndId;
use std::alloc::Global;

/// Makes a node without ends, in a struct that holds none: one that is whole, so that `guests_agree` holds of it. `NO_MEMORY`
/// may come before `HALF_FLAGS`.
#[unsafe(no_mangle)]
pub extern "C" fn dn_node_new(
    node: &mut DnNode,
    alloc: Global,
    name: &[u8],
    cookie: &[u8],
    setup: &DnSetup,
) -> u32
    ensures { News (version_of setup.now.version) (name_of_bytes name.now) (cookie_of cookie.now) setup.now result node.old.slot.guest node.new.slot.guest }
{
    if node.mark == MARK {
        return IN_USE;
    }
    match new_guest(alloc, name, cookie, setup) {
        Ok(guest) => {
            node.slot.put(guest);
            node.mark = MARK;
            OK
        }
        Err(code) => code,
    }
}

/// Lets a node go, with all its memory.
#[unsafe(no_mangle)]
pub extern "C" fn dn_node_free(node: &mut DnNode, alloc: Global) -> u32
    ensures { Frees result node.old.slot.guest node.new.slot.guest }
{
    if node.mark != MARK {
        return NOT_A_NODE;
    }
    node.mark = 0;
    node.slot.let_go(alloc);
    OK
}

/// Begins anew, where no end is open.
#[unsafe(no_mangle)]
pub extern "C" fn dn_node_renew(node: &mut DnNode, alloc: Global) -> u32
    ensures { Renews result node.old.slot.guest node.new.slot.guest }
{
    if node.mark != MARK {
        return NOT_A_NODE;
    }
    renew(node.slot.lend(), alloc)
}

/// Forgets why the ends below a number were closed.
#[unsafe(no_mangle)]
pub extern "C" fn dn_node_forget(node: &mut DnNode, below: u32) -> u32
    ensures { Forgets below result node.old.slot.guest node.new.slot.guest }
{
    if node.mark != MARK {
        return NOT_A_NODE;
    }
    let guest = node.slot.lend();
    guest.node.forget(EndId(below));
    OK
}
