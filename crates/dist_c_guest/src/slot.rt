//! The node that C holds, and the pointer to its guest.
ghost use Rattle.std.specs.{Prelude.◌≡◌, Prelude.◌==◌, Prelude.Option, Prelude.Some, Prelude.None, Borrow.sem};
ghost use Rattle.dist_c_guest.specs.{declared.guest.Guest.Guest, Kept.is_held, Kept.owns_guest};

use crate::guest::Guest;
use crate::parts::Parts;
use std::alloc::Global;
use std::marker::Model;
use std::mem::size_of;

const _: () = prove!(size_of::<DnNode>() == 16);

/// A place for a boxed guest. Its pointer means something only where the place holds one.
#[repr(C)]
#[derive(Drop)]
pub struct Slot {
    at: *mut u8,
    /// The guest that it holds.
    pub ghost guest: { Option Guest },
}

impl Model for Slot {
    ghost also_owns = { λ s. owns_guest s.at s.guest };
}

// The guest has no other owner, so it goes with its place to whatever thread that goes to.
unsafe impl Send for Slot {}

impl Slot {
    ghost use Rattle.dist_c_guest.specs.Lending.{LendsGuest};

    /// Lends the guest.
    pub fn lend(&mut self) -> &mut Guest
        requires { (s : Guest) × (self.old.guest ≡ Some s) }
        ensures* lends { sem 𝓛 (LendsGuest self.entry result) }
        ensures value { self.old.guest ≡ Some result.now }
    {
        unsafe { &mut *(self.at as *mut Guest) }
    }

    // Reads the pointer, and what the slot owned goes with it.
    fn take_parts(&mut self, alloc: Global) -> Parts<Guest, Global>
        requires { (s : Guest) × (self.old.guest ≡ Some s) }
        ensures { (self.old.guest ≡ Some result.value) × (self.new.guest ≡ None) }
    {
        Parts {
            ptr: self.at as *mut Guest,
            alloc,
        }
    }

    // Writes the pointer, and what the parts owned goes with it.
    fn put_parts(&mut self, parts: Parts<Guest, Global>)
        requires { self.old.guest ≡ None }
        ensures { self.new.guest ≡ Some parts.value }
    {
        let Parts { ptr, alloc: _ } = parts;
        self.at = ptr as *mut u8;
    }

    /// Lets the guest go, with all its memory.
    pub fn let_go(&mut self, alloc: Global)
        requires { (s : Guest) × (self.old.guest ≡ Some s) }
        ensures { self.new.guest ≡ None }
    {
        drop(self.take_parts(alloc).into_box());
    }

    /// Puts a guest in.
    pub fn put(&mut self, guest: Box<Guest>)
        requires { self.old.guest ≡ None }
        ensures { self.new.guest ≡ Some guest.value }
    {
        self.put_parts(Parts::of(guest));
    }
}

/// What stands in a node that holds a guest: `distnode` in ASCII.
pub const MARK: u64 = 0x646973746e6f6465;

/// A node in C's memory.
#[repr(C)]
#[derive(Drop)]
pub struct DnNode {
    /// The guest.
    pub slot: Slot,
    /// Whether there is one.
    pub mark: u64,
    pub ghost marked: { is_held slot.guest ≡ (mark == 7235441220253607013) },
}

// What may move to another thread: the check finds it of a node, since it holds of each of its fields.
trait Moves: Send {}

impl Moves for DnNode {}
