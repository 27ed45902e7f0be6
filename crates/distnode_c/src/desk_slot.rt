//! The pointer to a desk that C holds.
ghost use Rattle.std.specs.Prelude.{◌≡◌, Option, Some, None};
ghost use Rattle.distnode_c.specs.{declared.desk.RegistryDesk.RegistryDesk, KeptDesk.kept_desk};

use crate::desk::RegistryDesk;
use dist_c_guest::Parts;
use std::alloc::Global;
use std::marker::Model;

/// A place for a boxed desk. Its pointer means something only where the place holds one.
#[repr(C)]
#[derive(Drop)]
pub struct DeskSlot {
    at: *mut u8,
    /// The desk that it holds.
    pub ghost desk: { Option RegistryDesk },
}

impl Model for DeskSlot {
    ghost also_owns = { λ s. kept_desk s.at s.desk };
}

impl DeskSlot {
    // Reads the pointer, and what the slot owned goes with it.
    fn take_parts(&mut self, alloc: Global) -> Parts<RegistryDesk, Global>
        requires { (s : RegistryDesk) × (self.old.desk ≡ Some s) }
        ensures { (self.old.desk ≡ Some result.value) × (self.new.desk ≡ None) }
    {
        Parts {
            ptr: self.at as *mut RegistryDesk,
            alloc,
        }
    }

    // Writes the pointer, and what the parts owned goes with it.
    fn put_parts(&mut self, parts: Parts<RegistryDesk, Global>)
        requires { self.old.desk ≡ None }
        ensures { self.new.desk ≡ Some parts.value }
    {
        let Parts { ptr, alloc: _ } = parts;
        self.at = ptr as *mut u8;
    }

    /// Takes the desk out.
    pub fn take(&mut self, alloc: Global) -> Box<RegistryDesk>
        requires { (s : RegistryDesk) × (self.old.desk ≡ Some s) }
        ensures { (self.old.desk ≡ Some result.value) × (self.new.desk ≡ None) }
    {
        self.take_parts(alloc).into_box()
    }

    /// Puts a desk in.
    pub fn put(&mut self, desk: Box<RegistryDesk>)
        requires { self.old.desk ≡ None }
        ensures { self.new.desk ≡ Some desk.value }
    {
        self.put_parts(Parts::of(desk));
    }
}
