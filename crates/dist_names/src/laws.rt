//! What names and flags are, in the words of the protocol: laws over the definitions alone.

ghost use Rattle.std.specs.{Prelude.◌≡◌, Prelude.◌<◌, Prelude.◌++◌, Prelude.◌∷◌, Prelude.ℕ, Prelude.true, declared.cmp.Ordering.TheVariants.Less};
ghost use Rattle.dist_names.specs.{Flags.handshake_23, Flags.name_me, NodeName.IsNodeName, NodeName.short_of, NodeName.host_of, Order.Name, Order.name_cmp};
ghost use Rattle.dist_names.specs.{Order.same_name};

use crate::flags::Flags;

/// Two names compare as strings of unsigned bytes.
pub fn order_of_names()
    // The first byte that differs decides, whatever follows it.
    ensures differing { (front ours theirs : Name) (low high : ℕ) → low < high → name_cmp (front ++ low ∷ ours) (front ++ high ∷ theirs) ≡ Less }

    // Where none differs, the shorter name is smaller.
    ensures prefix { (front more : Name) (next : ℕ) → name_cmp front (front ++ next ∷ more) ≡ Less }

    // Names that compare as equal are the same name, and a name compares as equal with itself.
    ensures one { (ours theirs : Name) → same_name ours theirs ≡ true → ours ≡ theirs }
    ensures itself { (name : Name) → same_name name name ≡ true }
{}

/// A name is its short name, one `@` and its host.
pub fn parts_of_names()
    ensures { (name : Name) → IsNodeName name → name ≡ short_of name ++ 0x40 ∷ host_of name }
{}

/// The values of the two flags that mean something here (ERTS User's Guide, Distribution Flags).
pub fn values_of_flags()
    ensures handshake_23 { Flags.HANDSHAKE_23.0 ≡ handshake_23 }
    ensures name_me { Flags.NAME_ME.0 ≡ name_me }
{}
