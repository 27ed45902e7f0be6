//! Laws of what a node sends: each is a function whose contract is the law.
ghost use Rattle.std.specs.Prelude.{◌≡◌, ℕ, ◌<◌, ◌^◌, ◌&&◌, List, [], Option, length, map, true, false, Ok};
ghost use Rattle.std.specs.{List.AllByRecursion, Int.w16};
ghost use Rattle.dist_names.specs.Flags.{low_half, common, has_all, handshake_23};
ghost use Rattle.dist_names.specs.{Order.Name, Order.same_name, NodeName.IsNodeName, declared.flags.Flags.Flags, declared.creation.Creation.Creation};
ghost use Rattle.dist_frames.specs.Stream.{Splits};
ghost use Rattle.dist_messages.specs.{Spelling.Fits, Spelling.is_said_by, Canonical.canonical, Reading.read};
ghost use Rattle.dist_messages.specs.declared.message.{Side.Side, Side.TheVariants.Dialler, Side.TheVariants.Acceptor, Status.Status, Message.Message};
ghost use Rattle.dist_messages.specs.declared.message.Message.TheVariants as message;
ghost use Rattle.dist_core_setup.specs.Changing.{DigestsStay, has_own_cookie, with_own_cookie, keyed_usually, letting_in};
ghost use Rattle.dist_core_setup.specs.{declared.setup.Setup.Setup, Rules.announced_by, Rules.knows_six, Saying.CanBeSaid, Saying.frames_of_messages};
ghost use Rattle.dist_secret.specs.Cookies.{rekeys};

use dist_messages::written_is_read;

/// Each message that a node sends has a spelling of its side, which fits a frame.
pub fn messages_can_be_said()
    ensures status { (side : Side) (s : Status) → is_said_by s side ≡ true → CanBeSaid side (message.Status s) }
    ensures new_name { (flags : Flags) (c : Creation) (name : Name) → IsNodeName name → CanBeSaid Dialler (message.NewName flags c name) }
    ensures old_name { (flags : ℕ) (name : Name) → IsNodeName name → CanBeSaid Dialler (message.OldName flags name) }
    ensures challenge { (flags : Flags) (n : ℕ) (c : Creation) (name : Name) → IsNodeName name → CanBeSaid Acceptor (message.NewChallenge flags n c name) }
    ensures old_challenge { (flags n : ℕ) (name : Name) → IsNodeName name → CanBeSaid Acceptor (message.OldChallenge flags n name) }
    ensures complement { (high : ℕ) (c : Creation) → CanBeSaid Dialler (message.Complement high c) }
    ensures reply { (n : ℕ) (digest : List ℕ) → length digest ≡ 16 → CanBeSaid Dialler (message.Reply n digest) }
    ensures ack { (digest : List ℕ) → length digest ≡ 16 → CanBeSaid Acceptor (message.Ack digest) }
{}

/// What is sent is whole frames, one for each message, and each body is read as the message that was sent.
pub fn what_is_said_is_read()
    ensures whole { (side : Side) (ms : List Message) → AllByRecursion (CanBeSaid side) ms → Splits w16 (frames_of_messages ms) (map canonical ms) [] }
    ensures read { (side : Side) (m : Message) → Fits m → CanBeSaid side m → read side (canonical m) ≡ Ok m }
{
    written_is_read();
}

/// The flags that a node announces fit a field of 64 bits.
pub fn announced_flags_fit()
    ensures { (s : Setup) → announced_by s < 2 ^ 64 }
{}

/// The lower half of what a node announces shows whether it knows version 6.
pub fn flags_show_versions()
    ensures { (s : Setup) → has_all (low_half (announced_by s)) handshake_23 ≡ knows_six s }
{}

/// Where one of two nodes knows only version 5, the flags that both announce are all in the lower half.
pub fn low_halves_suffice()
    ensures { (own other : Setup) → (knows_six own && knows_six other) ≡ false
        → common (announced_by own) (low_half (announced_by other)) ≡ common (announced_by own) (announced_by other) }
{}

/// Which digests a change of cookies does not change: where one peer's cookie changes, those for every other peer, and for that
/// peer too if it gets the cookie that it has; where the usual cookie changes, those for each peer that has its own; and
/// all, where only the names change that may connect.
pub fn other_digests_stay()
    ensures peer { (s : Setup) (p q : Name) (own : Option (List ℕ)) → same_name p q ≡ false → DigestsStay s (with_own_cookie s p own) q }
    ensures same { (s : Setup) (p : Name) (own : Option (List ℕ)) → rekeys s.cookies p own ≡ false → DigestsStay s (with_own_cookie s p own) p }
    ensures usual { (s : Setup) (p : Name) (cookie : List ℕ) → has_own_cookie s p ≡ true → DigestsStay s (keyed_usually s cookie) p }
    ensures allowed { (s : Setup) (names : Option (List Name)) (p : Name) → DigestsStay s (letting_in s names) p }
{}
