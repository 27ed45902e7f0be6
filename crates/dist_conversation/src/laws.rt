//! Laws of conversations: where what was said stands, and what three verdicts show.

ghost use Rattle.std.specs.Prelude.{◌≡◌, ℕ, List, true};
ghost use Rattle.std.specs.List.{All};
ghost use Rattle.dist_capture.specs.declared.segment.Segment.{Segment};
ghost use Rattle.dist_messages.specs.declared.message.Side.{Side};
ghost use Rattle.dist_messages.specs.declared.message.Side.TheVariants.{Acceptor};
ghost use Rattle.dist_talk.specs.Ended.{has_ack, verdict_of};
ghost use Rattle.dist_talk.specs.declared.{handshake.Handshake.Handshake, terms.Terms.Terms, verdict.AwaitedMessage.AwaitedMessage};
ghost use Rattle.dist_talk.specs.declared.verdict.HandshakeVerdict.TheVariants.{Silent, Up, WrongCookie};
ghost use Rattle.dist_conversation.specs.Conversations.{IsBetween, IsConversation, Stand};
ghost use Rattle.dist_conversation.specs.Said.{said_by};
ghost use Rattle.dist_conversation.specs.Verdicts.{IsHandshakeOf, IsRefusal, IsWaited};
ghost use Rattle.dist_conversation.specs.declared.conversation.Conversation.{Conversation};

/// Each byte with which a side began stands in a segment of the conversation from its port, at its sequence number, if all segments are between
/// its two ports.
pub fn bytes_stand()
    ensures { (port : ℕ) (talk : List Segment) (c : Conversation) (side : Side) → IsConversation port talk c → All (IsBetween c) talk → Stand talk side c }
{}

/// Two nodes came up only if the accepting side said an acknowledgement.
pub fn up_shows()
    ensures { (t : Terms) (c : Conversation) (now : ℕ) (h : Handshake) → IsHandshakeOf t c now h → verdict_of t h ≡ Up
        → has_ack (said_by Acceptor c).messages ≡ true }
{}

/// The accepting side has another cookie only if it closed the connection first, had received all that the other one said, and no byte of its own is
/// missing.
pub fn wrong_cookie_shows()
    ensures { (t : Terms) (c : Conversation) (now : ℕ) (h : Handshake) → IsHandshakeOf t c now h → verdict_of t h ≡ WrongCookie Acceptor → IsRefusal c }
{}

/// A side was silent only if for six seconds nothing whole came.
pub fn silent_shows()
    ensures { (t : Terms) (c : Conversation) (now : ℕ) (h : Handshake) (due : AwaitedMessage) (count : ℕ) → IsHandshakeOf t c now h
        → verdict_of t h ≡ Silent due count → IsWaited c h now }
{}
