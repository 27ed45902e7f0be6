//! Laws of the spellings alone: each is a function that does nothing, and whose contract is the law. That no frame is a
//! proper prefix of another is a law of `dist_frames`.

ghost use Rattle.std.specs.Prelude.{◌≡◌, ◌↔◌, ℕ, List, [], Ok, Err};
ghost use Rattle.dist_messages.specs.{declared.message.Side.Side, declared.message.Message.Message, Spelling.Spells, Spelling.Fits, Canonical.own_spelling};
ghost use Rattle.dist_messages.specs.{Causes.HasUnknownTag, Causes.IsShort, Causes.IsLong, Causes.HasUnknownStatus, Reading.read, Writing.IsWritten};
ghost use Rattle.dist_messages.specs.{Writing.HasNoRow, Writing.HasLongName, Writing.IsOtherStatus};
ghost use Rattle.dist_messages.specs.declared.message_error.MessageError.TheVariants as errors;
ghost use Rattle.dist_names.specs.Bytes.{IsBytes};

/// A body spells one message.
pub fn one_message()
    ensures { (side : Side) (m n : Message) (body : List ℕ) → Fits m → Fits n →
        Spells side m body → Spells side n body → m ≡ n }
{}

/// What is written is a spelling of the message, and is read as the same message.
pub fn written_is_read()
    ensures spelled { (side : Side) (m : Message) (body : List ℕ) → own_spelling side m ≡ Ok body → Spells side m body }
    ensures read { (side : Side) (m : Message) (body : List ℕ) → Fits m →
        own_spelling side m ≡ Ok body → read side body ≡ Ok m }
{}

/// Each refusal of a body is returned exactly where its cause holds, in the words of the layouts.
pub fn causes_of_refusals()
    // there is no byte
    ensures empty { (side : Side) (body : List ℕ) → IsBytes body → (read side body ≡ Err errors.Empty) ↔ (body ≡ []) }

    // no message of the side begins with the first byte
    ensures unknown_tag { (side : Side) (body : List ℕ) → IsBytes body →
        (read side body ≡ Err errors.UnknownTag) ↔ HasUnknownTag side body }

    // it is not a message, and some more bytes make it one
    ensures short { (side : Side) (body : List ℕ) → IsBytes body → (read side body ≡ Err errors.Short) ↔ IsShort side body }

    // it is not a message, and a prefix of it is one
    ensures long { (side : Side) (body : List ℕ) → IsBytes body → (read side body ≡ Err errors.Long) ↔ IsLong side body }

    // it has the tag of a status, and its text is not that of any status of the side
    ensures unknown_status { (side : Side) (body : List ℕ) → IsBytes body →
        (read side body ≡ Err errors.UnknownStatus) ↔ HasUnknownStatus side body }
{}

/// When a message is written, and when each refusal comes, in the words of the layouts.
pub fn causes_of_writing()
    // the spelling with version 5 and no bytes after the name, which has at most 255 bytes
    ensures written { (side : Side) (m : Message) (body : List ℕ) → (own_spelling side m ≡ Ok body) ↔ IsWritten side m body }

    // it is not a status, and the side has no row for it
    ensures unknown_tag { (side : Side) (m : Message) → (own_spelling side m ≡ Err errors.UnknownTag) ↔ HasNoRow side m }

    // the side has a row for it, and the name has more than 255 bytes
    ensures bad_name { (side : Side) (m : Message) → (own_spelling side m ≡ Err errors.BadName) ↔ HasLongName side m }

    // it is a status of the other side
    ensures unknown_status { (side : Side) (m : Message) →
        (own_spelling side m ≡ Err errors.UnknownStatus) ↔ IsOtherStatus side m }
{}
