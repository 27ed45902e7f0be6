//! Laws of captures and of streams.

ghost use Rattle.std.specs.Prelude.{◌≡◌, ℕ, ◌+◌, ◌<◌, ◌^◌, List, length, take};
ghost use Rattle.dist_capture.specs.{Tcp.Said, Reading.Reading, Reading.Reads, Reading.IsRead, Reading.Was, Reading.unread, Reading.with_bytes};
ghost use Rattle.dist_capture.specs.{Reading.packets, Counting.total};
ghost use Rattle.dist_capture.specs.{Arrivals.Event, Arrivals.ArePieces, Arrivals.IsFirstGap, Arrivals.opening, Arrivals.after_all, Arrivals.delivered};

/// In whatever pieces a capture comes, what is returned are the segments of the units of the whole capture, and no others.
pub fn any_pieces()
    ensures whole { (r : Reading) (stream : List ℕ) (segments : List (ℕ × Said)) → Was r stream segments → Reads (with_bytes unread stream) segments r }
    ensures only { (r one other : Reading) (xs ys : List (ℕ × Said)) → Reads r xs one → IsRead one → Reads r ys other → IsRead other → xs ≡ ys }
{}

/// Each packet that is read either gives a segment or is counted once, for one cause.
pub fn each_counted()
    ensures { (r later : Reading) (segments : List (ℕ × Said)) (run : Reads r segments later) → total r.counts + packets r later segments run < 2 ^ 64
        → length segments + total later.counts ≡ packets r later segments run + total r.counts }
{}

/// Any order and repetition of the segments of one text gives that text up to its first gap, wherever its sequence numbers begin.
pub fn any_order()
    ensures { (first most : ℕ) (text : List ℕ) (events : List Event) (gap : ℕ) → first < 2 ^ 32
        → ArePieces first text (opening first most) events → IsFirstGap events gap
        → delivered (after_all first text (opening first most) events) ≡ take gap text }
{}
