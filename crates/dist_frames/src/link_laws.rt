//! Laws of a reader of packets, and of ticks: when a tick is due and when a silent peer is given up (kernel, net_ticktime; a
//! quarter is a fourth of it). Each law is a function that does nothing, and whose contract is the law.

ghost use Rattle.std.specs.Prelude.{◌≡◌, ◌≢◌, ◌+◌, ◌<◌, ◌≤◌, ◌*◌, ◌++◌, ◌∷◌, ℕ, List};
ghost use Rattle.std.specs.{List.flat_map, List.AllByRecursion, Int.w32};
ghost use Rattle.dist_frames.specs.LinkHistory.{Call, FeedBytes, opening, after_all};
ghost use Rattle.dist_frames.specs.Ticking.{Act, Ticking, after_acts, due_at, WasHeardBefore, WasSaidBefore};
ghost use Rattle.dist_frames.specs.{Stream.body_frame, LinkReading.packets_within, LinkReading.to_come, Ticking.Act.Heard, Ticking.Act.Said};
ghost use Rattle.dist_frames.specs.declared.ticker.Due.TheVariants as due;
ghost use Rattle.dist_names.specs.Bytes.{IsBytes};

/// What holds after any calls of a reader, in whatever pieces the stream came, and with whatever bytes it began.
pub fn packets_in_any_pieces()
    // The packets moved out and those still to come are those of the stream, up to the first that is too long, however it is cut.
    ensures right { (most : ℕ) (rest : List ℕ) (calls : List Call) → IsBytes rest → FeedBytes calls →
        (after_all (opening most rest) calls).moved ++ to_come (after_all (opening most rest) calls).reader
        ≡ packets_within most (after_all (opening most rest) calls).stream }

    // No byte is lost: those that came are the packets moved out, and then those that the reader holds.
    ensures whole { (most : ℕ) (rest : List ℕ) (calls : List Call) → IsBytes rest → FeedBytes calls →
        (after_all (opening most rest) calls).stream
        ≡ flat_map (body_frame w32) (after_all (opening most rest) calls).moved ++ (after_all (opening most rest) calls).reader.pending }
{}

/// A peer is given up where nothing was read from it for four quarters, and nowhere else.
pub fn a_silent_peer_is_given_up()
    // A peer from which something was read in time is not given up.
    ensures heard { (t : Ticking) (early late : List Act) (m now : ℕ)
        → 0 < t.quarter → now < m + 4 * t.quarter → due_at now (after_acts (early ++ Heard m ∷ late) t) ≢ due.GiveUp }

    // A peer from which nothing was read in time is given up.
    ensures silent { (t : Ticking) (acts : List Act) (now : ℕ)
        → t.heard + 4 * t.quarter ≤ now → AllByRecursion (WasHeardBefore (4 * t.quarter) now) acts
        → due_at now (after_acts acts t) ≡ due.GiveUp }
{}

/// A tick is due where nothing was written for a quarter, unless the peer is given up, and nowhere else.
pub fn a_tick_is_due_in_time()
    ensures said { (t : Ticking) (early late : List Act) (m now : ℕ)
        → 0 < t.quarter → now < m + t.quarter → due_at now (after_acts (early ++ Said m ∷ late) t) ≢ due.Tick }
    ensures quiet { (t : Ticking) (acts : List Act) (now wait : ℕ)
        → t.said + t.quarter ≤ now → AllByRecursion (WasSaidBefore t.quarter now) acts
        → due_at now (after_acts acts t) ≢ due.Nothing wait }
{}

/// Where nothing is due for some time, something is due at its end and nothing before: a caller that waits for it misses
/// nothing.
pub fn nothing_is_due_before()
    ensures before { (t : Ticking) (now wait more : ℕ)
        → t.heard ≤ now → t.said ≤ now → due_at now t ≡ due.Nothing wait → more < wait
        → (left : ℕ) × (due_at (now + more) t ≡ due.Nothing left) }
    ensures then_ { (t : Ticking) (now wait left : ℕ)
        → t.heard ≤ now → t.said ≤ now → due_at now t ≡ due.Nothing wait → due_at (now + wait) t ≢ due.Nothing left }
{}
