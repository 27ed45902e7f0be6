//! Laws of frames alone.

ghost use Rattle.std.specs.Prelude.{◌≡◌, ◌≤◌, ◌^◌, ◌++◌, [], List, ℕ, length, false, true};
ghost use Rattle.std.specs.Int.{w16, w32};
ghost use Rattle.dist_frames.specs.Stream.{body_frame, FitsWidth};
ghost use Rattle.dist_long_frames.specs.Shortened.{is_last, shortened};
ghost use Rattle.dist_long_frames.specs.declared.place.Place.TheVariants.{First};

/// The bodies are the same.
#[tactic(auto, using(crate::proofs::Frames::same_body, crate::proofs::Frames::last_body, crate::proofs::Frames::longer_body))]
pub fn same_bodies()
    // A frame with a length of 4 bytes is read as that of its body with a length of 2.
    ensures same { (body more : List ℕ) → is_last body ≡ false → FitsWidth w16 body
        → shortened First (body_frame w32 body ++ more) ≡ body_frame w16 body ++ shortened First more }

    // So is the last, and what comes behind that is read as it is.
    ensures last { (body more : List ℕ) → is_last body ≡ true → FitsWidth w16 body
        → shortened First (body_frame w32 body ++ more) ≡ body_frame w16 body ++ more }

    // Behind a greater length nothing is read.
    ensures longer { (body more : List ℕ) → 2 ^ 16 ≤ length body → FitsWidth w32 body → shortened First (body_frame w32 body ++ more) ≡ [] }
{}
