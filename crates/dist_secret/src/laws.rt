//! Laws of digests alone: each is a function that does nothing, and whose contract is the law.

ghost use Rattle.std.specs.Prelude.{◌≡◌, ℕ, List, length};
ghost use Rattle.dist_secret.specs.Digest.{digest_of};

/// A digest has 16 bytes, whatever the cookie and the challenge (RFC 1321).
pub fn length_of_digest()
    ensures { (cookie : List ℕ) (challenge : ℕ) → length (digest_of cookie challenge) ≡ 16 }
{}
