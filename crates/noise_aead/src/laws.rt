//! What holds of sealing for every key, nonce, associated data and text. The functions do nothing;
//! their contracts are the properties.
ghost use Rattle.std.specs.Prelude.{◌≡◌, ◌+◌, ℕ, List, length};
ghost use Rattle.noise_aead.specs.Sealing.{sealed};

/// A sealing is 16 bytes longer than its text.
pub fn length_of_sealed()
    ensures { (key nonce ad text : List ℕ) → length (sealed key nonce ad text) ≡ length text + 16 }
{}

/// Two texts with one sealing under one key, nonce and associated data are equal.
pub fn sealed_same()
    ensures { (key nonce ad text other : List ℕ) → sealed key nonce ad text ≡ sealed key nonce ad other
        → text ≡ other }
{}
