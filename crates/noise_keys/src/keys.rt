//! The keys of a party, by the DH results that they return (Noise, 4.1).

ghost use Rattle.std.specs.Prelude.{◌≡◌, ℕ, List, Some};
ghost use Rattle.noise_keys.specs.Keys.{KeyPairs};
ghost use Rattle.noise_keys.specs.declared.keys.Own.{Own};

/// Which of a party's own key pairs (Noise, 3).
#[derive(Clone, Copy, Debug, Default, PartialEq, Eq)]
pub enum Own {
    #[default]
    Ephemeral,
    Static,
}

/// The key pairs of a party. Private keys stay after it: a handshake asks for public keys and for DH results alone.
///
/// Both DH results are functions of the value: the same call on the same value returns the same.
pub trait Keys: Drop {
    /// The public key of each key pair, and its DH result to the bytes of a remote public key, where there are any.
    ghost pairs: { Self → KeyPairs };

    /// The public key of a key pair, 32 bytes, or None where the party has no such key pair.
    fn public(&self, own: Own) -> Option<[u8; 32]>
        ensures { result ≡ (pairs self.now).public own };

    /// The result of DH between a key pair and a remote public key, 32 bytes, or None where there is no DH result
    /// (Noise, 4.1 and 12.1).
    fn agree(&self, own: Own, remote: &[u8; 32]) -> Option<[u8; 32]>
        ensures { result ≡ (pairs self.now).agree own remote.now };
}

/// Keys whose two sides agree (Noise, 4.1): where both parties have a result of DH between their own key and the
/// other's public key, it is the same.
///
/// Either end may have none, as keys in a device that fails, or that refuses the other's public key (Noise, 12.1).
pub trait Agreeing: Keys {
    ghost commutes: { (a b : Self) (x y : Own) (p q r s : List ℕ)
        → (Self.pairs a).public x ≡ Some p → (Self.pairs b).public y ≡ Some q
        → (Self.pairs a).agree x q ≡ Some r → (Self.pairs b).agree y p ≡ Some s → r ≡ s };
}
