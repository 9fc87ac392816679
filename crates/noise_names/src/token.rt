ghost use Rattle.std.specs.Prelude.{◌≡◌};
ghost use Rattle.noise_names.specs.Tokens.{other};

/// A party of a handshake (Noise, 5.3 and 7.1).
#[derive(Clone, Copy, Debug, PartialEq, Eq)]
pub enum Role {
    /// Sends the first message, `->` in a pattern.
    Initiator,
    /// The other party, `<-` in a pattern.
    Responder,
}

impl Role {
    /// The other party.
    pub fn other(self) -> Role
        ensures { result ≡ other self }
    {
        match self {
            Role::Initiator => Role::Responder,
            Role::Responder => Role::Initiator,
        }
    }
}

/// A token of a message or a pre-message (Noise, 5.3 and 7.1; psk tokens, 9.2).
#[derive(Clone, Copy, Debug, Default, PartialEq, Eq)]
pub enum Token {
    /// The sender's ephemeral public key.
    #[default]
    E,
    /// The sender's static public key, encrypted where there is a key.
    S,
    /// DH of both ephemeral keys.
    Ee,
    /// DH of the initiator's ephemeral and the responder's static key.
    Es,
    /// DH of the initiator's static and the responder's ephemeral key.
    Se,
    /// DH of both static keys.
    Ss,
    /// A pre-shared key.
    Psk,
}
