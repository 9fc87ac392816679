//! A step of a key schedule, as it is right and as it was logged.

ghost use Rattle.std.specs.Prelude.{◌≡◌, ◌≤◌, length};
ghost use Rattle.noise_compare.specs.States.{fits, has, key_fits, nonce_fits, state_fits};

/// A party's hash, chaining key, key and nonce.
#[derive(Clone, Copy)]
pub struct State {
    pub hash: [u8; 32],
    pub chaining_key: [u8; 32],
    pub key: Option<[u8; 32]>,
    pub nonce: u64,
}

/// What a step is.
#[derive(Clone, Copy)]
pub enum Kind {
    /// The start with the protocol name.
    Name,
    /// The prologue: MixHash.
    Prologue,
    /// A static key of a pre-message: MixHash.
    Data,
    /// The token `e`.
    Ephemeral,
    /// A DH token: MixKey.
    Agreement,
    /// The token `psk`: MixKeyAndHash.
    Secret,
    /// The token `s`, or the payload.
    Text,
    /// A key of Split.
    Opening,
    /// A key after Rekey.
    Rekeyed,
    /// A transport message.
    Transport,
}

/// A step of a party's right key schedule.
#[derive(Clone, Copy)]
pub struct Situation<'a> {
    pub kind: Kind,
    /// The right state before the step.
    pub before: State,
    /// The right state after the last step that agrees: that before, unless the log lacks steps.
    pub agreed: State,
    /// The right state after the step.
    pub right: State,
    /// The step's bytes in the message.
    pub bytes: &'a [u8],
    /// What MixHash takes: the prologue, a public key, or the step's bytes.
    pub data: &'a [u8],
    /// The text of `s` or of the payload.
    pub text: &'a [u8],
    /// The protocol name.
    pub name: &'a [u8],
    /// The DH result or the psk that the step takes, and zeros at any other step.
    pub secret: [u8; 32],
    /// The public keys of both parties.
    pub publics: &'a [[u8; 32]],
    /// All DH results, or all psks, of the run.
    pub secrets: &'a [[u8; 32]],
    /// The hashes before the step.
    pub hashes: &'a [[u8; 32]],
    /// The keys of the transport.
    pub keys: &'a [[u8; 32]],
    pub ghost short: { (length text.now ≤ 65535) × (length data.now ≤ 65535) },
}

/// The values that a party logged after a step; None for one that it didn't log. No key is no bytes.
#[derive(Drop)]
pub struct Logged {
    pub bytes: Option<Vec<u8>>,
    pub hash: Option<Vec<u8>>,
    pub chaining_key: Option<Vec<u8>>,
    pub key: Option<Vec<u8>>,
    pub nonce: Option<u64>,
}

impl Logged {
    /// Whether these are the logged bytes and state, as far as they were logged.
    pub fn fits(&self, bytes: &[u8], state: &State) -> bool
        ensures { result ≡ fits self.now bytes.now state.now }
    {
        has(&self.bytes, bytes) && self.state_fits(state)
    }

    pub(crate) fn state_fits(&self, state: &State) -> bool
        ensures { result ≡ state_fits self.now state.now }
    {
        has(&self.hash, &state.hash)
            && has(&self.chaining_key, &state.chaining_key)
            && key_fits(&self.key, &state.key)
            && nonce_fits(&self.nonce, state.nonce)
    }
}

pub(crate) fn has(logged: &Option<Vec<u8>>, value: &[u8]) -> bool
    ensures { result ≡ has logged.now value.now }
{
    match logged {
        None => true,
        Some(logged) => logged.as_slice() == value,
    }
}

pub(crate) fn key_fits(logged: &Option<Vec<u8>>, key: &Option<[u8; 32]>) -> bool
    ensures { result ≡ key_fits logged.now key.now }
{
    match key {
        None => has(logged, &[]),
        Some(key) => has(logged, key),
    }
}

pub(crate) fn nonce_fits(logged: &Option<u64>, nonce: u64) -> bool
    ensures { result ≡ nonce_fits logged.now nonce }
{
    match logged {
        None => true,
        Some(logged) => *logged == nonce,
    }
}
