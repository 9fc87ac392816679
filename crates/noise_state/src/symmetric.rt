//! SymmetricState (Noise 5.2): the chaining key, the handshake hash and the cipher state.

ghost use Rattle.std.specs.Prelude.{◌≡◌, ◌≤◌, ◌++◌, length};
ghost use Rattle.sha2.specs.Sha256.{sha256};
ghost use Rattle.noise_state.specs.Symmetric.{start_value};

use crate::cipher::{CipherFault, CipherState};
use noise_kdf::{expand2, expand3};
use sha2::{Digest, Sha256};

const HASH_LEN: usize = 32;

// The first hash: a name of at most 32 bytes with zeros after it, the digest of a longer one.
fn first_hash(name: &[u8]) -> [u8; 32]
    ensures { result ≡ start_value name.now }
{
    if name.len() > HASH_LEN {
        return Sha256::digest(name);
    }
    let mut hash = [0; HASH_LEN];
    hash[..name.len()].copy_from_slice(name);
    hash
}

fn hash_of_both(hash: &[u8; 32], text: &[u8]) -> [u8; 32]
    ensures { result ≡ sha256 (hash.now ++ text.now) }
{
    let mut hasher = Sha256::new();
    hasher.update(hash);
    hasher.update(text);
    hasher.finalize()
}

/// What a symmetric state holds (Noise 5.2), for a caller that keeps it itself between two messages.
#[derive(Drop)]
pub struct StateParts {
    pub chaining_key: [u8; 32],
    /// The handshake hash.
    pub hash: [u8; 32],
    /// The cipher key, if there is one.
    pub key: Option<[u8; 32]>,
    /// The nonce of the next use of the key.
    pub nonce: u64,
}

/// The state of a handshake's key schedule (Noise 5.2). Each call makes of it what the definition
/// of the call's name says of the state before.
///
/// It can't be copied, but for the trial of a message (`for_trial`).
#[derive(Drop)]
pub struct SymmetricState {
    chaining_key: [u8; 32],
    hash: [u8; 32],
    cipher: CipherState,
}

impl SymmetricState {
    ghost use Rattle.noise_state.specs.Symmetric.{initialize, mix_hash, mix_key, mix_key_and_hash, EncryptsAndHashes, DecryptsAndHashes, split};
    ghost use Rattle.noise_state.specs.Standing.{keyed, state_of};
    ghost use Rattle.noise_state.specs.Cipher.{sealed_len};

    /// The state of a protocol name, with nothing mixed and no key (InitializeSymmetric).
    pub fn new(name: &[u8]) -> SymmetricState
        ensures { result ≡ initialize name.now }
    {
        let hash = first_hash(name);
        SymmetricState {
            chaining_key: hash,
            hash,
            cipher: CipherState::empty(),
        }
    }

    /// The same state again, to read or write one message in: it takes the place of the original once
    /// the whole message has succeeded, and is dropped otherwise.
    ///
    /// It isn't a second state to go on with. Two states of one key encrypt at the same nonce, and
    /// then the cipher protects neither text.
    pub fn for_trial(&self) -> SymmetricState
        ensures { result ≡ self.now }
    {
        SymmetricState {
            chaining_key: self.chaining_key,
            hash: self.hash,
            cipher: self.cipher.for_trial(),
        }
    }

    /// What it holds.
    pub fn into_parts(self) -> StateParts
        ensures { state_of result ≡ self }
    {
        let SymmetricState {
            chaining_key,
            hash,
            cipher,
        } = self;
        let (key, nonce) = cipher.into_parts();
        StateParts {
            chaining_key,
            hash,
            key,
            nonce,
        }
    }

    /// The state of these parts: it matches what the state stood for that was taken apart.
    pub fn from_parts(parts: StateParts) -> SymmetricState
        ensures { result ≡ state_of parts }
    {
        let StateParts {
            chaining_key,
            hash,
            key,
            nonce,
        } = parts;
        SymmetricState {
            chaining_key,
            hash,
            cipher: CipherState::from_parts(key, nonce),
        }
    }

    /// Mixes a key input, as a DH result, into the chaining key, and takes a new key (MixKey).
    pub fn mix_key(&mut self, input: &[u8; 32])
        ensures { self.new ≡ mix_key self.old input.now }
    {
        let (chaining_key, cipher_key) = expand2(&self.chaining_key, input);
        self.chaining_key = chaining_key;
        self.cipher = CipherState::with_key(cipher_key);
    }

    /// Mixes a text into the hash (MixHash).
    pub fn mix_hash(&mut self, text: &[u8])
        ensures { self.new ≡ mix_hash self.old text.now }
    {
        self.hash = hash_of_both(&self.hash, text);
    }

    /// Mixes a key input, as a pre-shared key, into the chaining key and the hash, and takes a
    /// new key (MixKeyAndHash).
    pub fn mix_key_and_hash(&mut self, input: &[u8; 32])
        ensures { self.new ≡ mix_key_and_hash self.old input.now }
    {
        let (chaining_key, text, key) = expand3(&self.chaining_key, input);
        self.chaining_key = chaining_key;
        self.hash = hash_of_both(&self.hash, &text);
        self.cipher = CipherState::with_key(key);
    }

    /// Encrypts the text in the first `len` bytes of `buf` in place under the hash, and mixes what
    /// is sent into the hash (EncryptAndHash). With a key a tag of 16 bytes follows the text. The
    /// result is the length of both.
    ///
    /// `buf` has to hold them where they are at most 65535 bytes. At an `Err`, which is Exhausted
    /// or TooLong, nothing has changed.
    pub fn encrypt_and_hash(&mut self, buf: &mut [u8], len: usize) -> Result<usize, CipherFault>
        requires room { sealed_len (keyed self.old) len ≤ 65535
            → sealed_len (keyed self.old) len ≤ length buf.old }
        ensures encrypts { EncryptsAndHashes self.old len buf.old result self.new buf.new }
    {
        let sent = self.cipher.encrypt(&self.hash, buf, len)?;
        self.hash = hash_of_both(&self.hash, &buf[..sent]);
        Ok(sent)
    }

    /// Decrypts `buf` in place under the hash, and mixes it as it was received into the hash
    /// (DecryptAndHash). With a key its last 16 bytes are the tag, which stay as they are. The
    /// result is the length of the text, which is at the front.
    ///
    /// At an `Err` nothing has changed.
    pub fn decrypt_and_hash(&mut self, buf: &mut [u8]) -> Result<usize, CipherFault>
        ensures { DecryptsAndHashes self.old buf.old result self.new buf.new }
    {
        if let Some(fault) = self.cipher.decrypt_fault(buf.len()) {
            return Err(fault);
        }
        let hash = hash_of_both(&self.hash, buf);
        let len = self.cipher.decrypt(&self.hash, buf)?;
        self.hash = hash;
        Ok(len)
    }

    /// Whether its cipher state has a key (HasKey, Noise 5.1), as it has once a key input was mixed
    /// (5.2).
    pub fn has_key(&self) -> bool
        ensures { result ≡ keyed self.now }
    {
        self.cipher.has_key()
    }

    /// The handshake hash (GetHandshakeHash, Noise 11.2).
    pub fn hash(&self) -> [u8; 32]
        ensures { result ≡ self.now.hash }
    {
        self.hash
    }

    /// The two cipher states of the transport, the one for initiator to responder first, each with
    /// a key at nonce 0 (Split). The symmetric state is gone then: a second pair would have the same
    /// keys, and encrypt at the same nonces.
    pub fn split(self) -> (CipherState, CipherState)
        ensures { result ≡ split self }
    {
        let (initiator, responder) = expand2(&self.chaining_key, &[]);
        (
            CipherState::with_key(initiator),
            CipherState::with_key(responder),
        )
    }
}
