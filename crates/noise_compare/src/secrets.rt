//! Mistakes of steps that mix a DH result or a psk.

ghost use Rattle.std.specs.Prelude.{◌≡◌, ◌++◌, map, reverse, bit_xor};
ghost use Rattle.noise_compare.specs.Secrets.{after_secret, applied, counted_from_zero, exchanged, expanded, is_psk, mixed_key, secret_explains, secret_state, short_hmac, short_outputs, unchained, with_nonce};

use crate::mistake::SecretMistake;
use crate::mixing::{mixed, with_hash};
use crate::state::{Kind, Logged, Situation, State};
use noise_kdf::{expand3, hmac};
use sha2::{Digest, Sha256};

/// Three outputs of HKDF.
#[derive(Clone, Copy)]
pub(crate) struct Outputs {
    pub first: [u8; 32],
    pub second: [u8; 32],
    pub third: [u8; 32],
}

/// Whether a mistake gives the logged values.
#[tactic(auto, unfolding(crate::specs::Secrets::secret_explains))]
pub(crate) fn secret_explains(mistake: SecretMistake, at: &Situation<'_>, logged: &Logged) -> bool
    ensures { result ≡ secret_explains mistake at.now logged.now }
{
    match mistake {
        SecretMistake::Other => {
            0 < at
                .secrets
                .iter()
                .filter(|secret| logged.fits(at.bytes, &after_secret(at, &at.before, secret)))
                .count()
        }
        _ => logged.fits(at.bytes, &secret_state(mistake, at)),
    }
}

#[tactic(auto, unfolding(crate::specs::Secrets::secret_state))]
fn secret_state(mistake: SecretMistake, at: &Situation<'_>) -> State
    ensures { result ≡ secret_state mistake at.now }
{
    let (kind, before, secret) = (at.kind, &at.before, &at.secret);
    let ck = &before.chaining_key;
    match mistake {
        SecretMistake::InputsExchanged => applied(kind, before, &expanded(secret, ck)),
        SecretMistake::OutputsExchanged => {
            applied(kind, before, &exchanged(kind, &expanded(ck, secret)))
        }
        SecretMistake::Reversed => after_secret(at, before, &reversed(at.secret)),
        SecretMistake::Digested => after_secret(at, before, &Sha256::digest(secret)),
        SecretMistake::CountedFromZero => {
            applied(kind, before, &counted_from_zero(&hmac(ck, &[secret])))
        }
        SecretMistake::Unchained => applied(kind, before, &unchained(&hmac(ck, &[secret]))),
        SecretMistake::ShortBlocks => {
            applied(kind, before, &short_outputs(&short_hmac(ck, &[], secret)))
        }
        SecretMistake::ChainingKeyKept => State {
            chaining_key: *ck,
            ..at.right
        },
        SecretMistake::NonceKept => with_nonce(&at.right, before.nonce),
        SecretMistake::NonceFromOne => with_nonce(&at.right, 1),
        SecretMistake::LeftOut => at.before,
        SecretMistake::HashedToo => with_hash(&at.right, mixed(&at.right.hash, secret)),
        SecretMistake::KeyAlone => mixed_key(before, &expanded(ck, secret)),
        SecretMistake::HashLeftOut => with_hash(&at.right, before.hash),
        SecretMistake::Other => at.right,
        SecretMistake::StepsLeftOut => after_secret(at, &at.agreed, secret),
    }
}

// The state after the step with this secret, from this state on.
fn after_secret(at: &Situation<'_>, from: &State, secret: &[u8; 32]) -> State
    ensures { result ≡ after_secret at.now from.now secret.now }
{
    applied(at.kind, from, &expanded(&from.chaining_key, secret))
}

fn reversed(mut secret: [u8; 32]) -> [u8; 32]
    ensures { result ≡ reverse secret }
{
    secret.reverse();
    secret
}

fn expanded(chaining_key: &[u8; 32], input: &[u8]) -> Outputs
    ensures { result ≡ expanded chaining_key.now input.now }
{
    let (first, second, third) = expand3(chaining_key, input);
    Outputs {
        first,
        second,
        third,
    }
}

fn counted_from_zero(temporary: &[u8; 32]) -> Outputs
    ensures { result ≡ counted_from_zero temporary.now }
{
    let first = hmac(temporary, &[&[0]]);
    let second = hmac(temporary, &[&first, &[1]]);
    let third = hmac(temporary, &[&second, &[2]]);
    Outputs {
        first,
        second,
        third,
    }
}

fn unchained(temporary: &[u8; 32]) -> Outputs
    ensures { result ≡ unchained temporary.now }
{
    Outputs {
        first: hmac(temporary, &[&[1]]),
        second: hmac(temporary, &[&[2]]),
        third: hmac(temporary, &[&[3]]),
    }
}

fn short_outputs(temporary: &[u8; 32]) -> Outputs
    ensures { result ≡ short_outputs temporary.now }
{
    let first = short_hmac(temporary, &[], &[1]);
    let second = short_hmac(temporary, &first, &[2]);
    let third = short_hmac(temporary, &second, &[3]);
    Outputs {
        first,
        second,
        third,
    }
}

// HMAC of both texts under a key that isn't padded.
fn short_hmac(key: &[u8; 32], front: &[u8], back: &[u8]) -> [u8; 32]
    ensures { result ≡ short_hmac key.now (front.now ++ back.now) }
{
    let mut hasher = Sha256::new();
    hasher.update(padded_by(*key, 0x36));
    hasher.update(front);
    hasher.update(back);
    let inner = hasher.finalize();
    mixed(&padded_by(*key, 0x5c), &inner)
}

fn padded_by(mut key: [u8; 32], pad: u8) -> [u8; 32]
    ensures { result ≡ map (λ b. bit_xor b pad) key }
{
    for i in 0..32 {
        key[i] ^= pad;
    }
    key
}

// What a step makes of outputs: MixKeyAndHash at `psk`, else MixKey.
fn applied(kind: Kind, before: &State, outputs: &Outputs) -> State
    ensures { result ≡ applied kind before.now outputs.now }
{
    if is_psk(kind) {
        State {
            hash: mixed(&before.hash, &outputs.second),
            chaining_key: outputs.first,
            key: Some(outputs.third),
            nonce: 0,
        }
    } else {
        mixed_key(before, outputs)
    }
}

fn is_psk(kind: Kind) -> bool
    ensures { result ≡ is_psk kind }
{
    matches!(kind, Kind::Secret)
}

fn mixed_key(before: &State, outputs: &Outputs) -> State
    ensures { result ≡ mixed_key before.now outputs.now }
{
    State {
        hash: before.hash,
        chaining_key: outputs.first,
        key: Some(outputs.second),
        nonce: 0,
    }
}

fn exchanged(kind: Kind, outputs: &Outputs) -> Outputs
    ensures { result ≡ exchanged kind outputs.now }
{
    let Outputs {
        first,
        second,
        third,
    } = *outputs;
    if is_psk(kind) {
        Outputs {
            first,
            second: third,
            third: second,
        }
    } else {
        Outputs {
            first: second,
            second: first,
            third,
        }
    }
}

pub(crate) fn with_nonce(state: &State, nonce: u64) -> State
    ensures { result ≡ with_nonce state.now nonce }
{
    State { nonce, ..*state }
}
