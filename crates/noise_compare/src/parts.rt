//! The step of a right line, with what comes before it.

ghost use Rattle.std.specs.Prelude.{◌≡◌, ◌≤◌, ◌++◌, ℕ, List, Some, IfNone, IfOk, IfSome, find, length, option_copied, take, vec_len};
ghost use Rattle.noise_aead.specs.Sealing.{sealed};
ghost use Rattle.noise_compare.specs.Lines.{word_at, words_in};
ghost use Rattle.noise_compare.specs.Situations.{IsOpened, IsTextOf, IsWholeText, agreed_state, data_of, gives_chaining_key, gives_hash, public_among, secret_among, secret_of, secrets_of};
ghost use Rattle.noise_compare.specs.Steps.{hashes_in, last_state, states_before, transport_keys};
ghost use Rattle.noise_compare.specs.Values.{kind_in, state_in, word_bytes};

use crate::facts::Facts;
use crate::line::Line;
use crate::mixing::mixed;
use crate::state::{Kind, Situation, State};
use crate::steps::{hashes_in, last_state, states_before, transport_keys};
use crate::values::{bytes_in, kind_in, state_in};
use noise_aead::laws::length_of_sealed;
use noise_aead::{nonce, open_in_place};
use noise_kdf::expand2;
use std::alloc::{AllocError, Global};

/// The step of a right line, but for what a file gives.
#[derive(Drop)]
pub(crate) struct Parts {
    pub kind: Kind,
    pub before: State,
    pub agreed: State,
    pub right: State,
    pub bytes: Vec<u8>,
    pub data: Vec<u8>,
    pub text: Vec<u8>,
    pub secret: [u8; 32],
    pub hashes: Vec<[u8; 32]>,
    pub keys: Vec<[u8; 32]>,
    pub ghost short: { (vec_len text ≤ 65535) × (vec_len «data» ≤ 65535) },
}

impl Parts {
    /// The step of `expected`, one of the right lines, where the log's party has the right lines before this place.
    pub fn of(
        alloc: Global,
        facts: &Facts,
        right: &[Line<'_>],
        expected: &Line<'_>,
        left: usize,
    ) -> Result<Parts, AllocError>
        ensures kind { IfOk result (λ parts. parts.kind ≡ kind_in expected.now) }
        ensures before { IfOk result (λ parts. parts.before
            ≡ last_state (states_before right.now expected.now) (state_in expected.now)) }
        ensures agreed { IfOk result (λ parts. parts.agreed ≡ agreed_state right.now left
            (last_state (states_before right.now expected.now) (state_in expected.now))) }
        ensures right { IfOk result (λ parts. parts.right ≡ state_in expected.now) }
        ensures bytes { IfOk result (λ parts. parts.bytes.items ≡ word_bytes (word_at (words_in expected.now) 7)) }
        ensures data_is { IfOk result (λ parts. parts.data.items ≡ take 65535 (data_of facts.now expected.now
            (last_state (states_before right.now expected.now) (state_in expected.now)) (state_in expected.now)
            (word_bytes (word_at (words_in expected.now) 7)))) }
        ensures text { IfOk result (λ parts. IsTextOf (last_state (states_before right.now expected.now)
            (state_in expected.now)) (word_bytes (word_at (words_in expected.now) 7)) parts.text.items) }
        ensures secret { IfOk result (λ parts. parts.secret ≡ secret_of facts.now (kind_in expected.now)
            (last_state (states_before right.now expected.now) (state_in expected.now)) (state_in expected.now)) }
        ensures hashes { IfOk result (λ parts. parts.hashes.items ≡ hashes_in (states_before right.now expected.now)) }
        ensures keys { IfOk result (λ parts. parts.keys.items ≡ transport_keys right.now) }
    {
        let kind = kind_in(expected);
        let after = state_in(expected);
        let earlier = states_before(alloc, right, expected)?;
        let before = last_state(&earlier, after);
        let bytes = bytes_in(alloc, expected.word(7))?;
        let data = short_data(alloc, facts, expected, &before, &after, &bytes)?;
        let text = short_text(alloc, &before, &bytes)?;
        let secret = secret_of(facts, kind, &before, &after);
        let hashes = hashes_in(alloc, &earlier)?;
        let keys = transport_keys(alloc, right)?;
        Ok(Parts {
            kind,
            before,
            agreed: agreed_state(right, left, before),
            right: after,
            bytes,
            data,
            text,
            secret,
            hashes,
            keys,
        })
    }

    /// The step with what a file gives.
    pub fn situation<'a>(&'a self, facts: &'a Facts) -> Situation<'a>
        ensures kind { result.kind ≡ self.now.kind }
        ensures before { result.before ≡ self.now.before }
        ensures agreed { result.agreed ≡ self.now.agreed }
        ensures right { result.right ≡ self.now.right }
        ensures bytes { result.bytes.now ≡ self.now.bytes.items }
        ensures data_is { result.data.now ≡ self.now.data.items }
        ensures text_is { result.text.now ≡ self.now.text.items }
        ensures secret { result.secret ≡ self.now.secret }
        ensures secrets { result.secrets.now ≡ secrets_of facts.now self.now.kind }
        ensures name { result.name.now ≡ facts.now.name.items }
        ensures publics { result.publics.now ≡ facts.now.publics.items }
        ensures hashes { result.hashes.now ≡ self.now.hashes.items }
        ensures keys { result.keys.now ≡ self.now.keys.items }
    {
        Situation {
            kind: self.kind,
            before: self.before,
            agreed: self.agreed,
            right: self.right,
            bytes: &self.bytes,
            data: &self.data,
            text: &self.text,
            name: &facts.name,
            secret: self.secret,
            publics: &facts.publics,
            secrets: secrets_of(facts, self.kind),
            hashes: &self.hashes,
            keys: &self.keys,
        }
    }
}

// All DH results, or at a psk all psks.
fn secrets_of(facts: &Facts, kind: Kind) -> &[[u8; 32]]
    ensures { result.now ≡ secrets_of facts.now kind }
{
    match kind {
        Kind::Secret => &facts.psks,
        _ => &facts.results,
    }
}

// The state after the last right line before this place, which the log's party has; that before the step, where none is.
fn agreed_state(right: &[Line<'_>], left: usize, before: State) -> State
    ensures { result ≡ agreed_state right.now left before }
{
    if left == 0 {
        return before;
    }
    match right.get(left - 1) {
        Some(line) => state_in(line),
        None => before,
    }
}

// What MixHash takes at a step, and no more than a message has.
fn short_data(
    alloc: Global,
    facts: &Facts,
    expected: &Line<'_>,
    before: &State,
    after: &State,
    bytes: &[u8],
) -> Result<Vec<u8>, AllocError>
    ensures value { IfOk result (λ v. v.items
        ≡ take 65535 (data_of facts.now expected.now before.now after.now bytes.now)) }
    ensures short { IfOk result (λ v. vec_len v ≤ 65535) }
{
    let mut data = Vec::from_slice(alloc, data_of(facts, expected, before, after, bytes))?;
    data.truncate(65535);
    Ok(data)
}

fn data_of<'a>(
    facts: &'a Facts,
    expected: &Line<'_>,
    before: &State,
    after: &State,
    bytes: &'a [u8],
) -> &'a [u8]
    ensures { result.now ≡ data_of facts.now expected.now before.now after.now bytes.now }
{
    if expected.word(4) == b"prologue".as_slice() {
        &facts.prologue
    } else if expected.word(2) == b"start".as_slice() {
        public_among(&facts.publics, before, after)
    } else {
        bytes
    }
}

// The first of these keys that gives the hash after a step, or nothing.
fn public_among<'a>(publics: &'a [[u8; 32]], before: &State, after: &State) -> &'a [u8]
    ensures { result.now ≡ public_among publics.now before.now after.now }
{
    match first_public(publics, before, after) {
        Some(key) => key,
        None => &[],
    }
}

fn first_public<'a>(publics: &'a [[u8; 32]], before: &State, after: &State) -> Option<&'a [u8; 32]>
    ensures { option_copied result ≡ find (gives_hash before.now after.now) publics.now }
{
    publics.iter().find(|key| gives_hash(before, after, key))
}

fn gives_hash(before: &State, after: &State, key: &[u8; 32]) -> bool
    ensures { result ≡ gives_hash before.now after.now key.now }
{
    let hash = mixed(&before.hash, key);
    hash.as_slice() == after.hash.as_slice()
}

// Likewise of the text of a step's bytes.
fn short_text(alloc: Global, before: &State, bytes: &[u8]) -> Result<Vec<u8>, AllocError>
    ensures text { IfOk result (λ v. IsTextOf before.now bytes.now v.items) }
    ensures short { IfOk result (λ v. vec_len v ≤ 65535) }
{
    let mut text = text_of(alloc, &before.key, before, bytes)?;
    text.truncate(65535);
    Ok(text)
}

// The text of bytes, or the bytes where they aren't encrypted.
fn text_of(
    alloc: Global,
    key: &Option<[u8; 32]>,
    before: &State,
    bytes: &[u8],
) -> Result<Vec<u8>, AllocError>
    ensures { IfOk result (λ v. IsWholeText key.now before.now bytes.now v.items) }
{
    match key {
        Some(key) => text_under(alloc, key, before, bytes),
        None => Vec::from_slice(alloc, bytes),
    }
}

fn text_under(
    alloc: Global,
    key: &[u8; 32],
    before: &State,
    bytes: &[u8],
) -> Result<Vec<u8>, AllocError>
    ensures { IfOk result (λ v. IsWholeText (Some key.now) before.now bytes.now v.items) }
{
    let whole = Vec::from_slice(alloc, bytes)?;
    let len = bytes.len();
    if len > 65535 {
        return Ok(whole);
    }
    let found = opened(alloc, key, before, bytes)?;
    match found {
        Some(text) => Ok(text),
        None => Ok(whole),
    }
}

// What is encrypted to these bytes, if something is.
fn opened(
    alloc: Global,
    key: &[u8; 32],
    before: &State,
    bytes: &[u8],
) -> Result<Option<Vec<u8>>, AllocError>
    requires few { length bytes.now ≤ 65535 }
    ensures opened { IfOk result
        (λ found. IfSome found (λ text. IsOpened key.now before.now bytes.now text.items)) }
    ensures none { IfOk result
        (λ found. IfNone found ((text : List ℕ) → IsOpened key.now before.now bytes.now text → ⊥)) }
{
    let len = bytes.len();
    if len < 16 {
        length_of_sealed();
        return Ok(None);
    }
    let end = len - 16;
    let mut tag = [0; 16];
    tag.copy_from_slice(&bytes[end..]);
    opened_by(
        alloc,
        key,
        &nonce(before.nonce),
        &before.hash,
        &bytes[..end],
        &tag,
    )
}

// What is encrypted to these bytes with this tag, if something is.
fn opened_by(
    alloc: Global,
    key: &[u8; 32],
    nonce: &[u8; 12],
    ad: &[u8],
    front: &[u8],
    tag: &[u8; 16],
) -> Result<Option<Vec<u8>>, AllocError>
    requires ad_fits { length ad.now ≤ 65535 }
    requires front_fits { length front.now ≤ 65535 }
    ensures opened { IfOk result (λ found. IfSome found
        (λ text. front.now ++ tag.now ≡ sealed key.now nonce.now ad.now text.items)) }
    ensures none { IfOk result (λ found. IfNone found
        ((text : List ℕ) → front.now ++ tag.now ≡ sealed key.now nonce.now ad.now text → ⊥)) }
{
    let mut text = Vec::from_slice(alloc, front)?;
    match open_in_place(key, nonce, ad, &mut text, tag) {
        Ok(()) => Ok(Some(text)),
        Err(_) => Ok(None),
    }
}

// The DH result or the psk that gives the right chaining key, or else zeros.
fn secret_of(facts: &Facts, kind: Kind, before: &State, after: &State) -> [u8; 32]
    ensures { result ≡ secret_of facts.now kind before.now after.now }
{
    match kind {
        Kind::Agreement => secret_among(&facts.results, before, after),
        Kind::Secret => secret_among(&facts.psks, before, after),
        _ => [0; 32],
    }
}

fn secret_among(secrets: &[[u8; 32]], before: &State, after: &State) -> [u8; 32]
    ensures { result ≡ secret_among secrets.now before.now after.now }
{
    match first_secret(secrets, before, after) {
        Some(secret) => *secret,
        None => [0; 32],
    }
}

fn first_secret<'a>(secrets: &'a [[u8; 32]], before: &State, after: &State) -> Option<&'a [u8; 32]>
    ensures { option_copied result ≡ find (gives_chaining_key before.now after.now) secrets.now }
{
    secrets
        .iter()
        .find(|secret| gives_chaining_key(before, after, secret))
}

fn gives_chaining_key(before: &State, after: &State, secret: &[u8; 32]) -> bool
    ensures { result ≡ gives_chaining_key before.now after.now secret.now }
{
    let (chaining_key, _) = expand2(&before.chaining_key, secret);
    chaining_key.as_slice() == after.chaining_key.as_slice()
}
