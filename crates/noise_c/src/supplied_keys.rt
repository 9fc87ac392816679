//! The keys of a handshake, where they stand in C's struct, and the numbers for key pairs.

ghost use Rattle.std.specs.Prelude.{◌≡◌, ◌≤◌, map};
ghost use Rattle.noise_keys.specs.Keys.{key_of};
ghost use Rattle.noise_keys.specs.Table.{Table, dh_result_in, is_for};
ghost use Rattle.noise_c.specs.HandshakeStructs.{entry_in, key_from_c, key_to_c, own_in};

use crate::structs::{NoiseAnswer, NoiseKey};
use noise_handshake::{Keys, Own};
use std::marker::Model;

// An entry without a DH result.
pub(crate) const NO_DH_RESULT: NoiseAnswer = NoiseAnswer {
    of_static: 0,
    remote: [0; 32],
    answer: [0; 32],
};

// Public keys, and the DH results that were handed in.
#[derive(Drop)]
pub(crate) struct SuppliedKeys<'a> {
    pub(crate) e: &'a NoiseKey,
    pub(crate) s: &'a NoiseKey,
    pub(crate) answers: &'a [NoiseAnswer],
}

impl<'a> Model for SuppliedKeys<'a> {
    ghost Value = { Table };

    ghost view = { λ keys. record {
      e = key_from_c keys.e.now;
      s = key_from_c keys.s.now;
      entries = map entry_in keys.answers.now;
    } };
}

impl<'a> Keys for SuppliedKeys<'a> {
    ghost pairs = { λ keys. record {
      public = λ own. key_of own keys.e keys.s;
      agree = λ own remote. dh_result_in keys.entries own remote;
    } };

    fn public(&self, own: Own) -> Option<[u8; 32]> {
        match own {
            Own::Ephemeral => key_of(self.e),
            Own::Static => key_of(self.s),
        }
    }

    fn agree(&self, own: Own, remote: &[u8; 32]) -> Option<[u8; 32]> {
        result_for(self.answers, own, remote)
    }
}

// The key, if there is one.
pub(crate) fn key_of(key: &NoiseKey) -> Option<[u8; 32]>
    ensures { result ≡ key_from_c key.now }
{
    if key.present == 0 {
        None
    } else {
        Some(key.bytes)
    }
}

pub(crate) fn own_of(of_static: u8) -> Own
    ensures { result ≡ own_in of_static }
{
    if of_static == 0 {
        Own::Ephemeral
    } else {
        Own::Static
    }
}

fn is_for(answer: &NoiseAnswer, own: Own, remote: &[u8; 32]) -> bool
    ensures { result ≡ is_for own remote.now (entry_in answer.now) }
{
    own_of(answer.of_static) == own && answer.remote == *remote
}

// The first DH result of this key pair and that key.
fn result_for(answers: &[NoiseAnswer], own: Own, remote: &[u8; 32]) -> Option<[u8; 32]>
    ensures { result ≡ dh_result_in (map entry_in answers.now) own remote.now }
{
    let (first, more) = answers.split_first()?;
    if is_for(first, own, remote) {
        Some(first.answer)
    } else {
        result_for(more, own, remote)
    }
}

// How C has a key.
pub(crate) fn key_to_c(key: Option<[u8; 32]>) -> NoiseKey
    ensures value { key_from_c result ≡ key }
    ensures exact { result ≡ key_to_c key }
{
    match key {
        Some(bytes) => NoiseKey { present: 1, bytes },
        None => NoiseKey {
            present: 0,
            bytes: [0; 32],
        },
    }
}

// Whether the key pair is the static one.
pub(crate) fn own_to_c(own: Own) -> u8
    ensures value { own_in result ≡ own }
    ensures flag { result ≤ 1 }
{
    match own {
        Own::Static => 1,
        Own::Ephemeral => 0,
    }
}
