//! Exports: the cipher states of a session, for transports of the caller's own (Noise, 5.1, 11.3 and 11.4).

ghost use Rattle.std.specs.Prelude.{◌≡◌, ◌<◌, take};
ghost use Rattle.noise_aead.specs.Sealing.{rekeyed};
ghost use Rattle.noise_c.specs.CipherStructs.{is_cipher, struct_code, Decrypts, Encrypts, IsNoneOf};
ghost use Rattle.noise_c.specs.declared.codes.numbers.TheConstants.{OK, TAG};

use crate::codes::numbers::*;
use crate::codes::{cipher_code, ok_or};
use crate::halves_from_c::*;
use crate::structs::{NoiseCipher, NoiseResult};
use noise_state::limits::{MAX_LEN, TAG_LEN};

/// Encrypts the text in the first `text_len` bytes of `buffer` in place, with associated data (EncryptWithAd).
#[unsafe(no_mangle)]
pub extern "C" fn noise_cipher_encrypt(
    cipher: &mut NoiseCipher,
    ad: &[u8],
    buffer: &mut [u8],
    text_len: usize,
    results: &mut NoiseResult,
) -> u32
    ensures { Encrypts ad.now (take text_len buffer.old) text_len
        cipher.old cipher.new buffer.old buffer.new results.old results.new result }
{
    let mut state = ok_or!(cipher_from_c(cipher, cipher.mark == SENDING_CIPHER));
    if ad.len() > MAX_LEN {
        return LENGTH;
    }
    if buffer.len() < TAG_LEN || buffer.len() - TAG_LEN < text_len {
        return ROOM;
    }
    let len = ok_or!(state.encrypt(ad, buffer, text_len), cipher_code);
    results.from = 0;
    results.len = len;
    cipher.nonce = state.nonce();
    OK
}

/// Decrypts a message in place, with associated data (DecryptWithAd): its first bytes are then the text.
#[unsafe(no_mangle)]
pub extern "C" fn noise_cipher_decrypt(
    cipher: &mut NoiseCipher,
    ad: &[u8],
    message: &mut [u8],
    results: &mut NoiseResult,
) -> u32
    ensures decrypts { Decrypts ad.now cipher.old cipher.new message.old message.new results.old results.new result }
    ensures forged { result ≡ TAG → IsNoneOf cipher.old ad.now message.old }
{
    let mut state = ok_or!(cipher_from_c(cipher, cipher.mark == RECEIVING_CIPHER));
    if ad.len() > MAX_LEN {
        return LENGTH;
    }
    let len = ok_or!(state.decrypt(ad, message), cipher_code);
    results.from = 0;
    results.len = len;
    cipher.nonce = state.nonce();
    OK
}

/// Changes the key to the one that follows from it (Rekey: Noise, 11.3). The nonce goes on.
#[unsafe(no_mangle)]
pub extern "C" fn noise_cipher_rekey(cipher: &mut NoiseCipher) -> u32
    ensures code { result ≡ struct_code (is_cipher cipher.old) cipher.old }
    ensures renewed { result ≡ OK → cipher.new ≡ record cipher.old { key = rekeyed cipher.old.key } }
    ensures unchanged { OK < result → cipher.new ≡ cipher.old }
{
    let mut state = ok_or!(cipher_from_c(cipher, is_cipher(cipher)));
    state.rekey();
    if let (Some(key), _) = state.into_parts() {
        cipher.key = key;
    }
    OK
}

/// Reports the nonce of the next message.
#[unsafe(no_mangle)]
pub extern "C" fn noise_cipher_nonce(cipher: &NoiseCipher, nonce: &mut u64) -> u32
    ensures code { result ≡ struct_code (is_cipher cipher.now) cipher.now }
    ensures nonce { result ≡ OK → nonce.new ≡ cipher.now.nonce }
    ensures unchanged { OK < result → nonce.new ≡ nonce.old }
{
    let state = ok_or!(cipher_from_c(cipher, is_cipher(cipher)));
    *nonce = state.nonce();
    OK
}

/// Sets the nonce of the next message (SetNonce: Noise, 11.4).
#[unsafe(no_mangle)]
pub extern "C" fn noise_cipher_set_nonce(cipher: &mut NoiseCipher, nonce: u64) -> u32
    ensures code { result ≡ struct_code (is_cipher cipher.old) cipher.old }
    ensures set { result ≡ OK → cipher.new ≡ record cipher.old { nonce = nonce } }
    ensures unchanged { OK < result → cipher.new ≡ cipher.old }
{
    ok_or!(cipher_from_c(cipher, is_cipher(cipher)));
    cipher.nonce = nonce;
    OK
}
