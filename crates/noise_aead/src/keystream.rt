//! The keystream of a key and a nonce (RFC 8439, 2.3 and 2.4), in blocks of 64 bytes.
ghost use Rattle.std.specs.Prelude.{◌≡◌, ◌+◌, ◌*◌, ◌^◌, ◌/◌, ◌%◌, ◌<◌, ◌≤◌, ℕ, length, bit_xor};
ghost use Rattle.std.specs.Simd.Lanes.{zip2, number_l, digits_l};
ghost use Rattle.noise_aead.specs.Sealing.{byte_from, bytes_from, generator_at, xored};

use byteorder::{ByteOrder, LittleEndian};
use rand_chacha::ChaCha20Rng;
use rand_core::SeedableRng;
use rand_core::utils::NextWord;
use std::simd::{u8x64, u32x16};

const BLOCK_LEN: usize = 64;

/// The generator at this word of the keystream. A block has 16 words.
///
/// It is inlined, so that the compiler knows the place of each word of the first blocks.
#[inline(always)]
pub fn generator(key: &[u8; 32], nonce: &[u8; 12], word: u32) -> ChaCha20Rng
    ensures place { (b : ℕ) → word ≡ 16 * b → result ≡ generator_at key.now nonce.now b }
    ensures room { result.word_pos + 2 ^ 35 ≤ 2 ^ 68 }
{
    let mut words = ChaCha20Rng::from_seed(*key);
    words.set_stream(LittleEndian::read_u64(&nonce[4..]));
    // The first four bytes count 2^32 blocks each.
    let front = u128::from(LittleEndian::read_u32(nonce)) << 36;
    words.set_word_pos(front + u128::from(word));
    words
}

/// The same generator, out of line, for a call at another word than the rest. If the compiler saw that no call asks for
/// a word within a block, it would make the refill of four blocks a part of `next_word`, which would then be too long
/// to be inlined.
#[inline(never)]
pub fn generator_apart(key: &[u8; 32], nonce: &[u8; 12], word: u32) -> ChaCha20Rng
    ensures place { (b : ℕ) → word ≡ 16 * b → result ≡ generator_at key.now nonce.now b }
    ensures room { result.word_pos + 2 ^ 35 ≤ 2 ^ 68 }
{
    generator(key, nonce, word)
}

/// The first half of the next block. The other half is passed over.
#[inline(always)]
pub fn half_block(words: &mut ChaCha20Rng) -> [u8; 32]
    requires room { words.old.word_pos + 16 < 2 ^ 68 }
    ensures bytes { result ≡ bytes_from words.old 32 }
    ensures words { words.new ≡ record words.old { word_pos = words.old.word_pos + 16 } }
{
    let block = block(words);
    let mut half = [0; 32];
    half.copy_from_slice(&block[..32]);
    half
}

// The next 16 words, each word's lowest byte first.
#[inline(always)]
fn block(words: &mut ChaCha20Rng) -> [u8; 64]
    requires room { words.old.word_pos + 16 < 2 ^ 68 }
    ensures bytes { result ≡ bytes_from words.old 64 }
    ensures words { words.new ≡ record words.old { word_pos = words.old.word_pos + 16 } }
{
    let w0 = words.next_word();
    let w1 = words.next_word();
    let w2 = words.next_word();
    let w3 = words.next_word();
    let w4 = words.next_word();
    let w5 = words.next_word();
    let w6 = words.next_word();
    let w7 = words.next_word();
    let w8 = words.next_word();
    let w9 = words.next_word();
    let w10 = words.next_word();
    let w11 = words.next_word();
    let w12 = words.next_word();
    let w13 = words.next_word();
    let w14 = words.next_word();
    let w15 = words.next_word();
    bytes_of([
        w0, w1, w2, w3, w4, w5, w6, w7, w8, w9, w10, w11, w12, w13, w14, w15,
    ])
}

// The words as one number, cut into bytes.
#[inline(always)]
fn bytes_of(words: [u32; 16]) -> [u8; 64]
    ensures { result ≡ digits_l 256 64 (number_l (2 ^ 32) words) }
{
    u32x16::from_array(words).to_le_bytes().to_array()
}

/// Xors each byte of the text with the stream's byte at its place.
#[inline(always)]
pub fn xor64(text: &mut [u8; 64], stream: &[u8; 64])
    ensures { text.new ≡ zip2 bit_xor text.old stream.now }
{
    let both = u8x64::from_array(*text) ^ u8x64::from_array(*stream);
    *text = both.to_array();
}

/// Xors the text with the keystream from the generator's place on, which is the beginning of a block.
///
/// It is a function of its own in the library, so that `dist/levels.py` can take it for each level of the processor.
#[inline(never)]
pub fn apply(words: &mut ChaCha20Rng, text: &mut [u8])
    requires fits { length text.old ≤ 65535 }
    requires beginning { words.old.word_pos % 16 ≡ 0 }
    requires room { words.old.word_pos + 2 ^ 15 < 2 ^ 68 }
    ensures text { text.new ≡ xored (byte_from words.old) 0 text.old }
{
    let whole = text.len() / BLOCK_LEN;
    // The generator makes four blocks at once: these three came with the block of the one-time key.
    let first = whole.min(3);
    let groups = (whole - first) / 4;
    apply_blocks(words, &mut text[..BLOCK_LEN * first]);
    for i in 0..groups {
        let start = BLOCK_LEN * (first + 4 * i);
        apply_four(words, &mut text[start..start + 4 * BLOCK_LEN]);
    }
    let start = BLOCK_LEN * (first + 4 * groups);
    apply_blocks(words, &mut text[start..BLOCK_LEN * whole]);
    let rest = &mut text[BLOCK_LEN * whole..];
    if !rest.is_empty() {
        apply_front(words, rest);
    }
}

// Whole blocks of text.
#[inline(always)]
fn apply_blocks(words: &mut ChaCha20Rng, text: &mut [u8])
    requires whole { length text.old ≡ 64 * (length text.old / 64) }
    requires room { words.old.word_pos + 16 * (length text.old / 64) < 2 ^ 68 }
    ensures text { text.new ≡ xored (byte_from words.old) 0 text.old }
    ensures words { words.new ≡ record words.old { word_pos = words.old.word_pos + 16 * (length text.old / 64) } }
{
    for i in 0..text.len() / BLOCK_LEN {
        apply_block(words, &mut text[BLOCK_LEN * i..BLOCK_LEN * i + BLOCK_LEN]);
    }
}

// Four whole blocks of text.
//
// The generator is set to the place where it stands, so that the compiler knows that it has no word left: it then makes
// four blocks, and none of the 64 words needs a test whether more have to be made. All are read before the text is
// written, since the compiler takes it that this may change the generator.
#[inline(always)]
fn apply_four(words: &mut ChaCha20Rng, text: &mut [u8])
    requires whole { length text.old ≡ 256 }
    requires beginning { words.old.word_pos % 16 ≡ 0 }
    requires room { words.old.word_pos + 64 < 2 ^ 68 }
    ensures text { text.new ≡ xored (byte_from words.old) 0 text.old }
    ensures words { words.new ≡ record words.old { word_pos = words.old.word_pos + 64 } }
{
    words.set_word_pos(words.get_word_pos() / 16 * 16);
    let a = block(words);
    let b = block(words);
    let c = block(words);
    let d = block(words);
    xor_block(&mut text[..64], &a);
    xor_block(&mut text[64..128], &b);
    xor_block(&mut text[128..192], &c);
    xor_block(&mut text[192..256], &d);
}

// A whole block of text.
#[inline(always)]
fn apply_block(words: &mut ChaCha20Rng, text: &mut [u8])
    requires whole { length text.old ≡ 64 }
    requires room { words.old.word_pos + 16 < 2 ^ 68 }
    ensures text { text.new ≡ xored (byte_from words.old) 0 text.old }
    ensures words { words.new ≡ record words.old { word_pos = words.old.word_pos + 16 } }
{
    let stream = block(words);
    xor_block(text, &stream);
}

// A whole block of text with what is read for it.
#[inline(always)]
fn xor_block(text: &mut [u8], stream: &[u8; 64])
    requires whole { length text.old ≡ 64 }
    ensures text { text.new ≡ zip2 bit_xor text.old stream.now }
{
    if let Some(text) = text.first_chunk_mut::<64>() {
        xor64(text, stream);
    }
}

// A text within a block. What the block has over is dropped.
#[inline(always)]
fn apply_front(words: &mut ChaCha20Rng, text: &mut [u8])
    requires within { length text.old ≤ 64 }
    requires room { words.old.word_pos + 16 < 2 ^ 68 }
    ensures text { text.new ≡ xored (byte_from words.old) 0 text.old }
{
    let stream = block(words);
    for (j, byte) in text.iter_mut().enumerate() {
        *byte ^= stream[j];
    }
}
