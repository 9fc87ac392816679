//! An export: where the pieces of a message stand.

ghost use Rattle.std.specs.Prelude.{◌≡◌, ◌↔◌, ◌⊎◌, ◌≤◌, ◌<◌, ◌+◌, ◌&&◌, length, IsTrue, if◌then◌else◌};
ghost use Rattle.noise_names.specs.Overhead.{has_key, overhead_of};
ghost use Rattle.noise_names.specs.Pieces.{bytes_before, places_to, tokens_of};
ghost use Rattle.noise_names.specs.Plan.{Plan, does};
ghost use Rattle.noise_names.specs.Validity.{IsValid, encrypts};
ghost use Rattle.noise_c.specs.HandshakeStructs.{IsNoName, IsNoText, IsNotValid, IsPatternOf};
ghost use Rattle.noise_c.specs.MessageLayouts.{CanBeSent, IsLayoutCode, layout_of, own_len, piece_at, piece_of};
ghost use Rattle.noise_c.specs.PatternInfo.{flag};
ghost use Rattle.noise_c.specs.declared.codes.numbers.TheConstants.{NAME, NOT_DUE, OK, PATTERN};

use crate::codes::numbers::{NOT_DUE, OK};
use crate::codes::ok_or;
use crate::pattern_info::token_to_c;
use crate::patterns::pattern_of;
use crate::structs::{NoiseMessageLayout, NoisePiece};
use noise_names::{Token, ValidPattern};
use noise_state::limits::MAX_LEN;

// The number of the payload, among those of the tokens.
const PAYLOAD: u8 = 8;

// The tokens of a message, counted from 1.
fn tokens_of<'a>(pattern: &'a ValidPattern, message: u8) -> &'a [Token]
    requires first { 1 ≤ message }
    requires last { message ≤ length pattern.now.messages }
    ensures value { result.now ≡ tokens_of pattern.now message }
    ensures few { length result.now ≤ 10 }
{
    pattern.pattern().messages()[usize::from(message) - 1].tokens()
}

// Whether the pattern has such a message, and with a payload of this length it is no longer than a message may be.
fn can_be_sent(pattern: &ValidPattern, message: u8, payload_len: usize) -> bool
    ensures { IsTrue result ↔ CanBeSent pattern.now message payload_len }
{
    if message == 0 || usize::from(message) > pattern.pattern().messages().len() {
        return false;
    }
    let overhead = usize::from(pattern.overhead(message));
    payload_len <= MAX_LEN && overhead + payload_len <= MAX_LEN
}

// The piece at a place, of so many bytes without a tag.
fn piece(
    pattern: &ValidPattern,
    message: u8,
    place: u8,
    token: u8,
    encrypts: bool,
    len: u32,
) -> NoisePiece
    requires first { 1 ≤ message }
    requires last { message ≤ length pattern.now.messages }
    requires place { place ≤ length (tokens_of pattern.now message) }
    requires short { len ≤ 65535 }
    ensures value { result ≡ record {
      token = token;
      encrypted = flag (encrypts && has_key pattern.now (places_to pattern.now message place));
      from = bytes_before pattern.now message place;
      len = len + (if encrypts && has_key pattern.now (places_to pattern.now message place) then 16 else 0);
    } }
{
    let has_key = pattern.has_key_before(message, place);
    let encrypted = encrypts && has_key;
    let tag = if encrypted { 16 } else { 0 };
    NoisePiece {
        token,
        encrypted: u8::from(encrypted),
        from: u32::from(pattern.bytes_before(message, place)),
        len: len + tag,
    }
}

// How many bytes of a message a token has without a tag: those of a key.
fn own_len(token: Token) -> u32
    ensures value { result ≡ own_len token }
    ensures short { result ≤ 32 }
{
    match token {
        Token::E | Token::S => 32,
        _ => 0,
    }
}

// Whether what the token sends is encrypted where there is a key.
fn encrypts(token: Token) -> bool
    ensures { result ≡ encrypts (does token) }
{
    token == Token::S
}

// The piece of a token.
fn token_piece(
    pattern: &ValidPattern,
    message: u8,
    payload_len: u32,
    place: u8,
    token: Token,
) -> NoisePiece
    requires first { 1 ≤ message }
    requires last { message ≤ length pattern.now.messages }
    requires place { place ≤ length (tokens_of pattern.now message) }
    ensures value { result ≡ piece_of pattern.now message payload_len place (does token) }
{
    piece(
        pattern,
        message,
        place,
        token_to_c(token),
        encrypts(token),
        own_len(token),
    )
}

// The piece at a place: a token's, the payload's, or none.
fn piece_at(pattern: &ValidPattern, message: u8, payload_len: u32, place: u8) -> NoisePiece
    requires first { 1 ≤ message }
    requires last { message ≤ length pattern.now.messages }
    requires short { payload_len ≤ 65535 }
    ensures value { result ≡ piece_at pattern.now message payload_len place }
{
    let tokens = tokens_of(pattern, message);
    match tokens.get(usize::from(place)) {
        Some(token) => token_piece(pattern, message, payload_len, place, *token),
        None => {
            if usize::from(place) == tokens.len() {
                piece(pattern, message, place, PAYLOAD, true, payload_len)
            } else {
                NoisePiece {
                    token: 0,
                    encrypted: 0,
                    from: 0,
                    len: 0,
                }
            }
        }
    }
}

// The layout of a message.
fn layout_of(pattern: &ValidPattern, message: u8, payload_len: u32) -> NoiseMessageLayout
    requires first { 1 ≤ message }
    requires last { message ≤ length pattern.now.messages }
    requires short { overhead_of pattern.now message + payload_len ≤ 65535 }
    ensures value { result ≡ layout_of pattern.now message payload_len }
{
    NoiseMessageLayout {
        count: tokens_of(pattern, message).len() as u8 + 1,
        len: u32::from(pattern.overhead(message)) + payload_len,
        pieces: [
            piece_at(pattern, message, payload_len, 0),
            piece_at(pattern, message, payload_len, 1),
            piece_at(pattern, message, payload_len, 2),
            piece_at(pattern, message, payload_len, 3),
            piece_at(pattern, message, payload_len, 4),
            piece_at(pattern, message, payload_len, 5),
            piece_at(pattern, message, payload_len, 6),
            piece_at(pattern, message, payload_len, 7),
            piece_at(pattern, message, payload_len, 8),
            piece_at(pattern, message, payload_len, 9),
            piece_at(pattern, message, payload_len, 10),
        ],
    }
}

/// Says where the pieces of a message stand, which counts from 1 and has a payload of this length: those of its tokens,
/// and then the payload. The pattern is as for `noise_start`.
#[unsafe(no_mangle)]
pub extern "C" fn noise_layout(
    pattern: &[u8],
    message: u8,
    payload_len: usize,
    layout: &mut NoiseMessageLayout,
) -> u32
    ensures name { result ≡ NAME ↔ IsNoName pattern.now }
    ensures pattern { result ≡ PATTERN ↔ (IsNoText pattern.now ⊎ IsNotValid pattern.now) }
    ensures valid { (p : Plan) → IsPatternOf pattern.now p → IsValid p
        → IsLayoutCode p message payload_len result }
    ensures laid { result ≡ OK → (p : Plan) → IsPatternOf pattern.now p
        → layout.new ≡ layout_of p message payload_len }
    ensures unchanged { OK < result → layout.new ≡ layout.old }
    ensures codes { (result ≡ OK) ⊎ (result ≡ NAME) ⊎ (result ≡ PATTERN) ⊎ (result ≡ NOT_DUE) }
{
    let valid = ok_or!(pattern_of(pattern));
    if !can_be_sent(&valid, message, payload_len) {
        return NOT_DUE;
    }
    *layout = layout_of(&valid, message, payload_len as u32);
    OK
}
