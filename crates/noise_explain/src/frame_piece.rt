//! The piece of a handshake message at which two frames first differ.

ghost use Rattle.std.specs.Prelude.{◌≡◌, ◌≢◌, ◌<◌, ◌≤◌, ◌++◌, ℕ, List, IfNone, IfOk, IfSome, MatchOption, OnOk, length, slice_get, string_bytes};
ghost use Rattle.std.specs.List.{All};
ghost use Rattle.noise_vectors.specs.HexWord.{hex_of};
ghost use Rattle.noise_explain.specs.FramePieces.{HasNoFrame, HaveNoFrame, IsFirstDifferent, SaysPiece, IsPieceAt, frame_front, key_piece, offset_words, payload_piece, piece_line, piece_word};

use crate::excerpt::push_number;
use crate::known::sender_of;
use crate::piece_lines::tokens_of;
use noise_lines::{role_word, token_word};
use noise_names::{Token, ValidPattern};
use noise_vectors::read_hex;
use std::alloc::{AllocError, Global};

/// What stands at a byte of the frame of a handshake message.
#[derive(Clone, Copy)]
pub enum Piece {
    /// The message's length.
    Length,
    /// The public key of a token, in the clear.
    Key(Token),
    /// The static key, encrypted.
    EncryptedKey,
    /// The tag of the encrypted static key.
    KeyTag,
    /// The payload, in the clear.
    Payload,
    /// The payload, encrypted.
    EncryptedPayload,
    /// The tag of the encrypted payload.
    PayloadTag,
    /// What follows the last byte.
    End,
}

// Of two lines that differ, where both are of the frame of one handshake message: a line of the first byte at which the
// frames differ, counted from 0, and of the piece that stands there.
pub(crate) fn frame_difference(
    alloc: Global,
    pattern: &ValidPattern,
    expected: &[u8],
    printed: &[u8],
) -> Result<Option<Vec<u8>>, AllocError>
    ensures some { IfOk result (λ found. IfSome found
        (λ line. (n : ℕ) × SaysPiece pattern.now n expected.now printed.now line.items)) }
    ensures none { IfOk result (λ found. IfNone found (HaveNoFrame pattern.now expected.now printed.now)) }
{
    for index in 0..pattern.pattern().messages().len() {
        match message_line(alloc, pattern, index as u8 + 1, expected, printed)? {
            Some(line) => return Ok(Some(line)),
            None => {}
        }
    }
    Ok(None)
}

// The same of the message of this number.
fn message_line(
    alloc: Global,
    pattern: &ValidPattern,
    message: u8,
    expected: &[u8],
    printed: &[u8],
) -> Result<Option<Vec<u8>>, AllocError>
    requires first { 1 ≤ message }
    requires last { message ≤ length pattern.now.messages }
    ensures some { IfOk result (λ found. IfSome found
        (λ line. SaysPiece pattern.now message expected.now printed.now line.items)) }
    ensures none { IfOk result (λ found. IfNone found (HasNoFrame message expected.now printed.now)) }
{
    let front = frame_front(alloc, message)?;
    let Some(yours) = frame_after(alloc, front.as_bytes(), expected)? else {
        return Ok(None);
    };
    let Some(right) = frame_after(alloc, front.as_bytes(), printed)? else {
        return Ok(None);
    };
    match first_difference(&yours, &right) {
        Some(at) => Ok(Some(piece_line(
            alloc,
            at,
            piece_at(pattern, message, at, right.len()),
            message,
        )?)),
        None => Ok(None),
    }
}

// What stands before the frame in the line of a message.
fn frame_front(alloc: Global, message: u8) -> Result<String, AllocError>
    requires first { 1 ≤ message }
    ensures text { IfOk result (λ front. string_bytes front ≡ frame_front message) }
{
    let role = role_word(sender_of(usize::from(message)));
    let number = (message - 1) / 2;
    format!(in alloc; "wrote {role} {number} ")
}

// The frame whose word follows this front, if one does.
fn frame_after(alloc: Global, front: &[u8], line: &[u8]) -> Result<Option<Vec<u8>>, AllocError>
    ensures some { IfOk result (λ found. IfSome found (λ frame. line.now ≡ front.now ++ hex_of frame.items)) }
    ensures none { IfOk result (λ found. IfNone found ((frame : List ℕ) → All (λ b. b < 256) frame
        → line.now ≢ front.now ++ hex_of frame)) }
{
    match word_after(front, line) {
        Some(word) => read_hex(alloc, word),
        None => Ok(None),
    }
}

// What follows this front of a line.
pub(crate) fn word_after<'a>(front: &[u8], line: &'a [u8]) -> Option<&'a [u8]>
    ensures some { IfSome result (λ word. line.now ≡ front.now ++ word.now) }
    ensures none { IfNone result ((word : List ℕ) → line.now ≢ front.now ++ word) }
{
    let word = line.strip_prefix(front)?;
    Some(word)
}

// The first place at which these bytes differ.
pub(crate) fn first_difference(yours: &[u8], right: &[u8]) -> Option<usize>
    ensures { MatchOption result (yours.now ≡ right.now) (IsFirstDifferent yours.now right.now) }
{
    let same = same_bytes(yours, right);
    if same == yours.len() && same == right.len() {
        None
    } else {
        Some(same)
    }
}

// How many bytes both begin with.
fn same_bytes(yours: &[u8], right: &[u8]) -> usize
    ensures within { (result ≤ length yours.now) × (result ≤ length right.now) }
    ensures value { (i : ℕ) → i < result → slice_get yours.now i ≡ slice_get right.now i }
    ensures differ { result < length yours.now → result < length right.now
        → slice_get yours.now result ≢ slice_get right.now result }
{
    let mut same = 0;
    while same < yours.len() && same < right.len() && yours[same] == right[same] {
        same += 1;
    }
    same
}

// What stands at this byte of the frame of a message, which has so many bytes.
fn piece_at(pattern: &ValidPattern, message: u8, at: usize, len: usize) -> Piece
    requires first { 1 ≤ message }
    requires last { message ≤ length pattern.now.messages }
    ensures value { IsPieceAt pattern.now message len at result }
{
    if at < 2 {
        return Piece::Length;
    }
    let tokens = tokens_of(pattern, message);
    let offset = at - 2;
    for index in 0..tokens.len() {
        let place = index as u8;
        let next = usize::from(pattern.bytes_before(message, place + 1));
        if offset < next {
            let begin = usize::from(pattern.bytes_before(message, place));
            let has_key = pattern.has_key_before(message, place);
            return key_piece(tokens[index], has_key, offset - begin);
        }
    }
    let has_key = pattern.has_key_before(message, tokens.len() as u8);
    payload_piece(has_key, len.saturating_sub(at))
}

// What stands at this byte of what a token sends, where there is a key or none.
fn key_piece(token: Token, has_key: bool, at: usize) -> Piece
    ensures { result ≡ key_piece token has_key at }
{
    match token {
        Token::S if has_key && at < 32 => Piece::EncryptedKey,
        Token::S if has_key => Piece::KeyTag,
        token => Piece::Key(token),
    }
}

// What stands in a payload where so many bytes are left, where there is a key or none.
fn payload_piece(has_key: bool, left: usize) -> Piece
    ensures { result ≡ payload_piece has_key left }
{
    if left == 0 {
        Piece::End
    } else if !has_key {
        Piece::Payload
    } else if left > 16 {
        Piece::EncryptedPayload
    } else {
        Piece::PayloadTag
    }
}

// The line of a difference.
fn piece_line(alloc: Global, at: usize, piece: Piece, message: u8) -> Result<Vec<u8>, AllocError>
    ensures { IfOk result (λ line. line.items ≡ piece_line at piece message) }
{
    let mut line = Vec::new(alloc);
    line.extend_from_slice(b"differs at byte ".as_slice())?;
    push_number(alloc, at, &mut line)?;
    line.extend_from_slice(b": ".as_slice())?;
    line.extend_from_slice(piece_word(piece).as_bytes())?;
    line.extend_from_slice(b" of message ".as_slice())?;
    push_number(alloc, usize::from(message), &mut line)?;
    push_offset(alloc, at, &mut line)?;
    Ok(line)
}

// Appends the same byte, counted in the message.
fn push_offset(alloc: Global, at: usize, line: &mut Vec<u8>) -> Result<(), AllocError>
    ensures { OnOk result (line.new.items ≡ line.old.items ++ offset_words at) }
{
    if at < 2 {
        return Ok(());
    }
    line.extend_from_slice(b", offset ".as_slice())?;
    push_number(alloc, at - 2, line)
}

fn piece_word(piece: Piece) -> &'static str
    ensures { result.now ≡ piece_word piece }
{
    match piece {
        Piece::Length => "length",
        Piece::Key(token) => token_word(token),
        Piece::EncryptedKey => "encrypted s",
        Piece::KeyTag => "tag of s",
        Piece::Payload => "payload",
        Piece::EncryptedPayload => "encrypted payload",
        Piece::PayloadTag => "tag of the payload",
        Piece::End => "end",
    }
}
