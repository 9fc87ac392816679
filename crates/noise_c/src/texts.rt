//! Exports: what each code means, as a sentence.

ghost use Rattle.std.specs.Prelude.{◌≡◌, ◌<◌, slice_index, take};
ghost use Rattle.noise_c.specs.Sentences.{meaning};

use crate::codes::numbers::*;

/// Gives a sentence that says what a code means, a static text; of a number that is no code, that it is none. Returns
/// its length, at most 79 bytes. The byte after it is zero, so it is a text of C.
#[unsafe(no_mangle)]
pub extern "C" fn noise_sentence(code: u32, sentence: &mut &'static [u8; 80]) -> usize
    ensures within { result < 80 }
    ensures text { take result sentence.new.now ≡ meaning code }
    ensures ends { slice_index sentence.new.now result ≡ 0 }
{
    let (text, len) = sentence_of(code);
    *sentence = text;
    len
}

// The sentence with zeros after it, and its length.
#[rattlefmt::skip]
fn sentence_of(code: u32) -> (&'static [u8; 80], usize)
    ensures within { result.1 < 80 }
    ensures text { take result.1 result.0.now ≡ meaning code }
    ensures ends { slice_index result.0.now result.1 ≡ 0 }
{
    match code {
        OK => (b"The call succeeded.\
            \0\0\0\0\0\0\0\0\0\0\0\0\0\0\0\0\0\0\0\0\0\0\0\0\0\0\0\0\0\0\0\0\0\0\0\0\0\0\0\0\0\0\0\0\0\
            \0\0\0\0\0\0\0\0\0\0\0\0\0\0\0\0", 19),
        NAME => (b"No fundamental pattern with 25519, ChaChaPoly, SHA256 has this name.\
            \0\0\0\0\0\0\0\0\0\0\0\0", 68),
        PATTERN => (b"The pattern text has a fault: noise_check_pattern says where.\
            \0\0\0\0\0\0\0\0\0\0\0\0\0\0\0\0\0\0\0", 61),
        EPHEMERAL_MISSING => (b"The setup lacks this party's ephemeral public key.\
            \0\0\0\0\0\0\0\0\0\0\0\0\0\0\0\0\0\0\0\0\0\0\0\0\0\0\0\0\0\0", 50),
        STATIC_MISSING => (b"The setup lacks this party's static public key.\
            \0\0\0\0\0\0\0\0\0\0\0\0\0\0\0\0\0\0\0\0\0\0\0\0\0\0\0\0\0\0\0\0\0", 47),
        REMOTE_MISSING => (b"The setup lacks a key of the other party's pre-message.\
            \0\0\0\0\0\0\0\0\0\0\0\0\0\0\0\0\0\0\0\0\0\0\0\0\0", 55),
        REMOTE_UNEXPECTED => (b"The setup has a remote key that isn't in a pre-message.\
            \0\0\0\0\0\0\0\0\0\0\0\0\0\0\0\0\0\0\0\0\0\0\0\0\0", 55),
        PSK_COUNT => (b"There are more psks than psk tokens.\
            \0\0\0\0\0\0\0\0\0\0\0\0\0\0\0\0\0\0\0\0\0\0\0\0\0\0\0\0\0\0\0\0\0\0\0\0\0\0\0\0\0\0\0\0", 36),
        NOT_YOUR_TURN => (b"It is the other party's turn.\
            \0\0\0\0\0\0\0\0\0\0\0\0\0\0\0\0\0\0\0\0\0\0\0\0\0\0\0\0\0\0\0\0\0\0\0\0\0\0\0\0\0\0\0\0\0\
            \0\0\0\0\0\0", 29),
        TOO_LONG => (b"The message would be or is too long.\
            \0\0\0\0\0\0\0\0\0\0\0\0\0\0\0\0\0\0\0\0\0\0\0\0\0\0\0\0\0\0\0\0\0\0\0\0\0\0\0\0\0\0\0\0", 36),
        DONE => (b"All messages of the handshake have passed.\
            \0\0\0\0\0\0\0\0\0\0\0\0\0\0\0\0\0\0\0\0\0\0\0\0\0\0\0\0\0\0\0\0\0\0\0\0\0\0", 42),
        ENDED => (b"The handshake has ended: a message was refused, or it was finished.\
            \0\0\0\0\0\0\0\0\0\0\0\0\0", 67),
        AGREEMENT => (b"A result of X25519 is missing in a struct that was changed.\
            \0\0\0\0\0\0\0\0\0\0\0\0\0\0\0\0\0\0\0\0\0", 59),
        SHORT => (b"The message has too few bytes.\
            \0\0\0\0\0\0\0\0\0\0\0\0\0\0\0\0\0\0\0\0\0\0\0\0\0\0\0\0\0\0\0\0\0\0\0\0\0\0\0\0\0\0\0\0\0\
            \0\0\0\0\0", 30),
        TAG => (b"A tag is wrong: keys, psks or prologues differ, or bytes changed.\
            \0\0\0\0\0\0\0\0\0\0\0\0\0\0\0", 65),
        EXHAUSTED => (b"The nonce is 2^64 - 1: this key encrypts and decrypts no more.\
            \0\0\0\0\0\0\0\0\0\0\0\0\0\0\0\0\0\0", 62),
        ROOM => (b"The buffer is too short for the message.\
            \0\0\0\0\0\0\0\0\0\0\0\0\0\0\0\0\0\0\0\0\0\0\0\0\0\0\0\0\0\0\0\0\0\0\0\0\0\0\0\0", 40),
        NOT_DONE => (b"Messages of the handshake are still due.\
            \0\0\0\0\0\0\0\0\0\0\0\0\0\0\0\0\0\0\0\0\0\0\0\0\0\0\0\0\0\0\0\0\0\0\0\0\0\0\0\0", 40),
        WANTED => (b"A result of X25519 is needed: pass it to noise_answer; call again.\
            \0\0\0\0\0\0\0\0\0\0\0\0\0\0", 66),
        ONE_WAY => (b"In a one-way pattern only the initiator sends.\
            \0\0\0\0\0\0\0\0\0\0\0\0\0\0\0\0\0\0\0\0\0\0\0\0\0\0\0\0\0\0\0\0\0\0", 46),
        STRUCT => (b"The struct holds no state that a call could have made.\
            \0\0\0\0\0\0\0\0\0\0\0\0\0\0\0\0\0\0\0\0\0\0\0\0\0\0", 54),
        LENGTH => (b"The prologue, message or associated data has more than 65535 bytes.\
            \0\0\0\0\0\0\0\0\0\0\0\0\0", 67),
        WINDOW => (b"The window is not 64, 256 or 1024.\
            \0\0\0\0\0\0\0\0\0\0\0\0\0\0\0\0\0\0\0\0\0\0\0\0\0\0\0\0\0\0\0\0\0\0\0\0\0\0\0\0\0\0\0\0\0\
            \0", 34),
        RESERVED => (b"The datagram has the nonce 2^64 - 1, which no datagram may have.\
            \0\0\0\0\0\0\0\0\0\0\0\0\0\0\0\0", 64),
        OLD => (b"The datagram is older than the window.\
            \0\0\0\0\0\0\0\0\0\0\0\0\0\0\0\0\0\0\0\0\0\0\0\0\0\0\0\0\0\0\0\0\0\0\0\0\0\0\0\0\0\0", 38),
        REPEATED => (b"A datagram with this nonce was opened before.\
            \0\0\0\0\0\0\0\0\0\0\0\0\0\0\0\0\0\0\0\0\0\0\0\0\0\0\0\0\0\0\0\0\0\0\0", 45),
        NOT_DUE => (b"A payload of this length can not be written now.\
            \0\0\0\0\0\0\0\0\0\0\0\0\0\0\0\0\0\0\0\0\0\0\0\0\0\0\0\0\0\0\0\0", 48),
        HEADING => (b"Line 1 isn't a base name, its modifiers in order, and a colon.\
            \0\0\0\0\0\0\0\0\0\0\0\0\0\0\0\0\0\0", 62),
        ARROW => (b"The line does not begin with two spaces, an arrow and a space.\
            \0\0\0\0\0\0\0\0\0\0\0\0\0\0\0\0\0\0", 62),
        TOKEN => (b"A word of the line is not a token.\
            \0\0\0\0\0\0\0\0\0\0\0\0\0\0\0\0\0\0\0\0\0\0\0\0\0\0\0\0\0\0\0\0\0\0\0\0\0\0\0\0\0\0\0\0\0\
            \0", 34),
        PRE_MESSAGE => (b"A pre-message has tokens other than e and s, or is misplaced.\
            \0\0\0\0\0\0\0\0\0\0\0\0\0\0\0\0\0\0\0", 61),
        TURN => (b"The line is a message of the wrong party.\
            \0\0\0\0\0\0\0\0\0\0\0\0\0\0\0\0\0\0\0\0\0\0\0\0\0\0\0\0\0\0\0\0\0\0\0\0\0\0\0", 41),
        PSK_PLACE => (b"The psk tokens are not where the heading says.\
            \0\0\0\0\0\0\0\0\0\0\0\0\0\0\0\0\0\0\0\0\0\0\0\0\0\0\0\0\0\0\0\0\0\0", 46),
        NAME_TAKEN => (b"The base name is that of another pattern, a fundamental one.\
            \0\0\0\0\0\0\0\0\0\0\0\0\0\0\0\0\0\0\0\0", 60),
        LIMIT => (b"A ninth message, no token but psk, or more than eight others.\
            \0\0\0\0\0\0\0\0\0\0\0\0\0\0\0\0\0\0\0", 61),
        ENDING => (b"The line has no line feed, or there is no message.\
            \0\0\0\0\0\0\0\0\0\0\0\0\0\0\0\0\0\0\0\0\0\0\0\0\0\0\0\0\0\0", 50),
        RULE => (b"The pattern breaks a rule of validity.\
            \0\0\0\0\0\0\0\0\0\0\0\0\0\0\0\0\0\0\0\0\0\0\0\0\0\0\0\0\0\0\0\0\0\0\0\0\0\0\0\0\0\0", 38),
        WANTED_PSK => (b"A psk is needed: pass it to noise_set_psk; call again.\
            \0\0\0\0\0\0\0\0\0\0\0\0\0\0\0\0\0\0\0\0\0\0\0\0\0\0", 54),
        END => (b"The other party has ended the stream, and all of it came.\
            \0\0\0\0\0\0\0\0\0\0\0\0\0\0\0\0\0\0\0\0\0\0\0", 57),
        MORE => (b"The frame is not complete.\
            \0\0\0\0\0\0\0\0\0\0\0\0\0\0\0\0\0\0\0\0\0\0\0\0\0\0\0\0\0\0\0\0\0\0\0\0\0\0\0\0\0\0\0\0\0\
            \0\0\0\0\0\0\0\0\0", 26),
        CLOSED => (b"The stream was ended or refused before.\
            \0\0\0\0\0\0\0\0\0\0\0\0\0\0\0\0\0\0\0\0\0\0\0\0\0\0\0\0\0\0\0\0\0\0\0\0\0\0\0\0\0", 39),
        CUT => (b"The connection ended before the stream did.\
            \0\0\0\0\0\0\0\0\0\0\0\0\0\0\0\0\0\0\0\0\0\0\0\0\0\0\0\0\0\0\0\0\0\0\0\0\0", 43),
        OVERLAP => (b"A buffer that the call writes to overlaps another of its buffers.\
            \0\0\0\0\0\0\0\0\0\0\0\0\0\0\0", 65),
        _ => (b"This number is not a code of the library.\
            \0\0\0\0\0\0\0\0\0\0\0\0\0\0\0\0\0\0\0\0\0\0\0\0\0\0\0\0\0\0\0\0\0\0\0\0\0\0\0", 41),
    }
}
