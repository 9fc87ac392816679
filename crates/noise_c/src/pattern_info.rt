//! An export: what a pattern has.

ghost use Rattle.std.specs.Prelude.{◌≡◌, ◌↔◌, IfErr, IfOk, OnOk, slice_index_or, []};
ghost use Rattle.noise_names.specs.Plan.{Plan};
ghost use Rattle.noise_c.specs.Checked.{IsTextCode};
ghost use Rattle.noise_c.specs.HandshakeStructs.{IsNoName, IsNoText, IsNotValid, IsPatternOf};
ghost use Rattle.noise_c.specs.PatternInfo.{PatternOutcome, ReportsNoPattern, IsOfValid, info_of, keys_needed, number_at, numbers_of, rows_of, token_number};
ghost use Rattle.noise_c.specs.declared.codes.numbers.TheConstants.{NAME, OK, RULE};

use crate::codes::numbers::{NAME, OK};
use crate::codes::{ok_or, some_or};
use crate::patterns::{checked, pattern_of_name, pattern_of_text};
use crate::structs::{NoiseKeysNeeded, NoisePatternInfo, NoisePatternResult};
use noise_handshake::psk_total;
use noise_keys::{has_token, sends};
use noise_names::{Message, Pattern, Role, Token, ValidPattern};

// The number of a token.
pub(crate) fn token_to_c(token: Token) -> u8
    ensures { result ≡ token_number token }
{
    match token {
        Token::E => 1,
        Token::S => 2,
        Token::Ee => 3,
        Token::Es => 4,
        Token::Se => 5,
        Token::Ss => 6,
        Token::Psk => 7,
    }
}

// The number of the token at a place, 0 after the last.
fn number_at(tokens: &[Token], place: usize) -> u8
    ensures { result ≡ number_at tokens.now place }
{
    match tokens.get(place) {
        Some(token) => token_to_c(*token),
        None => 0,
    }
}

// The numbers of the tokens of a pre-message.
fn pre_numbers(tokens: &[Token]) -> [u8; 2]
    ensures { result ≡ numbers_of 2 tokens.now }
{
    [number_at(tokens, 0), number_at(tokens, 1)]
}

// The numbers of the tokens of a message.
fn numbers(tokens: &[Token]) -> [u8; 10]
    ensures { result ≡ numbers_of 10 tokens.now }
{
    [
        number_at(tokens, 0),
        number_at(tokens, 1),
        number_at(tokens, 2),
        number_at(tokens, 3),
        number_at(tokens, 4),
        number_at(tokens, 5),
        number_at(tokens, 6),
        number_at(tokens, 7),
        number_at(tokens, 8),
        number_at(tokens, 9),
    ]
}

// Those of the message at a place, zeros after the last.
fn row(messages: &[Message], place: usize) -> [u8; 10]
    ensures { result ≡ numbers_of 10 (slice_index_or messages.now place []) }
{
    match messages.get(place) {
        Some(message) => numbers(message.tokens()),
        None => [0; 10],
    }
}

// Those of each message.
#[tactic(auto, unfolding(crate::specs::PatternInfo::rows_of))]
fn rows(messages: &[Message]) -> [[u8; 10]; 8]
    ensures { result ≡ rows_of messages.now }
{
    [
        row(messages, 0),
        row(messages, 1),
        row(messages, 2),
        row(messages, 3),
        row(messages, 4),
        row(messages, 5),
        row(messages, 6),
        row(messages, 7),
    ]
}

// The keys that a party brings.
#[tactic(auto, unfolding(crate::specs::PatternInfo::keys_needed))]
fn keys_needed(pattern: &Pattern, role: Role) -> NoiseKeysNeeded
    ensures { result ≡ keys_needed pattern.now role }
{
    let pre = pattern.pre(role.other());
    NoiseKeysNeeded {
        e: u8::from(sends(pattern, role, Token::E)),
        s: u8::from(sends(pattern, role, Token::S)),
        remote_e: u8::from(has_token(pre, Token::E)),
        remote_s: u8::from(has_token(pre, Token::S)),
    }
}

// What a pattern has.
fn info_of(valid: &ValidPattern) -> NoisePatternInfo
    ensures { result ≡ info_of valid.now }
{
    let pattern = valid.pattern();
    let messages = pattern.messages();
    NoisePatternInfo {
        messages: messages.len() as u8,
        one_way: u8::from(valid.one_way()),
        psks: psk_total(messages) as u8,
        needed: [
            keys_needed(pattern, Role::Initiator),
            keys_needed(pattern, Role::Responder),
        ],
        pre_messages: [
            pre_numbers(pattern.pre(Role::Initiator)),
            pre_numbers(pattern.pre(Role::Responder)),
        ],
        tokens: rows(messages),
    }
}

// The pattern of a pattern text, whose last byte is a line feed, or of a protocol name. Else the number of the fault:
// NAME, or that of the text, whose line is reported.
fn read_pattern(bytes: &[u8], results: &mut NoisePatternResult) -> Result<Pattern, u32>
    ensures named { IfOk result (λ p. IsPatternOf bytes.now p) }
    ensures one { IfOk result (λ p. (q : Plan) → IsPatternOf bytes.now q → q ≡ p) }
    ensures unchanged { OnOk result (results.new ≡ results.old) }
    ensures fault { IfErr result (λ code. ReportsNoPattern bytes.now results.old results.new code) }
{
    if bytes.ends_with(b"\n") {
        pattern_of_text(bytes, results)
    } else {
        Ok(some_or!(pattern_of_name(bytes), Err(NAME)))
    }
}

/// Says what a valid pattern has, of its protocol name or of its text, whose last byte is a line feed. RULE reports the
/// first place that breaks a rule of validity, and the codes from HEADING to ENDING the first line with a fault, as
/// `noise_check_pattern` does.
#[unsafe(no_mangle)]
pub extern "C" fn noise_pattern(
    pattern: &[u8],
    info: &mut NoisePatternInfo,
    results: &mut NoisePatternResult,
) -> u32
    ensures outcome { PatternOutcome pattern.now info.old results.old info.new results.new result }
    ensures valid { result ≡ OK ↔ IsOfValid pattern.now }
    ensures broken { result ≡ RULE ↔ IsNotValid pattern.now }
    ensures text { IsTextCode result ↔ IsNoText pattern.now }
    ensures name { result ≡ NAME ↔ IsNoName pattern.now }
{
    let read = ok_or!(read_pattern(pattern, results));
    let valid = ok_or!(checked(read, results));
    *info = info_of(&valid);
    results.messages = valid.pattern().messages().len() as u8;
    OK
}
