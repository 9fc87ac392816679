//! The lines of a key schedule.

ghost use Rattle.std.specs.Prelude.{◌≡◌, ◌∷◌, ◌++◌, [], codes, slice_range, IfOk, IsTrue, OnOk};
ghost use Rattle.noise_lines.specs.Lines.{line_of, text_in};
ghost use Rattle.noise_lines.specs.PrintedWords.{is_printed};
ghost use Rattle.noise_vectors.specs.VectorText as text;
ghost use Rattle.noise_run.specs.Printed.{Appended};
ghost use Rattle.noise_run.specs.PrintedTrace as print;

use crate::report::begun_line;
use noise_lines::{Line, role_word, token_word};
use noise_names::{Role, Token};
use noise_trace::{Part, StartPart, StartStep, StateValues, Step};
use std::alloc::{AllocError, Global};

/// What a party makes of a message.
#[derive(Clone, Copy, PartialEq, Eq)]
pub enum Act {
    Writes,
    Accepts,
    Refuses,
}

/// A message of a party.
#[derive(Clone, Copy)]
pub struct About {
    pub role: Role,
    /// Whether the pattern has psk tokens.
    pub psks: bool,
    pub act: Act,
    /// The number of a handshake message, from 1 on.
    pub number: u64,
}

/// Appends a line for each step of the start.
pub fn push_start_lines(
    alloc: Global,
    role: Role,
    psks: bool,
    steps: &[StartStep],
    lines: &mut Vec<Vec<u8>>,
) -> Result<(), AllocError>
    ensures { OnOk result (Appended lines.old lines.new (print.start_lines_from role psks 0 steps.now)) }
{
    for (number, step) in steps.iter().enumerate() {
        let line = start_line(alloc, role, psks, number as u64, step)?;
        lines.push(line.into_bytes())?;
    }
    Ok(())
}

/// Appends a line for each of these steps of a message.
pub fn push_step_lines(
    alloc: Global,
    about: About,
    message: &[u8],
    steps: &[Step],
    lines: &mut Vec<Vec<u8>>,
) -> Result<(), AllocError>
    ensures { OnOk result (Appended lines.old lines.new (print.step_lines_from about message.now 0 steps.now)) }
{
    for (number, step) in steps.iter().enumerate() {
        let line = step_line(alloc, about, message, number as u64, step)?;
        lines.push(line.into_bytes())?;
    }
    Ok(())
}

/// Appends the lines of the two transport keys of a handshake that ends in this state.
pub fn push_opening_lines(
    alloc: Global,
    role: Role,
    state: &StateValues,
    initiator: &[u8; 32],
    responder: &[u8; 32],
    lines: &mut Vec<Vec<u8>>,
) -> Result<(), AllocError>
    ensures { OnOk result
        (Appended lines.old lines.new (print.opening_lines role state.now initiator.now responder.now)) }
{
    let first = opening_line(alloc, role, 0, Role::Initiator, state, initiator)?;
    lines.push(first.into_bytes())?;
    let second = opening_line(alloc, role, 1, Role::Responder, state, responder)?;
    lines.push(second.into_bytes())?;
    Ok(())
}

/// Appends the line of a transport key, and of a nonce of it.
pub fn push_transport_line(
    alloc: Global,
    role: Role,
    name: &str,
    call: &str,
    key: &[u8; 32],
    nonce: u64,
    lines: &mut Vec<Vec<u8>>,
) -> Result<(), AllocError>
    requires name { IsTrue (is_printed name.now) }
    requires call { IsTrue (is_printed call.now) }
    ensures lines { OnOk result
        (Appended lines.old lines.new (print.transport_line role name.now call.now key.now nonce ∷ [])) }
{
    let line = begun_trace(alloc, role, "transport")?;
    let line = add_three(line, "-", name, call)?;
    let line = add_nothing(line)?;
    let line = add_nothing(line)?.hex(key)?.number(nonce)?;
    lines.push(line.into_bytes())?;
    Ok(())
}

/// Appends the lines of the two keys of datagrams.
pub fn push_datagram_key_lines(
    alloc: Global,
    role: Role,
    initiator: &[u8; 32],
    responder: &[u8; 32],
    lines: &mut Vec<Vec<u8>>,
) -> Result<(), AllocError>
    ensures { OnOk result (Appended lines.old lines.new (print.datagram_key_lines role initiator.now responder.now)) }
{
    let first = datagram_key_line(alloc, role, 0, Role::Initiator, initiator)?;
    lines.push(first.into_bytes())?;
    let second = datagram_key_line(alloc, role, 1, Role::Responder, responder)?;
    lines.push(second.into_bytes())?;
    Ok(())
}

// The front of a line of this part of the run.
fn begun_trace(alloc: Global, role: Role, part: &str) -> Result<Line, AllocError>
    requires printed { IsTrue (is_printed part.now) }
    ensures text { IfOk result (λ line. text_in line ≡ line_of (codes "trace" ∷ text.role_word role ∷ part.now ∷ [])) }
{
    begun_line(alloc, "trace", role)?.word(part)
}

// With three words more.
fn add_three(line: Line, first: &str, second: &str, third: &str) -> Result<Line, AllocError>
    requires first { IsTrue (is_printed first.now) }
    requires second { IsTrue (is_printed second.now) }
    requires third { IsTrue (is_printed third.now) }
    ensures text { IfOk result (λ made. text_in made
        ≡ text_in line ++ 32 ∷ line_of (first.now ∷ second.now ∷ third.now ∷ [])) }
{
    line.word(first)?.word(second)?.word(third)
}

// With two hyphens more.
fn add_nothing(line: Line) -> Result<Line, AllocError>
    ensures { IfOk result
        (λ made. text_in made ≡ text_in line ++ 32 ∷ line_of (print.none_word ∷ print.none_word ∷ [])) }
{
    line.word("-")?.word("-")
}

// With the key more, or a hyphen.
fn add_key(line: Line, key: Option<[u8; 32]>) -> Result<Line, AllocError>
    ensures { IfOk result (λ made. text_in made ≡ text_in line ++ 32 ∷ print.state_key_word key) }
{
    match key {
        Some(key) => line.hex(&key),
        None => line.word("-"),
    }
}

// With the words of a state more.
fn add_state(line: Line, state: &StateValues) -> Result<Line, AllocError>
    ensures { IfOk result (λ made. text_in made ≡ text_in line ++ 32 ∷ line_of (print.state_words state.now)) }
{
    let line = line.hex(&state.hash)?.hex(&state.chaining_key)?;
    add_key(line, state.key)?.number(state.nonce)
}

fn start_line(
    alloc: Global,
    role: Role,
    psks: bool,
    number: u64,
    step: &StartStep,
) -> Result<Line, AllocError>
    ensures { IfOk result (λ line. text_in line ≡ print.start_line role psks number step.now) }
{
    let line = begun_trace(alloc, role, "start")?
        .number(number)?
        .word(start_word(step.part))?
        .word(start_call_word(psks, step.part))?;
    add_state(add_nothing(line)?, &step.state)
}

fn step_line(
    alloc: Global,
    about: About,
    message: &[u8],
    number: u64,
    step: &Step,
) -> Result<Line, AllocError>
    ensures { IfOk result (λ line. text_in line ≡ print.step_line about message.now number step.now) }
{
    let line = begun_line(alloc, "trace", about.role)?
        .number(about.number)?
        .number(number)?
        .word(part_word(step.part))?
        .word(call_word(about.psks, about.act, step.part))?
        .number(step.from as u64)?
        .hex(part_bytes(message, step.from, step.to))?;
    add_state(line, &step.state)
}

fn opening_line(
    alloc: Global,
    role: Role,
    number: u64,
    writer: Role,
    state: &StateValues,
    key: &[u8; 32],
) -> Result<Line, AllocError>
    ensures { IfOk result (λ line. text_in line ≡ print.opening_line role number writer state.now key.now) }
{
    let line = begun_trace(alloc, role, "open")?
        .number(number)?
        .word(role_word(writer))?
        .word("Split")?;
    add_nothing(line)?
        .hex(&state.hash)?
        .hex(&state.chaining_key)?
        .hex(key)?
        .word("0")
}

fn datagram_key_line(
    alloc: Global,
    role: Role,
    number: u64,
    writer: Role,
    key: &[u8; 32],
) -> Result<Line, AllocError>
    ensures { IfOk result (λ line. text_in line ≡ print.datagram_key_line role number writer key.now) }
{
    let line = begun_trace(alloc, role, "datagrams")?
        .number(number)?
        .word(role_word(writer))?;
    let line = add_three(line, "-", "-", "-")?;
    add_nothing(line)?.hex(key)?.word("-")
}

// The bytes of a message from one place up to another, as far as it has them.
fn part_bytes(message: &[u8], from: usize, to: usize) -> &[u8]
    ensures { result.now ≡ slice_range message.now from to }
{
    let (_, rest) = message.split_at(from.min(message.len()));
    let count = to.saturating_sub(from).min(rest.len());
    let (part, _) = rest.split_at(count);
    part
}

fn pre_message_word(party: Role, token: Token) -> &'static str
    ensures text { result.now ≡ print.pre_message_word party token }
    ensures printed { IsTrue (is_printed result.now) }
{
    match (party, token) {
        (Role::Initiator, Token::E) => "initiator-e",
        (Role::Initiator, _) => "initiator-s",
        (Role::Responder, Token::E) => "responder-e",
        (Role::Responder, _) => "responder-s",
    }
}

fn start_word(part: StartPart) -> &'static str
    ensures text { result.now ≡ print.start_word part }
    ensures printed { IsTrue (is_printed result.now) }
{
    match part {
        StartPart::Name => "name",
        StartPart::Prologue => "prologue",
        StartPart::Key(party, token) => pre_message_word(party, token),
    }
}

fn mix_word(psks: bool, token: Token) -> &'static str
    ensures text { result.now ≡ print.mix_word psks token }
    ensures printed { IsTrue (is_printed result.now) }
{
    match (psks, token) {
        (true, Token::E) => "MixHash,MixKey",
        _ => "MixHash",
    }
}

fn start_call_word(psks: bool, part: StartPart) -> &'static str
    ensures text { result.now ≡ print.start_call_word psks part }
    ensures printed { IsTrue (is_printed result.now) }
{
    match part {
        StartPart::Name => "InitializeSymmetric",
        StartPart::Prologue => "MixHash",
        StartPart::Key(_, token) => mix_word(psks, token),
    }
}

fn part_word(part: Part) -> &'static str
    ensures text { result.now ≡ print.part_word part }
    ensures printed { IsTrue (is_printed result.now) }
{
    match part {
        Part::Token(token) => token_word(token),
        Part::Payload => "payload",
    }
}

fn cipher_word(act: Act) -> &'static str
    ensures text { result.now ≡ print.cipher_word act }
    ensures printed { IsTrue (is_printed result.now) }
{
    match act {
        Act::Writes => "EncryptAndHash",
        Act::Accepts | Act::Refuses => "DecryptAndHash",
    }
}

fn token_call_word(psks: bool, act: Act, token: Token) -> &'static str
    ensures text { result.now ≡ print.token_call_word psks act token }
    ensures printed { IsTrue (is_printed result.now) }
{
    match token {
        Token::E => mix_word(psks, token),
        Token::S => cipher_word(act),
        Token::Psk => "MixKeyAndHash",
        Token::Ee | Token::Es | Token::Se | Token::Ss => "MixKey",
    }
}

fn call_word(psks: bool, act: Act, part: Part) -> &'static str
    ensures text { result.now ≡ print.call_word psks act part }
    ensures printed { IsTrue (is_printed result.now) }
{
    match part {
        Part::Token(token) => token_call_word(psks, act, token),
        Part::Payload => cipher_word(act),
    }
}

/// What has come of a transport message.
pub fn act_word(act: Act) -> &'static str
    ensures text { result.now ≡ print.act_word act }
    ensures printed { IsTrue (is_printed result.now) }
{
    match act {
        Act::Writes => "sent",
        Act::Accepts => "opened",
        Act::Refuses => "dropped",
    }
}

/// What a transport message goes through.
pub fn transport_call_word(act: Act) -> &'static str
    ensures text { result.now ≡ print.transport_call_word act }
    ensures printed { IsTrue (is_printed result.now) }
{
    match act {
        Act::Writes => "EncryptWithAd",
        Act::Accepts | Act::Refuses => "DecryptWithAd",
    }
}
