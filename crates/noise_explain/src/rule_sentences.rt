//! The sentences on broken rules.

ghost use Rattle.std.specs.Prelude.{◌≡◌, ◌-◌, IfOk, string_bytes};
ghost use Rattle.noise_explain.specs.MixedKeys.{mixed_before};
ghost use Rattle.noise_explain.specs.RuleWords.{fresh_words, key_again, key_missing, missing_key, place_words, rule_sender, rule_token, token_place, token_words, transport_place, unfresh};

use crate::known::{Spot, keys_of, sender_of, token_at};
use crate::mixed::mixed_by;
use crate::parties::{is_known, is_named};
use noise_lines::{role_word, token_word};
use noise_names::{Pattern, Role, RuleFault, Token};
use std::alloc::{AllocError, Global};

// What breaks a rule, who does it, and where.
#[derive(Clone, Copy)]
pub(crate) struct Broken {
    pub rule: u8,
    pub sender: Role,
    pub token: Option<Token>,
    pub spot: Spot,
}

// Which party breaks a rule.
pub(crate) fn sender_at(pattern: &Pattern, fault: RuleFault) -> Role
    ensures { result ≡ rule_sender pattern.now fault }
{
    if usize::from(fault.message) <= pattern.messages().len() {
        sender_of(usize::from(fault.message))
    } else if fault.token == 0 {
        Role::Initiator
    } else {
        Role::Responder
    }
}

// The token that breaks a rule, if one stands at the place.
pub(crate) fn token_of(pattern: &Pattern, fault: RuleFault) -> Option<Token>
    ensures { result ≡ rule_token pattern.now fault }
{
    token_at(pattern.messages(), spot_of(fault))
}

fn spot_of(fault: RuleFault) -> Spot
    ensures message { result.message ≡ fault.message }
    ensures token { result.token ≡ fault.token }
{
    Spot {
        message: usize::from(fault.message),
        token: usize::from(fault.token),
    }
}

pub(crate) fn broken_at(pattern: &Pattern, fault: RuleFault) -> Broken {
    Broken {
        rule: fault.rule,
        sender: sender_at(pattern, fault),
        token: token_of(pattern, fault),
        spot: spot_of(fault),
    }
}

// Which rule is broken where.
pub(crate) fn place_words(
    alloc: Global,
    pattern: &Pattern,
    fault: RuleFault,
) -> Result<String, AllocError>
    ensures { IfOk result (λ text. string_bytes text ≡ place_words pattern.now fault (rule_token pattern.now fault)) }
{
    let rule = fault.rule;
    let message = fault.message;
    match token_of(pattern, fault) {
        Some(token) => token_place(alloc, fault, token),
        None if usize::from(fault.message) <= pattern.messages().len() => {
            Ok(format!(in alloc; "Rule {rule} is broken at the payload of message {message}.")?)
        }
        None => transport_place(alloc, fault, sender_at(pattern, fault)),
    }
}

fn token_place(alloc: Global, fault: RuleFault, token: Token) -> Result<String, AllocError>
    ensures { IfOk result (λ text. string_bytes text ≡ token_place fault token) }
{
    let rule = fault.rule;
    let message = fault.message;
    let word = token_word(token);
    format!(in alloc; "Rule {rule} is broken at message {message}, token {word}.")
}

fn transport_place(alloc: Global, fault: RuleFault, role: Role) -> Result<String, AllocError>
    ensures { IfOk result (λ text. string_bytes text ≡ transport_place fault role) }
{
    let rule = fault.rule;
    let sender = role_word(role);
    format!(in alloc; "Rule {rule} is broken at the first transport message of the {sender}.")
}

// What is wrong there.
pub(crate) fn fault_words(
    alloc: Global,
    pattern: &Pattern,
    fault: RuleFault,
) -> Result<String, AllocError>
    ensures { IfOk result (λ text. string_bytes text ≡ token_words pattern.now fault (rule_token pattern.now fault)) }
{
    match token_of(pattern, fault) {
        Some(token) if fault.rule == 1 => {
            key_missing(alloc, token, missing_key(pattern, fault, token))
        }
        Some(token) if fault.rule == 2 => {
            key_again(alloc, pattern, sender_at(pattern, fault), token)
        }
        Some(token) if fault.rule == 3 => {
            let token = token_word(token);
            Ok(format!(in alloc; "{token} is mixed in already, and adds nothing the second time.")?)
        }
        _ => fresh_words(alloc, pattern, fault),
    }
}

// The same of rule 4, a DH of the sender's ephemeral key is missing, and of rule 5, a psk comes without such a key.
fn fresh_words(alloc: Global, pattern: &Pattern, fault: RuleFault) -> Result<String, AllocError>
    ensures { IfOk result (λ text. string_bytes text ≡ fresh_words pattern.now fault) }
{
    let sender = role_word(sender_at(pattern, fault));
    if fault.rule == 4 {
        let (mixed, wanted) = unfresh(pattern, fault);
        let after = token_word(mixed);
        let missing = token_word(wanted);
        format!(in alloc;
            "The {sender} encrypts here, {after} is mixed in, and {missing} isn't: what it encrypts could depend on no \
             fresh key of its own."
        )
    } else {
        format!(in alloc;
            "The {sender} encrypts here after psk, and has sent no e: the same key and nonce could come again."
        )
    }
}

// Rule 1: a public key of a DH is missing.
fn key_missing(alloc: Global, dh: Token, missing: (Role, Token)) -> Result<String, AllocError>
    ensures { IfOk result (λ text. string_bytes text ≡ key_missing dh missing) }
{
    let (role, missing) = missing;
    let token = token_word(dh);
    let key = token_word(missing);
    let owner = role_word(role);
    format!(in alloc;
        "{token} needs the {owner}'s {key}, which is neither sent before this place nor named above \"...\"."
    )
}

// Whose key a DH lacks, and which one.
pub(crate) fn missing_key(pattern: &Pattern, fault: RuleFault, dh: Token) -> (Role, Token)
    ensures { result ≡ missing_key pattern.now fault dh }
{
    let (first, second) = keys_of(dh);
    let passed = usize::from(fault.message).saturating_sub(1);
    if is_known(
        pattern,
        Role::Initiator,
        first,
        passed,
        usize::from(fault.token),
    ) {
        (Role::Responder, second)
    } else {
        (Role::Initiator, first)
    }
}

// Rule 2: a key comes a second time.
fn key_again(alloc: Global, pattern: &Pattern, role: Role, key: Token) -> Result<String, AllocError>
    ensures { IfOk result (λ text. string_bytes text ≡ key_again pattern.now role key) }
{
    let sender = role_word(role);
    let token = token_word(key);
    if is_named(pattern, role, key) {
        format!(in alloc; "The {sender}'s {token} is named above \"...\" already.")
    } else {
        format!(in alloc; "The {sender} has sent {token} already.")
    }
}

// A DH of the sender's static key that is mixed, and the one of its ephemeral key that isn't.
pub(crate) fn unfresh(pattern: &Pattern, fault: RuleFault) -> (Token, Token)
    ensures { result ≡ unfresh (rule_sender pattern.now fault)
        (mixed_before pattern.now (fault.message - 1) fault.token) }
{
    let passed = usize::from(fault.message).saturating_sub(1);
    let mixed = mixed_by(pattern, passed, usize::from(fault.token));
    match sender_at(pattern, fault) {
        Role::Initiator => {
            if mixed.se && !mixed.ee {
                (Token::Se, Token::Ee)
            } else {
                (Token::Ss, Token::Es)
            }
        }
        Role::Responder => {
            if mixed.es && !mixed.ee {
                (Token::Es, Token::Ee)
            } else {
                (Token::Ss, Token::Se)
            }
        }
    }
}
