//! All broken rules of a pattern that reading it can see.

ghost use Rattle.std.specs.Prelude.{◌≤◌};

use crate::known::{keys_of, sender_of};
use crate::rule_place::tokens_at;
use noise_names::{Pattern, Role, RuleFault, Token};
use std::alloc::{AllocError, Global};

// What is encrypted at a place, or which token is there, breaks a rule; `about` is the DH that lacks, or the token.
#[derive(Clone, Copy)]
struct Found {
    fault: RuleFault,
    party: Role,
    about: Token,
}

// The keys that are known and what is mixed in, each with the party at which it was read; and the broken rules.
#[derive(Drop)]
struct Reading {
    read: Vec<(Role, Token)>,
    found: Vec<Found>,
}

impl Reading {
    fn knows(&self, party: Role, key: Token) -> bool {
        self.read.contains(&(party, key))
    }

    fn has(&self, token: Token) -> bool {
        self.knows(Role::Initiator, token) || self.knows(Role::Responder, token)
    }

    // A rule that is broken, at a message and so many of its tokens. What a party lacks where it encrypts is told once,
    // and so is a rule at a place.
    fn tell(
        &mut self,
        rule: u8,
        party: Role,
        about: Token,
        (message, token): (u8, u8),
    ) -> Result<(), AllocError> {
        let fault = RuleFault {
            rule,
            message,
            token,
        };
        let is_told = self.found.iter().any(|old| {
            old.fault == fault
                || (rule >= 4 && old.fault.rule == rule && old.party == party && old.about == about)
        });
        if !is_told {
            self.found.push(Found {
                fault,
                party,
                about,
            })?;
        }
        Ok(())
    }

    // A party encrypts at this place. By rule 4 of each two DHs the second one comes with the first.
    fn encrypts(&mut self, party: Role, at: (u8, u8)) -> Result<(), AllocError> {
        let pairs = match party {
            Role::Initiator => [(Token::Se, Token::Ee), (Token::Ss, Token::Es)],
            Role::Responder => [(Token::Es, Token::Ee), (Token::Ss, Token::Se)],
        };
        for (mixed, wanted) in pairs {
            if self.has(mixed) && !self.has(wanted) {
                self.tell(4, party, wanted, at)?;
            }
        }
        if self.has(Token::Psk) && !self.knows(party, Token::E) {
            self.tell(5, party, Token::Psk, at)?;
        }
        Ok(())
    }

    // A token of a party at this place.
    fn token(&mut self, party: Role, word: Token, at: (u8, u8)) -> Result<(), AllocError> {
        match word {
            Token::Psk => {}
            Token::E | Token::S => {
                if self.knows(party, word) {
                    self.tell(2, party, word, at)?;
                }
                if word == Token::S {
                    self.encrypts(party, at)?;
                }
            }
            _ => {
                let (first, second) = keys_of(word);
                if !self.knows(Role::Initiator, first) || !self.knows(Role::Responder, second) {
                    self.tell(1, party, word, at)?;
                }
                if self.has(word) {
                    self.tell(3, party, word, at)?;
                }
            }
        }
        self.read.push((party, word))?;
        Ok(())
    }

    // The keys that are known before.
    fn known(&mut self, party: Role, keys: &[Token]) -> Result<(), AllocError> {
        for key in keys {
            self.read.push((party, *key))?;
        }
        Ok(())
    }
}

// The broken rules of a pattern besides this one, in order. A token that breaks one counts as any other.
pub(crate) fn other_rules(
    alloc: Global,
    pattern: &Pattern,
    first: RuleFault,
) -> Result<Vec<RuleFault>, AllocError> {
    let mut reading = Reading {
        read: Vec::new(alloc),
        found: Vec::new(alloc),
    };
    reading.known(Role::Initiator, pattern.pre(Role::Initiator))?;
    reading.known(Role::Responder, pattern.pre(Role::Responder))?;
    let count = pattern.messages().len();
    for index in 0..count {
        read_message(&mut reading, pattern, index as u8)?;
    }
    let transport = count as u8 + 1;
    reading.encrypts(Role::Initiator, (transport, 0))?;
    if count > 1 {
        reading.encrypts(Role::Responder, (transport, 1))?;
    }
    faults_but(alloc, &reading.found, first)
}

// Reads the message after so many.
fn read_message(reading: &mut Reading, pattern: &Pattern, index: u8) -> Result<(), AllocError>
    requires { index ≤ 8 }
{
    let message = index + 1;
    let sender = sender_of(usize::from(message));
    let tokens = tokens_at(pattern.messages(), usize::from(index));
    for place in 0..tokens.len() {
        reading.token(sender, tokens[place], (message, place as u8))?;
    }
    reading.encrypts(sender, (message, tokens.len() as u8))
}

fn faults_but(
    alloc: Global,
    found: &[Found],
    first: RuleFault,
) -> Result<Vec<RuleFault>, AllocError> {
    let mut faults = Vec::new(alloc);
    for it in found {
        if it.fault != first {
            faults.push(it.fault)?;
        }
    }
    Ok(faults)
}
