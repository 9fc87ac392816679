//! Corrections that a pattern with a broken rule may have. Each is tried before one is told.

use crate::change::Change;
use crate::judged::Correction;
use crate::known::{Spot, key_spot, keys_of, sender_of};
use crate::rule_place::{pre_line_count, tokens_at};
use crate::rule_sentences::{broken_at, missing_key, unfresh};
use noise_lines::token_word;
use noise_names::{Pattern, Role, RuleFault, Token};
use std::alloc::{AllocError, Global};

// The corrections to try of the pattern with this fault, those first that are told first.
pub(crate) fn rule_candidates(
    alloc: Global,
    pattern: &Pattern,
    fault: RuleFault,
) -> Result<Vec<Correction>, AllocError> {
    let broken = broken_at(pattern, fault);
    let mut tried = Tried {
        alloc,
        pattern,
        found: Vec::new(alloc),
    };
    match broken.token {
        Some(dh) if broken.rule == 1 => {
            let (owner, key) = missing_key(pattern, fault, dh);
            tried.push_for_key(broken.spot, owner, key)?;
        }
        Some(key) if broken.rule == 2 => {
            tried.push_out(broken.spot)?;
            tried.push_unnamed(broken.sender, key)?;
        }
        Some(_) if broken.rule == 3 => tried.push_out(broken.spot)?,
        _ if broken.rule == 4 => {
            let (_, missing) = unfresh(pattern, fault);
            let (first, second) = keys_of(missing);
            let last = broken.spot.message;
            tried.push_puts(last, &[missing])?;
            tried.push_puts(last, &[first, missing])?;
            tried.push_puts(last, &[second, missing])?;
        }
        _ => tried.push_puts(broken.spot.message, &[Token::E])?,
    }
    Ok(tried.found)
}

// The corrections of a pattern so far.
#[derive(Drop)]
struct Tried<'a> {
    alloc: Global,
    pattern: &'a Pattern,
    found: Vec<Correction>,
}

impl<'a> Tried<'a> {
    // Rule 1. A key that comes in a later message stays in one: the DH goes after it, or the key before the DH. Else
    // the key is sent before, or named. At last the DH is left out.
    fn push_for_key(&mut self, place: Spot, owner: Role, key: Token) -> Result<(), AllocError> {
        match key_spot(self.pattern, owner, key) {
            Some(after) => {
                self.push_moves(place, place.message.saturating_sub(1), 8)?;
                let token = after.token.saturating_sub(1);
                self.push_moves(Spot { token, ..after }, 0, place.message)?;
            }
            None => {
                self.push_puts(place.message, &[key])?;
                if key == Token::S {
                    self.found.reverse();
                }
                self.push_named(owner, key)?;
            }
        }
        self.push_out(place)
    }

    // These tokens at each place of the first messages.
    fn push_puts(&mut self, last: usize, tokens: &[Token]) -> Result<(), AllocError> {
        let messages = self.pattern.messages();
        for message in 0..last.min(messages.len()) {
            self.push_places(message, tokens_at(messages, message), message, tokens)?;
        }
        Ok(())
    }

    // The token at a place moved to each place of these messages, which count from 0.
    fn push_moves(&mut self, from: Spot, first: usize, end: usize) -> Result<(), AllocError> {
        let at = from.message.saturating_sub(1);
        let old = tokens_at(self.pattern.messages(), at);
        let Some(token) = old.get(from.token).copied() else {
            return Ok(());
        };
        let left = replaced(self.alloc, old, from.token, 1, &[])?;
        for message in first..end.min(self.pattern.messages().len()) {
            self.push_places(at, &left, message, &[token])?;
        }
        Ok(())
    }

    // Tokens put at each place of a message, where these are left of the first one, which may be the same.
    fn push_places(
        &mut self,
        from: usize,
        left: &[Token],
        message: usize,
        tokens: &[Token],
    ) -> Result<(), AllocError> {
        let old = if message == from {
            left
        } else {
            tokens_at(self.pattern.messages(), message)
        };
        for place in 0..old.len().saturating_add(1) {
            let mut changes = Vec::new(self.alloc);
            if message != from {
                changes.push(self.written(from, left)?)?;
            }
            let put = replaced(self.alloc, old, place, 0, tokens)?;
            changes.push(self.written(message, &put)?)?;
            self.found.push(Correction { changes })?;
        }
        Ok(())
    }

    // A token left out; or its message, where that has no other one and is the last.
    fn push_out(&mut self, place: Spot) -> Result<(), AllocError> {
        let message = place.message.saturating_sub(1);
        let old = tokens_at(self.pattern.messages(), message);
        let change = if old.len() > 1 {
            let left = replaced(self.alloc, old, place.token, 1, &[])?;
            self.written(message, &left)?
        } else {
            Change::Out(self.line_of(message))
        };
        let mut changes = Vec::new(self.alloc);
        changes.push(change)?;
        self.found.push(Correction { changes })?;
        Ok(())
    }

    // A key of a party named above the messages.
    fn push_named(&mut self, owner: Role, key: Token) -> Result<(), AllocError> {
        let number = self.known_line(owner);
        let mut changes = Vec::new(self.alloc);
        if self.pattern.pre(owner).is_empty() {
            changes.push(Change::Put(number, body(self.alloc, owner, &[key])?))?;
            if self.pattern.pre(owner.other()).is_empty() {
                let dots = Vec::from_slice(self.alloc, b"  ...")?;
                changes.push(Change::Put(3, dots))?;
            }
        } else {
            let line = body(self.alloc, owner, &[Token::E, Token::S])?;
            changes.push(Change::Write(number, line))?;
        }
        self.found.push(Correction { changes })?;
        Ok(())
    }

    // A key of a party that is named above the messages, no longer named.
    fn push_unnamed(&mut self, owner: Role, key: Token) -> Result<(), AllocError> {
        let number = self.known_line(owner);
        let mut changes = Vec::new(self.alloc);
        match self.pattern.pre(owner) {
            [] => return Ok(()),
            [_] => {
                changes.push(Change::Out(number))?;
                if self.pattern.pre(owner.other()).is_empty() {
                    changes.push(Change::Out(number))?;
                }
            }
            _ => {
                let other = if key == Token::E { Token::S } else { Token::E };
                changes.push(Change::Write(number, body(self.alloc, owner, &[other])?))?;
            }
        }
        self.found.push(Correction { changes })?;
        Ok(())
    }

    // The line of a party's keys that are known before.
    fn known_line(&self, owner: Role) -> usize {
        if owner == Role::Initiator || self.pattern.pre(Role::Initiator).is_empty() {
            2
        } else {
            3
        }
    }

    // The line of a message, which counts from 0.
    fn line_of(&self, message: usize) -> usize {
        message
            .saturating_add(pre_line_count(self.pattern))
            .saturating_add(2)
    }

    // The line of a message with these tokens.
    fn written(&self, message: usize, tokens: &[Token]) -> Result<Change, AllocError> {
        let line = body(self.alloc, sender_of(message.saturating_add(1)), tokens)?;
        Ok(Change::Write(self.line_of(message), line))
    }
}

// A line of tokens, without its line feed.
fn body(alloc: Global, sender: Role, tokens: &[Token]) -> Result<Vec<u8>, AllocError> {
    let mut line = Vec::new(alloc);
    line.extend_from_slice(match sender {
        Role::Initiator => b"  -> ",
        Role::Responder => b"  <- ",
    })?;
    let mut between: &[u8] = b"";
    for token in tokens {
        line.extend_from_slice(between)?;
        line.extend_from_slice(token_word(*token).as_bytes())?;
        between = b", ";
    }
    Ok(line)
}

// Tokens with others in place of so many at a place.
fn replaced(
    alloc: Global,
    old: &[Token],
    place: usize,
    count: usize,
    put: &[Token],
) -> Result<Vec<Token>, AllocError> {
    let (front, back) = old.split_at(place.min(old.len()));
    let (_, after) = back.split_at(count.min(back.len()));
    let mut all = Vec::from_slice(alloc, front)?;
    all.extend_from_slice(put)?;
    all.extend_from_slice(after)?;
    Ok(all)
}
