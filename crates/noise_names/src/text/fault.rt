ghost use Rattle.std.specs.Prelude.{◌≡◌, ◌≢◌, ◌⊎◌, ◌↔◌, ◌≤◌, ◌+◌, ◌++◌, ◌∷◌, ◌==◌, ℕ, List, [], Bool, IsTrue, IsFalse, IfNone, IfSome, false, length, take, bytes_eq, nat_le, if◌then◌else◌};
ghost use Rattle.std.specs.List.{list_all};
ghost use Rattle.arrayvec.specs.ArrayVec.{array_vec_len};
ghost use Rattle.noise_names.specs.declared.token.Token.{Token};
ghost use Rattle.noise_names.specs.declared.token.Role.TheVariants.{Initiator};
ghost use Rattle.noise_names.specs.declared.faults.TextFaultKind.TheVariants as kinds;
ghost use Rattle.noise_names.specs.Limits.{has_few_tokens, with_psk_tokens};
ghost use Rattle.noise_names.specs.Names.{Section, IsSection, are_places};
ghost use Rattle.noise_names.specs.Text.{line, words};
ghost use Rattle.noise_names.specs.Tokens.{is_psk, own_tokens, turn_from};
ghost use Rattle.noise_names.specs.WrongText.{IsTextFault, arrow_then, dots, first_line, has_dots, heading_of};
ghost use Rattle.noise_names.specs.Judging.{HasTokens, IsLineBefore, IsNextJudged, AreRightLines, RightLines, Matches};

use super::read::{is_pre_message, read_arrow, read_heading};
use crate::psks::message_with_psks;
use crate::{Role, TextFault, TextFaultKind, Token};
use arrayvec::ArrayVec;

// The first fault of a text that spells no pattern: its lines are checked in order, and after them the whole. Where
// each line is right, and the modifiers too, only the base is left to be wrong: it is that of another fundamental
// pattern.
pub(crate) fn first_fault(text: &[u8]) -> TextFault
    ensures { IsTextFault text.now result }
{
    let Some((name, after)) = read_heading(text) else {
        return fault(1, TextFaultKind::Heading);
    };
    match after.strip_prefix(b"\n") {
        Some(lines) => fault_of_lines(name.places().numbers(), lines),
        None => {
            if after.is_empty() {
                fault(1, TextFaultKind::Ending)
            } else {
                fault(1, TextFaultKind::Heading)
            }
        }
    }
}

fn fault(line: usize, kind: TextFaultKind) -> TextFault
    ensures { result ≡ record { line = line; kind = kind } }
{
    TextFault { line, kind }
}

// The first fault of the lines after a heading with these psk places.
fn fault_of_lines(places: &[u8], lines: &[u8]) -> TextFault
    requires rising { IsTrue (are_places places.now) }
    ensures fault { (s : Section) → IsSection s → s.places ≡ places.now
        → IsTextFault (line (heading_of s) ++ lines.now) result }
{
    let mut judged = Judged::new(lines);
    let mut rest = lines;
    let mut number: usize = 2;
    while !rest.is_empty() {
        let line = first_line(rest);
        judged = match judged.judge(places, line.bytes) {
            Ok(judged) => judged,
            Err(kind) => return fault(number, kind),
        };
        if !line.ended {
            return fault(number, TextFaultKind::Ending);
        }
        rest = line.after;
        number += 1;
    }
    judged.fault_of_whole(places, number)
}

// A line without its line feed, whether it has one, and what follows it.
#[derive(Clone, Copy)]
struct Line<'a> {
    bytes: &'a [u8],
    ended: bool,
    after: &'a [u8],
}

fn first_line(text: &[u8]) -> Line<'_>
    ensures bytes { result.bytes.now ≡ first_line text.now }
    ensures whole { IsLineBefore text.now result.bytes.now result.ended result.after.now }
{
    let (bytes, after) = text.split_at(line_len(text));
    match after.split_first() {
        Some((_, after)) => Line {
            bytes,
            ended: true,
            after,
        },
        None => Line {
            bytes,
            ended: false,
            after,
        },
    }
}

// How many bytes come before the first line feed.
fn line_len(text: &[u8]) -> usize
    ensures { result ≡ length (first_line text.now) }
{
    text.iter().take_while(|b| **b != b'\n').count()
}

// The line that ends the pre-messages.
fn is_dots(bytes: &[u8]) -> bool
    ensures { result ≡ bytes_eq bytes.now dots }
{
    bytes == b"  ...".as_slice()
}

fn has_dots(text: &[u8]) -> bool
    ensures { result ≡ has_dots text.now }
{
    let mut rest = text;
    while !rest.is_empty() {
        let line = first_line(rest);
        if is_dots(line.bytes) {
            return true;
        }
        rest = line.after;
    }
    false
}

// What was checked so far: whether a line that ends the pre-messages is still to come, which pre-messages stood before,
// and how many messages.
#[derive(Clone, Copy)]
struct Judged {
    dots_ahead: bool,
    initiator: bool,
    responder: bool,
    messages: u8,
}

impl Judged {
    fn new(lines: &[u8]) -> Judged
        ensures { result
            ≡ record { dots_ahead = has_dots lines.now; initiator = false; responder = false; messages = 0 } }
    {
        Judged {
            dots_ahead: has_dots(lines),
            initiator: false,
            responder: false,
            messages: 0,
        }
    }

    // What was checked after one more line, or what is wrong in it.
    fn judge(self, places: &[u8], bytes: &[u8]) -> Result<Judged, TextFaultKind>
        ensures { (s : RightLines) (dotted : Bool) → Matches self s → AreRightLines places.now dotted s
            → IsNextJudged places.now dotted s bytes.now result }
    {
        if is_dots(bytes) {
            return self.judge_dots();
        }
        let Some((role, list)) = read_arrow(bytes) else {
            return Err(TextFaultKind::Arrow);
        };
        let Some(words) = Words::read(list) else {
            return Err(TextFaultKind::Token);
        };
        if self.dots_ahead {
            self.judge_pre_message(role, &words)
        } else {
            self.judge_message(places, role, &words)
        }
    }

    fn judge_dots(self) -> Result<Judged, TextFaultKind>
        ensures { (places : List ℕ) (s : RightLines) (dotted : Bool) → Matches self s → AreRightLines places dotted s
            → IsNextJudged places dotted s dots result }
    {
        if self.dots_ahead && self.has_begun() {
            Ok(Judged {
                dots_ahead: false,
                ..self
            })
        } else {
            Err(TextFaultKind::PreMessage)
        }
    }

    // Whether a pre-message stood before.
    fn has_begun(self) -> bool
        ensures { IsTrue result ↔ IsTrue self.initiator ⊎ IsTrue self.responder }
    {
        self.initiator || self.responder
    }

    fn judge_pre_message(self, role: Role, list: &Words) -> Result<Judged, TextFaultKind>
        requires dots { IsTrue self.dots_ahead }
        ensures next { (places : List ℕ) (s : RightLines) (dotted : Bool) (tokens : List Token) → Matches self s
            → AreRightLines places dotted s → HasTokens list.now tokens
            → IsNextJudged places dotted s (arrow_then role (words tokens)) result }
    {
        if self.is_barred(role) || !is_pre_message(&list.first) {
            return Err(TextFaultKind::PreMessage);
        }
        Ok(match role {
            Role::Initiator => Judged {
                initiator: true,
                ..self
            },
            Role::Responder => Judged {
                responder: true,
                ..self
            },
        })
    }

    // Whether no pre-message of the party can follow.
    fn is_barred(self, role: Role) -> bool
        ensures { IsTrue result ↔ IsTrue self.responder ⊎ ((role ≡ Initiator) × IsTrue self.initiator) }
    {
        match role {
            Role::Initiator => self.has_begun(),
            Role::Responder => self.responder,
        }
    }

    fn judge_message(self, places: &[u8], role: Role, list: &Words) -> Result<Judged, TextFaultKind>
        requires dots { IsFalse self.dots_ahead }
        ensures next { (s : RightLines) (dotted : Bool) (tokens : List Token) → Matches self s
            → AreRightLines places.now dotted s → HasTokens list.now tokens
            → IsNextJudged places.now dotted s (arrow_then role (words tokens)) result }
    {
        if !self.is_turn(role) {
            return Err(TextFaultKind::Turn);
        }
        if self.messages >= 8 || !list.has_few() {
            return Err(TextFaultKind::Limit);
        }
        let messages = self.messages + 1;
        if list.have_psks(messages, places) {
            Ok(Judged { messages, ..self })
        } else {
            Err(TextFaultKind::PskPlace)
        }
    }

    // Whether it is the party's turn.
    fn is_turn(self, role: Role) -> bool
        ensures turn { IsTrue result → role ≡ turn_from Initiator self.messages }
        ensures other { IsFalse result → role ≡ turn_from Initiator (self.messages + 1) }
    {
        match role {
            Role::Initiator => self.messages % 2 == 0,
            Role::Responder => self.messages % 2 != 0,
        }
    }

    // What is wrong after the last line, whose number is one less.
    fn fault_of_whole(self, places: &[u8], number: usize) -> TextFault
        ensures { result ≡ (if self.messages == 0 then record { line = number; kind = kinds.Ending }
            else (if list_all (λ n. nat_le n self.messages) places.now then record { line = 1; kind = kinds.NameTaken }
            else record { line = 1; kind = kinds.PskPlace })) }
    {
        if self.messages == 0 {
            fault(number, TextFaultKind::Ending)
        } else if are_within(places, self.messages) {
            fault(1, TextFaultKind::NameTaken)
        } else {
            fault(1, TextFaultKind::PskPlace)
        }
    }
}

// Whether no place is beyond so many messages.
fn are_within(places: &[u8], messages: u8) -> bool
    ensures { result ≡ list_all (λ n. nat_le n messages) places.now }
{
    places.iter().all(|n| *n <= messages)
}

// The tokens of a list: the first eleven, and the first nine that are no psk. A message has at most ten, and at most
// eight that are no psk.
#[derive(Drop)]
struct Words {
    first: ArrayVec<Token, 11>,
    own: ArrayVec<Token, 9>,
}

impl Words {
    // The tokens of a list.
    fn read(list: &[u8]) -> Option<Words>
        ensures none { IfNone result ((tokens : List Token) → tokens ≢ [] → list.now ≢ words tokens) }
        ensures some { IfSome result (λ w. (tokens : List Token) × HasTokens w tokens × (list.now ≡ words tokens)) }
    {
        let mut words = Words {
            first: ArrayVec::new(),
            own: ArrayVec::new(),
        };
        let mut left = list;
        loop {
            let (token, after) = Token::parse_first(left)?;
            words.add(token);
            if after.is_empty() {
                return Some(words);
            }
            left = after.strip_prefix(b", ")?;
        }
    }

    fn add(&mut self, token: Token)
        ensures first { self.new.first.items ≡ take 11 (self.old.first.items ++ token ∷ []) }
        ensures own { self.new.own.items
            ≡ (if is_psk token then self.old.own.items else take 9 (self.old.own.items ++ token ∷ [])) }
    {
        push_if_room(&mut self.first, token);
        if let Token::Psk = token {
            return;
        }
        push_if_room(&mut self.own, token);
    }

    // Whether the tokens other than psk are those of a message: one to eight.
    fn has_few(&self) -> bool
        ensures few { (tokens : List Token) → HasTokens self.now tokens → result ≡ has_few_tokens tokens }
        ensures bound { IsTrue result → array_vec_len self.now.own ≤ 8 }
    {
        !self.own.is_empty() && !self.own.is_full()
    }

    // Whether these have the psk tokens of the message of this number, and no others.
    fn have_psks(&self, number: u8, places: &[u8]) -> bool
        requires few { array_vec_len self.now.own ≤ 8 }
        ensures psks { (tokens : List Token) → HasTokens self.now tokens
            → IsTrue result ↔ (tokens ≡ with_psk_tokens places.now number (own_tokens tokens)) }
    {
        are_same(
            message_with_psks(&self.own, number, places).tokens(),
            &self.first,
        )
    }
}

fn are_same(tokens: &[Token], others: &[Token]) -> bool
    ensures { IsTrue result ↔ (tokens.now ≡ others.now) }
{
    tokens == others
}

// Appends the token if there is room.
fn push_if_room<const N: usize>(tokens: &mut ArrayVec<Token, N>, token: Token)
    ensures { tokens.new.items ≡ take N (tokens.old.items ++ token ∷ []) }
{
    if !tokens.is_full() {
        tokens.push(token);
    }
}
