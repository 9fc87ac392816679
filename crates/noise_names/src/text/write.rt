ghost use Rattle.std.specs.Prelude.{◌≡◌, ◌≤◌, ◌+◌, ◌*◌, ◌++◌, length, codes};
ghost use Rattle.arrayvec.specs.ArrayVec.{array_vec_len};
ghost use Rattle.noise_names.specs.declared.token.Role.TheVariants.{Initiator};
ghost use Rattle.noise_names.specs.Names.{section_bytes};
ghost use Rattle.noise_names.specs.Text.{arrow_of, line, message_lines, pre_line, pre_lines, text_of, token_line, word_of, words};

use crate::name::push_modifiers;
use crate::{Message, Pattern, PskPlaces, Role, Token};
use arrayvec::ArrayVec;

// Room for a text: a heading of at most 55 bytes, pre-messages of at most 38, and 8 messages of at most 56 each. The
// longest text has 413.
const TEXT_LEN: usize = 541;

type Text = ArrayVec<u8, TEXT_LEN>;

// The pattern's text.
pub(crate) fn text(pattern: &Pattern) -> Text
    ensures written { result.items ≡ text_of pattern.now }
    ensures bound { length (text_of pattern.now) ≤ 413 }
{
    let messages = pattern.messages();
    let mut out = Text::new();
    append(&mut out, &heading(pattern.base(), pattern.places()));
    push_pre_messages(
        &mut out,
        pattern.pre(Role::Initiator),
        pattern.pre(Role::Responder),
    );
    push_messages(&mut out, messages);
    out
}

// The heading's line, at most 55 bytes.
fn heading(base: &[u8], places: &PskPlaces) -> ArrayVec<u8, 255>
    requires short { length base.now ≤ 8 }
    ensures written { result.items ≡ line (section_bytes base.now places.now ++ codes ":") }
    ensures bound { array_vec_len result ≤ 55 }
{
    let mut out = ArrayVec::new();
    out.try_extend_from_slice(base).unwrap();
    push_modifiers(&mut out, places.numbers());
    out.push(b':');
    out.push(b'\n');
    out
}

// Appends bytes.
fn append(out: &mut Text, bytes: &[u8])
    requires room { array_vec_len out.old + length bytes.now ≤ 541 }
    ensures written { out.new.items ≡ out.old.items ++ bytes.now }
    ensures bound { array_vec_len out.new ≡ array_vec_len out.old + length bytes.now }
{
    out.try_extend_from_slice(bytes).unwrap();
}

// Appends the pre-messages' lines and the one that ends them, at most 38 bytes.
fn push_pre_messages(out: &mut Text, initiator: &[Token], responder: &[Token])
    requires initiator { length initiator.now ≤ 2 }
    requires responder { length responder.now ≤ 2 }
    requires room { array_vec_len out.old + 38 ≤ 541 }
    ensures written { out.new.items ≡ out.old.items ++ pre_lines initiator.now responder.now }
    ensures bound { array_vec_len out.new ≤ array_vec_len out.old + 38 }
{
    if initiator.is_empty() && responder.is_empty() {
        return;
    }
    push_pre_message(out, Role::Initiator, initiator);
    push_pre_message(out, Role::Responder, responder);
    append(out, b"  ...\n");
}

// Appends the line of a pre-message, if there is one.
fn push_pre_message(out: &mut Text, role: Role, tokens: &[Token])
    requires few { length tokens.now ≤ 2 }
    requires room { array_vec_len out.old + 16 ≤ 541 }
    ensures written { out.new.items ≡ out.old.items ++ pre_line role tokens.now }
    ensures bound { array_vec_len out.new ≤ array_vec_len out.old + 16 }
{
    if !tokens.is_empty() {
        push_token_line(out, role, tokens);
    }
}

// Appends the messages' lines.
fn push_messages(out: &mut Text, messages: &[Message])
    requires room { array_vec_len out.old + 56 * length messages.now ≤ 541 }
    ensures written { out.new.items ≡ out.old.items ++ message_lines Initiator messages.now }
{
    let mut role = Role::Initiator;
    for message in messages {
        push_token_line(out, role, message.tokens());
        role = role.other();
    }
}

// Appends a line of tokens.
fn push_token_line(out: &mut Text, role: Role, tokens: &[Token])
    requires few { length tokens.now ≤ 10 }
    requires room { array_vec_len out.old + (6 + 5 * length tokens.now) ≤ 541 }
    ensures written { out.new.items ≡ out.old.items ++ token_line role tokens.now }
    ensures bound { array_vec_len out.new ≤ array_vec_len out.old + (6 + 5 * length tokens.now) }
{
    append(out, b"  ");
    append(out, role.arrow());
    append(out, b" ");
    push_words(out, tokens);
    append(out, b"\n");
}

// Appends the tokens' words.
fn push_words(out: &mut Text, tokens: &[Token])
    requires room { array_vec_len out.old + 5 * length tokens.now ≤ 541 }
    ensures written { out.new.items ≡ out.old.items ++ words tokens.now }
    ensures bound { array_vec_len out.new ≤ array_vec_len out.old + 5 * length tokens.now }
{
    let Some((first, others)) = tokens.split_first() else {
        return;
    };
    append(out, first.word());
    for token in others {
        append(out, b", ");
        append(out, token.word());
    }
}

impl Role {
    // The arrow of the party's messages.
    pub(crate) fn arrow(self) -> &'static [u8]
        ensures value { result.now ≡ arrow_of self }
        ensures len { length result.now ≡ 2 }
    {
        match self {
            Role::Initiator => b"->",
            Role::Responder => b"<-",
        }
    }
}

impl Token {
    // The token's word.
    pub(crate) fn word(self) -> &'static [u8]
        ensures value { result.now ≡ word_of self }
        ensures few { length result.now ≤ 3 }
    {
        match self {
            Token::E => b"e",
            Token::S => b"s",
            Token::Ee => b"ee",
            Token::Es => b"es",
            Token::Se => b"se",
            Token::Ss => b"ss",
            Token::Psk => b"psk",
        }
    }
}
