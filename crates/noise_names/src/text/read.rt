ghost use Rattle.std.specs.Prelude.{◌≡◌, ◌↔◌, ◌≤◌, ◌<◌, ◌+◌, ◌++◌, ◌==◌, ℕ, List, [], ◌∷◌, Some, None, IfSome, IfNone, MatchOption, IsTrue, IsFalse, not, codes, false, length, take_while, map};
ghost use Rattle.std.specs.List.{list_any, list_all};
ghost use Rattle.arrayvec.specs.ArrayVec.{array_vec_len};
ghost use Rattle.noise_names.specs.declared.token.Token.{Token};
ghost use Rattle.noise_names.specs.declared.token.Role.{Role};
ghost use Rattle.noise_names.specs.declared.token.Role.TheVariants.{Initiator};
ghost use Rattle.noise_names.specs.Tokens.{is_psk, own_tokens};
ghost use Rattle.noise_names.specs.Plan.{Plan, plain_of, has_psk};
ghost use Rattle.noise_names.specs.Names.{Section, IsSection, is_base};
ghost use Rattle.noise_names.specs.Limits.{IsPattern, has_few_tokens, is_pre_message};
ghost use Rattle.noise_names.specs.Fundamental.{fundamental_of};
ghost use Rattle.noise_names.specs.WrongText.{arrow_then, body_of, heading_of};
ghost use Rattle.noise_names.specs.Text.{arrow_of, line, message_lines, pre_lines, Spells, token_line, word_of, words};
ghost use Rattle.noise_names.specs.Reading.{is_lower, token_named};

use crate::section::parse_section;
use crate::text::write;
use crate::{Message, Pattern, ProtocolName, PskPlaces, Role, Token, fundamental};
use arrayvec::ArrayVec;

// The pattern that the text spells, if it spells one. Its parts are read without a look at what is wrong in the text,
// and then the pattern's text is compared with it.
pub(crate) fn read(text: &[u8]) -> Option<Pattern>
    ensures spelled { IfSome result (λ pattern. Spells text.now pattern) }
    ensures every { (pattern : Plan) → Spells text.now pattern → result ≡ Some pattern }
{
    let (name, after) = read_heading(text)?;
    let lines = after.strip_prefix(b"\n")?;
    let plain = read_plain(name.base(), lines)?;
    match Pattern::with_psks(&plain, name.places()) {
        Ok(pattern) => {
            if write::text(&pattern).as_slice() == text {
                Some(pattern)
            } else {
                None
            }
        }
        Err(_) => None,
    }
}

// The name that a heading gives, and what follows its colon.
pub(super) fn read_heading(text: &[u8]) -> Option<(ProtocolName, &[u8])>
    ensures valid { IfSome result (λ r. IsSection r.0) }
    ensures some { IfSome result (λ r. text.now ≡ heading_of r.0 ++ r.1.now) }
    ensures every { (s : Section) (after : List ℕ) → IsSection s → text.now ≡ heading_of s ++ after
        → MatchOption result (Unit {0} → ⊥) (λ r. (r.0 ≡ s) × (r.1.now ≡ after)) }
{
    let (section, colon) = text.split_at(section_len(text));
    let after = colon.strip_prefix(b":")?;
    match parse_section(section) {
        Ok(name) => Some((name, after)),
        Err(_) => None,
    }
}

// How many bytes come before the first colon.
fn section_len(text: &[u8]) -> usize
    ensures { result ≡ length (take_while (λ b. not (b == 58)) text.now) }
{
    text.iter().take_while(|b| **b != b':').count()
}

// The pattern of this base without psk tokens: the fundamental one, or else that of these lines.
fn read_plain(base: &[u8], lines: &[u8]) -> Option<Pattern>
    requires base { IsTrue (is_base base.now) }
    ensures plain { IfSome result (λ q. has_psk q ≡ false) }
    ensures every { (p : Plan) → IsPattern p → p.base ≡ base.now → lines.now ≡ body_of p
        → result ≡ Some (plain_of p) }
{
    match fundamental(base) {
        Some(known) => Some(known),
        None => read_lines(base, lines),
    }
}

// The pattern of this base and these lines without psk tokens, if that is within the limits.
fn read_lines(base: &[u8], lines: &[u8]) -> Option<Pattern>
    requires base { IsTrue (is_base base.now) }
    requires none { fundamental_of base.now ≡ None }
    ensures plain { IfSome result (λ q. has_psk q ≡ false) }
    ensures every { (p : Plan) → IsPattern p → p.base ≡ base.now → lines.now ≡ body_of p
        → result ≡ Some (plain_of p) }
{
    let (initiator, responder, lines) = read_pre_messages(lines);
    let messages = read_messages(lines);
    if messages.is_empty() || !are_pre_messages(&initiator, &responder) {
        return None;
    }
    let places = PskPlaces::none();
    Some(Pattern::of(base, places, &initiator, &responder, messages))
}

fn are_pre_messages(initiator: &[Token], responder: &[Token]) -> bool
    ensures { IsTrue result ↔ IsTrue (is_pre_message initiator.now) × IsTrue (is_pre_message responder.now) }
{
    is_pre_message(initiator) && is_pre_message(responder)
}

// Whether these are the tokens of a pre-message.
pub(super) fn is_pre_message(tokens: &[Token]) -> bool
    ensures { result ≡ is_pre_message tokens.now }
{
    matches!(tokens, [] | [Token::E] | [Token::S] | [Token::E, Token::S])
}

// The pre-messages, empty where no line ends them, and the lines after them.
fn read_pre_messages(lines: &[u8]) -> (ArrayVec<Token, 8>, ArrayVec<Token, 8>, &[u8])
    ensures { (i r : List Token) (ms : List (List Token)) → IsTrue (is_pre_message i) → IsTrue (is_pre_message r)
        → IsTrue (list_all has_few_tokens ms) → lines.now ≡ pre_lines i r ++ message_lines Initiator ms
        → (result.0.items ≡ i) × (result.1.items ≡ r) × (result.2.now ≡ message_lines Initiator ms) }
{
    let (initiator, after) = read_pre_message(Role::Initiator, lines);
    let (responder, after) = read_pre_message(Role::Responder, after);
    match after.strip_prefix(b"  ...\n") {
        Some(messages) => (initiator, responder, messages),
        None => (ArrayVec::new(), ArrayVec::new(), lines),
    }
}

// The tokens of the party's line, none if this is no such line, and the lines after it.
fn read_pre_message(role: Role, lines: &[u8]) -> (ArrayVec<Token, 8>, &[u8])
    ensures some { (t : Token) (ts : List Token) (more : List ℕ) → length (own_tokens (t ∷ ts)) ≤ 8
        → lines.now ≡ token_line role (t ∷ ts) ++ more
        → (result.0.items ≡ own_tokens (t ∷ ts)) × (result.1.now ≡ more) }
    ensures none { ((rest : List ℕ) → lines.now ≡ codes "  " ++ (arrow_of role ++ rest) → ⊥)
        → (result.0.items ≡ []) × (result.1.now ≡ lines.now) }
{
    match read_line(role, lines) {
        Some(read) => read,
        None => (ArrayVec::new(), lines),
    }
}

// The messages' tokens other than psk.
fn read_messages(lines: &[u8]) -> ArrayVec<Message, 8>
    ensures plain { list_any (λ tokens. list_any is_psk tokens) result.items ≡ false }
    ensures limits { IsTrue (list_all has_few_tokens result.items) }
    ensures few { array_vec_len result ≤ 8 }
    ensures every { (ms : List (List Token)) → length ms ≤ 8 → IsTrue (list_all has_few_tokens ms)
        → lines.now ≡ message_lines Initiator ms → result.items ≡ map own_tokens ms }
{
    let mut messages = ArrayVec::new();
    let mut role = Role::Initiator;
    let mut left = lines;
    while let Some((tokens, after)) = read_line(role, left) {
        if tokens.is_empty() || messages.is_full() {
            return messages;
        }
        messages.push(Message::of(tokens.as_slice()));
        role = role.other();
        left = after;
    }
    messages
}

// The tokens other than psk of the party's line, and the lines after it.
fn read_line(role: Role, lines: &[u8]) -> Option<(ArrayVec<Token, 8>, &[u8])>
    ensures plain { IfSome result (λ r. list_any is_psk r.0.items ≡ false) }
    ensures shorter { IfSome result (λ r. length r.1.now < length lines.now) }
    ensures prefix { IfSome result (λ r. (rest : List ℕ) × (lines.now ≡ codes "  " ++ (arrow_of role ++ rest))) }
    ensures every { (t : Token) (ts : List Token) (more : List ℕ) → length (own_tokens (t ∷ ts)) ≤ 8
        → lines.now ≡ token_line role (t ∷ ts) ++ more
        → MatchOption result (Unit {0} → ⊥) (λ r. (r.0.items ≡ own_tokens (t ∷ ts)) × (r.1.now ≡ more)) }
{
    let (party, list) = read_arrow(lines)?;
    if party != role {
        return None;
    }
    let (tokens, after) = read_words(list);
    Some((tokens, after.strip_prefix(b"\n")?))
}

// The party whose arrow is at the front of a line, and the list after the arrow.
pub(super) fn read_arrow(line: &[u8]) -> Option<(Role, &[u8])>
    ensures front { IfSome result (λ r. line.now ≡ arrow_then r.0 r.1.now) }
    ensures shorter { IfSome result (λ r. length r.1.now < length line.now) }
    ensures none { IfNone result ((role : Role) (list : List ℕ) → line.now ≡ arrow_then role list → ⊥) }
{
    if let Some(list) = line.strip_prefix(b"  -> ") {
        return Some((Role::Initiator, list));
    }
    let list = line.strip_prefix(b"  <- ")?;
    Some((Role::Responder, list))
}

// The tokens other than psk of a list, at most 8, and what follows the list.
fn read_words(list: &[u8]) -> (ArrayVec<Token, 8>, &[u8])
    ensures plain { list_any is_psk result.0.items ≡ false }
    ensures shorter { length result.1.now ≤ length list.now }
    ensures every { (t : Token) (ts : List Token) (more : List ℕ) → length (own_tokens (t ∷ ts)) ≤ 8
        → list.now ≡ words (t ∷ ts) ++ 10 ∷ more
        → (result.0.items ≡ own_tokens (t ∷ ts)) × (result.1.now ≡ 10 ∷ more) }
{
    let mut tokens = ArrayVec::new();
    let mut left = list;
    while let Some((token, after)) = Token::parse_first(left) {
        push_own(&mut tokens, token);
        let Some(more) = after.strip_prefix(b", ") else {
            return (tokens, after);
        };
        left = more;
    }
    (tokens, left)
}

// Appends the token, unless it is psk or there is no room.
fn push_own(tokens: &mut ArrayVec<Token, 8>, token: Token)
    ensures plain { list_any is_psk tokens.old.items ≡ false → list_any is_psk tokens.new.items ≡ false }
    ensures written { array_vec_len tokens.old + length (own_tokens (token ∷ [])) ≤ 8
        → tokens.new.items ≡ tokens.old.items ++ own_tokens (token ∷ []) }
{
    if let Token::Psk = token {
        return;
    }
    if !tokens.is_full() {
        tokens.push(token);
    }
}

// How many lower-case letters are at the front.
fn word_len(list: &[u8]) -> usize
    ensures { result ≡ length (take_while is_lower list.now) }
{
    list.iter().take_while(|b| b.is_ascii_lowercase()).count()
}

impl Token {
    /// The token whose word is at the front of a list, and what follows that. All lower-case letters at the front are
    /// the word.
    pub fn parse_first(list: &[u8]) -> Option<(Token, &[u8])>
        ensures shorter { IfSome result (λ r. length r.1.now ≤ length list.now) }
        ensures every { (t : Token) (b : ℕ) (more : List ℕ) → is_lower b ≡ false → list.now ≡ word_of t ++ b ∷ more
            → MatchOption result (Unit {0} → ⊥) (λ r. (r.0 ≡ t) × (r.1.now ≡ b ∷ more)) }
        ensures last { (t : Token) → list.now ≡ word_of t
            → MatchOption result (Unit {0} → ⊥) (λ r. (r.0 ≡ t) × (r.1.now ≡ [])) }
        ensures some { IfSome result (λ r. list.now ≡ word_of r.0 ++ r.1.now) }
    {
        let (word, after) = list.split_at(word_len(list));
        Some((Token::named(word)?, after))
    }

    // The token of this word.
    pub(crate) fn named(word: &[u8]) -> Option<Token>
        ensures { result ≡ token_named word.now }
    {
        match word {
            b"e" => Some(Token::E),
            b"s" => Some(Token::S),
            b"ee" => Some(Token::Ee),
            b"es" => Some(Token::Es),
            b"se" => Some(Token::Se),
            b"ss" => Some(Token::Ss),
            b"psk" => Some(Token::Psk),
            _ => None,
        }
    }
}
