//! The words of what the tokens show. The page of web/ has the same.

ghost use Rattle.std.specs.Prelude.{◌≡◌, ◌++◌, [], IfOk, OnOk, codes, fold};
ghost use Rattle.std.specs.List.{flat_map};
ghost use Rattle.noise_explain.specs.MixedKeys.{are_least};
ghost use Rattle.noise_explain.specs.FactWords.{add_word, again_text, alone_text, enough_text, if_psks, mixed_words, own_text, part_text, ways_text, ways_words, without_dh, writer_text};

use crate::mixed::{Keys, Mixed, NO_KEY, Psks};
use crate::parties::Part;
use noise_lines::role_word;
use noise_names::Role;
use std::alloc::{AllocError, Global};

// Appends texts.
pub(crate) fn push(texts: &[&str], text: &mut Vec<u8>) -> Result<(), AllocError>
    ensures { OnOk result (text.new.items ≡ text.old.items ++ flat_map (λ t. t.now) texts.now) }
{
    for t in texts {
        text.extend_from_slice(t.as_bytes())?;
    }
    Ok(())
}

// The words that are meant, with a text between two.
fn listed(alloc: Global, between: &str, words: &[(bool, &str)]) -> Result<Vec<u8>, AllocError>
    ensures { IfOk result (λ list. list.items ≡ fold (λ list w. add_word between.now w.0 w.1.now list) [] words.now) }
{
    let mut list = Vec::new(alloc);
    for (is_meant, word) in words {
        add_word(*is_meant, word, between, &mut list)?;
    }
    Ok(list)
}

fn add_word(is_meant: bool, word: &str, between: &str, list: &mut Vec<u8>) -> Result<(), AllocError>
    ensures { OnOk result (list.new.items ≡ add_word between.now is_meant word.now list.old.items) }
{
    if !is_meant {
        return Ok(());
    }
    if !list.is_empty() {
        list.extend_from_slice(between.as_bytes())?;
    }
    list.extend_from_slice(word.as_bytes())
}

// What is mixed in, by name.
#[tactic(auto, unfolding(crate::specs::FactWords::mixed_words))]
pub(crate) fn mixed_words(alloc: Global, m: Mixed) -> Result<Vec<u8>, AllocError>
    ensures { IfOk result (λ list. list.items ≡ mixed_words m) }
{
    let mut list = listed(
        alloc,
        ", ",
        &[
            (m.ee, "ee"),
            (m.es, "es"),
            (m.se, "se"),
            (m.ss, "ss"),
            (m.psks.is_some(), m.psks.word()),
        ],
    )?;
    if list.is_empty() {
        list.extend_from_slice(b"nothing".as_slice())?;
    }
    Ok(list)
}

// The least sets of private keys that are enough for some DHs: those of one key, and then those of two. None has three,
// since the two keys of a party are always enough.
#[rattlefmt::skip]
pub(crate) static WAYS: [(Keys, &str); 10] = [
    (Keys { initiator_e: true, ..NO_KEY }, "the initiator's e"),
    (Keys { initiator_s: true, ..NO_KEY }, "the initiator's s"),
    (Keys { responder_e: true, ..NO_KEY }, "the responder's e"),
    (Keys { responder_s: true, ..NO_KEY }, "the responder's s"),
    (Keys { initiator_e: true, initiator_s: true, ..NO_KEY }, "the initiator's e and s"),
    (Keys { initiator_e: true, responder_e: true, ..NO_KEY }, "both parties' e"),
    (Keys { initiator_s: true, responder_e: true, ..NO_KEY }, "the initiator's s and the responder's e"),
    (Keys { initiator_e: true, responder_s: true, ..NO_KEY }, "the initiator's e and the responder's s"),
    (Keys { initiator_s: true, responder_s: true, ..NO_KEY }, "both parties' s"),
    (Keys { responder_e: true, responder_s: true, ..NO_KEY }, "the responder's e and s"),
];

#[tactic(auto, unfolding(crate::specs::FactWords::ways_words))]
fn ways_words(alloc: Global, m: Mixed) -> Result<Vec<u8>, AllocError>
    ensures { IfOk result (λ list. list.items ≡ ways_words m) }
{
    ways_among(alloc, m, &WAYS)
}

fn ways_among(alloc: Global, m: Mixed, ways: &[(Keys, &str)]) -> Result<Vec<u8>, AllocError>
    ensures { IfOk result (λ list. list.items ≡ fold (λ list w. add_word (codes ", or ") (are_least m w.0) w.1.now list) [] ways.now) }
{
    let mut list = Vec::new(alloc);
    for (keys, words) in ways {
        add_word(m.is_least(*keys), words, ", or ", &mut list)?;
    }
    Ok(list)
}

// The ways, the psk, and a full stop.
#[tactic(auto, unfolding(crate::specs::FactWords::ways_text))]
fn push_ways(alloc: Global, m: Mixed, text: &mut Vec<u8>) -> Result<(), AllocError>
    ensures { OnOk result (text.new.items ≡ text.old.items ++ ways_text m) }
{
    text.extend_from_slice(&ways_words(alloc, m)?)?;
    push(
        &[
            if_psks("; and in each case the ", m.psks),
            m.psks.word(),
            ".",
        ],
        text,
    )
}

fn if_psks(front: &'static str, psks: Psks) -> &'static str
    ensures { result.now ≡ if_psks front.now psks }
{
    if psks.is_some() { front } else { "" }
}

// Which private keys are enough to compute a key, and what somebody needs who takes a party's part.
#[tactic(auto, unfolding(crate::specs::FactWords::enough_text))]
pub(crate) fn push_enough(
    alloc: Global,
    m: Mixed,
    party: Role,
    part: Part,
    text: &mut Vec<u8>,
) -> Result<(), AllocError>
    ensures { OnOk result (text.new.items ≡ text.old.items ++ enough_text m party part) }
{
    if !m.has_dh() {
        return push(&[without_dh(m.psks)], text);
    }
    push(&["Enough: "], text)?;
    push_ways(alloc, m, text)?;
    push_part(party, part, m.psks, text)
}

#[tactic(auto, unfolding(crate::specs::FactWords::without_dh))]
fn without_dh(psks: Psks) -> &'static str
    ensures { result.now ≡ without_dh psks }
{
    match psks {
        Psks::None => "No DH is mixed in: everybody can compute it.",
        Psks::One => "Enough: the psk alone.",
        Psks::More => "Enough: the psks alone.",
    }
}

#[tactic(auto, unfolding(crate::specs::FactWords::part_text))]
fn push_part(party: Role, part: Part, psks: Psks, text: &mut Vec<u8>) -> Result<(), AllocError>
    ensures { OnOk result (text.new.items ≡ text.old.items ++ part_text party part psks) }
{
    match part {
        Part::Neither => Ok(()),
        Part::Ephemeral => push_own(party, "an e", psks, text),
        Part::Static => push_own(party, "an s", psks, text),
        Part::Both => push_own(party, "an e and an s", psks, text),
    }
}

#[tactic(auto, unfolding(crate::specs::FactWords::own_text))]
fn push_own(
    party: Role,
    keys: &'static str,
    psks: Psks,
    text: &mut Vec<u8>,
) -> Result<(), AllocError>
    ensures { OnOk result (text.new.items ≡ text.old.items ++ own_text party keys.now psks) }
{
    push(
        &[
            " Whoever takes the ",
            role_word(party),
            "'s part needs only ",
            keys,
            " of its own",
            if_psks(" and the ", psks),
            psks.word(),
            ".",
        ],
        text,
    )
}

// Who can have written what has a tag: `rest` is what the writer's own ephemeral key isn't enough for.
#[tactic(auto, unfolding(crate::specs::FactWords::writer_text))]
pub(crate) fn push_writer(
    alloc: Global,
    m: Mixed,
    rest: Mixed,
    text: &mut Vec<u8>,
) -> Result<(), AllocError>
    ensures { OnOk result (text.new.items ≡ text.old.items ++ writer_text m rest) }
{
    if !rest.has_dh() {
        return push(&[alone(m.has_dh(), m.psks)], text);
    }
    push(&["whoever has "], text)?;
    push_ways(alloc, rest, text)
}

// The same where no DH is left.
#[tactic(auto, unfolding(crate::specs::FactWords::alone_text))]
fn alone(any_dh: bool, psks: Psks) -> &'static str
    ensures { result.now ≡ alone_text any_dh psks }
{
    match psks {
        Psks::None if any_dh => "anyone, with an e of its own.",
        Psks::None => "anyone: everybody can compute the key.",
        Psks::One => "whoever has the psk.",
        Psks::More => "whoever has the psks.",
    }
}

// Whether a recording of what has a tag is accepted by this party.
#[tactic(auto, unfolding(crate::specs::FactWords::again_text))]
pub(crate) fn push_again(party: Role, is_fresh: bool, text: &mut Vec<u8>) -> Result<(), AllocError>
    ensures { OnOk result (text.new.items ≡ text.old.items ++ again_text party is_fresh) }
{
    let party = role_word(party);
    if is_fresh {
        push(&["refused: the ", party, "'s e is new each time."], text)
    } else {
        push(
            &["accepted again: the ", party, " puts in no e before."],
            text,
        )
    }
}
