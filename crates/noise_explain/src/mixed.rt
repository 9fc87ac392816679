//! What is mixed into the keys at a place of a pattern, and which private keys are enough for that.

ghost use Rattle.std.specs.Prelude.{◌≡◌, fold};
ghost use Rattle.noise_explain.specs.FactWords.{has_dh, has_psks, psks_word};
ghost use Rattle.noise_explain.specs.MixedKeys.{add_token, are_enough, are_least, mixed_before, one_more};
ghost use Rattle.noise_explain.specs.Parties.{keys_of, static_of, without_e};

use crate::rule_place::tokens_at;
use noise_names::{Pattern, Role, Token};

/// How many psks are mixed in.
#[derive(Clone, Copy)]
pub(crate) enum Psks {
    None,
    One,
    More,
}

/// Which DHs are mixed in, and how many psks.
#[derive(Clone, Copy)]
pub(crate) struct Mixed {
    pub ee: bool,
    pub es: bool,
    pub se: bool,
    pub ss: bool,
    pub psks: Psks,
}

/// Some of the four private keys of a handshake.
#[derive(Clone, Copy)]
pub(crate) struct Keys {
    pub initiator_e: bool,
    pub initiator_s: bool,
    pub responder_e: bool,
    pub responder_s: bool,
}

impl Psks {
    fn one_more(self) -> Psks
        ensures { result ≡ one_more self }
    {
        match self {
            Psks::None => Psks::One,
            _ => Psks::More,
        }
    }

    /// The word for them, or nothing.
    pub fn word(self) -> &'static str
        ensures { result.now ≡ psks_word self }
    {
        match self {
            Psks::None => "",
            Psks::One => "psk",
            Psks::More => "psks",
        }
    }

    pub fn is_some(self) -> bool
        ensures { result ≡ has_psks self }
    {
        match self {
            Psks::None => false,
            _ => true,
        }
    }
}

pub(crate) const NO_KEY: Keys = Keys {
    initiator_e: false,
    initiator_s: false,
    responder_e: false,
    responder_s: false,
};

impl Keys {
    // The ephemeral key of a party, and its static one where that is asked for.
    #[rattlefmt::skip]
    pub fn of(party: Role, has_s: bool) -> Keys
        ensures { result ≡ keys_of party has_s }
    {
        match party {
            Role::Initiator => Keys { initiator_e: true, initiator_s: has_s, ..NO_KEY },
            Role::Responder => Keys { responder_e: true, responder_s: has_s, ..NO_KEY },
        }
    }

    // The static key of a party.
    #[rattlefmt::skip]
    pub fn static_of(party: Role) -> Keys
        ensures { result ≡ static_of party }
    {
        match party {
            Role::Initiator => Keys { initiator_s: true, ..NO_KEY },
            Role::Responder => Keys { responder_s: true, ..NO_KEY },
        }
    }
}

pub(crate) const NOTHING: Mixed = Mixed {
    ee: false,
    es: false,
    se: false,
    ss: false,
    psks: Psks::None,
};

impl Mixed {
    // With one more token.
    #[rattlefmt::skip]
    fn add(self, token: Token) -> Mixed
        ensures { result ≡ add_token self token }
    {
        match token {
            Token::E | Token::S => self,
            Token::Ee => Mixed { ee: true, ..self },
            Token::Es => Mixed { es: true, ..self },
            Token::Se => Mixed { se: true, ..self },
            Token::Ss => Mixed { ss: true, ..self },
            Token::Psk => Mixed { psks: self.psks.one_more(), ..self },
        }
    }

    // With these tokens.
    fn add_tokens(self, tokens: &[Token]) -> Mixed
        ensures { result ≡ fold add_token self tokens.now }
    {
        let mut mixed = self;
        for token in tokens {
            mixed = mixed.add(*token);
        }
        mixed
    }

    pub fn has_dh(self) -> bool
        ensures { result ≡ has_dh self }
    {
        self.ee || self.es || self.se || self.ss
    }

    // The DHs that need another key than this party's ephemeral one.
    #[rattlefmt::skip]
    pub fn without_e(self, party: Role) -> Mixed
        ensures { result ≡ without_e party self }
    {
        match party {
            Role::Initiator => Mixed { ee: false, es: false, ..self },
            Role::Responder => Mixed { ee: false, se: false, ..self },
        }
    }

    // Whether these private keys are enough for every DH, which needs one of its two.
    pub fn is_by(self, keys: Keys) -> bool
        ensures { result ≡ are_enough self keys }
    {
        (!self.ee || keys.initiator_e || keys.responder_e)
            && (!self.es || keys.initiator_e || keys.responder_s)
            && (!self.se || keys.initiator_s || keys.responder_e)
            && (!self.ss || keys.initiator_s || keys.responder_s)
    }

    // The same, and none of the keys can be left out.
    #[rattlefmt::skip]
    pub fn is_least(self, keys: Keys) -> bool
        ensures { result ≡ are_least self keys }
    {
        self.is_by(keys)
            && !(keys.initiator_e && self.is_by(Keys { initiator_e: false, ..keys }))
            && !(keys.initiator_s && self.is_by(Keys { initiator_s: false, ..keys }))
            && !(keys.responder_e && self.is_by(Keys { responder_e: false, ..keys }))
            && !(keys.responder_s && self.is_by(Keys { responder_s: false, ..keys }))
    }
}

// What is mixed in by so many messages, and by so many tokens of the next one.
pub(crate) fn mixed_by(pattern: &Pattern, passed: usize, count: usize) -> Mixed
    ensures { result ≡ mixed_before pattern.now passed count }
{
    let mut mixed = NOTHING;
    for index in 0..passed {
        mixed = mixed.add_tokens(tokens_at(pattern.messages(), index));
    }
    let next = tokens_at(pattern.messages(), passed);
    let (front, _) = next.split_at(count.min(next.len()));
    mixed.add_tokens(front)
}
