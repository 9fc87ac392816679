//! Which tokens of a party have passed (Noise, 7.1), and its public keys.

ghost use Rattle.std.specs.Prelude.{◌≡◌, ◌≤◌, ℕ, List, length, Some};
ghost use Rattle.noise_names.specs.Tokens.{same_role};
ghost use Rattle.noise_names.specs.Validity.{is_among};
ghost use Rattle.noise_keys.specs.declared.keys.Own.{Own};
ghost use Rattle.noise_handshake.specs.Counterparts.{shown_before};
ghost use Rattle.noise_handshake.specs.Passed.{passed_places};
ghost use Rattle.noise_handshake.specs.Setup.{keys_of, public_keys};

use crate::{Keys, Own, Remote};
use noise_keys::{has_token, sends_in};
use noise_names::{Pattern, Role, Token, ValidPattern};

// Whether they are one role.
fn is_same(party: Role, role: Role) -> bool
    ensures { result ≡ same_role party role }
{
    party == role
}

// Whether a role has the token in its pre-message or one of so many messages.
pub(crate) fn was_sent(pattern: &Pattern, passed: usize, role: Role, token: Token) -> bool
    requires within { passed ≤ length pattern.now.messages }
    ensures value { result ≡ is_among role token (passed_places pattern.now passed) }
{
    let before = has_token(pattern.pre(role), token);
    if before {
        return true;
    }
    sends_in(&pattern.messages()[..passed], Role::Initiator, role, token)
}

/// The public keys of a party's own.
pub fn public_keys<K: Keys>(keys: &K) -> Remote
    ensures { result ≡ public_keys (K.pairs keys.now).public }
{
    Remote {
        e: keys.public(Own::Ephemeral),
        s: keys.public(Own::Static),
    }
}

/// The public keys of a party, for a role with these keys of its own and these of the other party.
pub fn keys_of(party: Role, role: Role, own: &Remote, remote: &Remote) -> Remote
    ensures { result ≡ keys_of party role own.now remote.now }
{
    if is_same(party, role) { *own } else { *remote }
}

/// Of a party's public keys those of its pre-message, which the other party knows before the first message.
pub fn shown_before<K: Keys>(pattern: &ValidPattern, party: Role, keys: &K) -> Remote
    ensures value { result ≡ shown_before pattern.now party (K.pairs keys.now).public }
    ensures len { (own : Own) (key : List ℕ) → (K.pairs keys.now).public own ≡ Some key → length key ≡ 32 }
{
    let pre = pattern.pattern().pre(party);
    let own = public_keys(keys);
    Remote {
        e: if pre.contains(&Token::E) { own.e } else { None },
        s: if pre.contains(&Token::S) { own.s } else { None },
    }
}
