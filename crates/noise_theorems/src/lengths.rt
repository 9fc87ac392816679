//! Whether lines fit into the messages of a pattern.

ghost use Rattle.std.specs.Prelude.{◌≡◌, ℕ, List, length};
ghost use Rattle.noise_names.specs.declared.token.Role.TheVariants.{Initiator};
ghost use Rattle.noise_names.specs.Tokens.{same_role, turn_from};
ghost use Rattle.noise_duel.specs.Acts.{roles_and_payloads};
ghost use Rattle.noise_theorems.specs.FittingMessages.{message_fits, messages_fit_from};

use noise_duel::Cuts;
use noise_names::{Role, ValidPattern};
use noise_session::limits::PAYLOAD_MAX;
use noise_state::limits::MAX_LEN;

/// Whether lines, a role and a payload each, fit: the roles of the handshake's messages take turns, each message has at
/// most 65535 bytes, in a one-way pattern the initiator alone writes what follows, and there is a nonce for each line.
pub fn messages_fit(pattern: &ValidPattern, lines: &[(Role, Vec<u8>, Cuts)]) -> bool
    ensures { result ≡ messages_fit_from pattern.now 0 (roles_and_payloads lines.now) }
{
    let mut turn = Role::Initiator;
    let mut place = 0;
    for (role, payload, _) in lines {
        if !message_fits(pattern, place, turn, *role, payload.len()) {
            return false;
        }
        turn = turn.other();
        place += 1;
    }
    true
}

// Whether a payload of this length fits as line `place`, counted from 0, where it is the turn of `turn`.
fn message_fits(
    pattern: &ValidPattern,
    place: usize,
    turn: Role,
    role: Role,
    payload_len: usize,
) -> bool
    requires turn { turn ≡ turn_from Initiator place }
    ensures value { result ≡ message_fits pattern.now place role payload_len }
{
    if place < pattern.pattern().messages().len() {
        let overhead = usize::from(pattern.overhead(place as u8 + 1));
        is_same(role, turn) && payload_len <= MAX_LEN && overhead + payload_len <= MAX_LEN
    } else {
        (!pattern.one_way() || is_same(role, Role::Initiator))
            && payload_len <= PAYLOAD_MAX
            && place < usize::MAX
    }
}

fn is_same(role: Role, other: Role) -> bool
    ensures { result ≡ same_role role other }
{
    match (role, other) {
        (Role::Initiator, Role::Initiator) => true,
        (Role::Responder, Role::Responder) => true,
        _ => false,
    }
}
