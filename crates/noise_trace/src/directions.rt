//! Both directions of a session that is open.

ghost use Rattle.std.specs.Prelude.{◌≡◌, ℕ};
ghost use Rattle.noise_handshake.specs.Party.{Party};
ghost use Rattle.noise_session.specs.Ends.{end_of};
ghost use Rattle.noise_trace.specs.KeyUses.{opening_of};

use crate::Opening;
use crate::direction::Direction;
use noise_names::Role;

// That of the messages that a party writes, and that of those that it opens.
#[derive(Clone, Copy)]
pub(crate) struct Directions {
    pub(crate) sending: Direction,
    pub(crate) receiving: Direction,
}

impl Directions {
    ghost use Rattle.noise_trace.specs.EndFollowing.{directions_of};

    // Those of a role at the opening.
    pub(crate) fn new(role: Role, opening: &Opening) -> Directions
        ensures { (v : Party) (interval : ℕ) → role ≡ v.role → opening.now ≡ opening_of v.state
            → result ≡ directions_of (end_of v interval) }
    {
        let initiator = Direction::new(opening.initiator);
        let responder = Direction::new(opening.responder);
        let (sending, receiving) = match role {
            Role::Initiator => (initiator, responder),
            Role::Responder => (responder, initiator),
        };
        Directions { sending, receiving }
    }
}
