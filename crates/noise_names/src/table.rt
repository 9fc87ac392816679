ghost use Rattle.std.specs.Prelude.{◌≡◌, ◌<◌, Some, None, slice_get, map, [], IfSome, IsFalse, MatchOption};
ghost use Rattle.noise_names.specs.Plan.{has_psk};
ghost use Rattle.noise_names.specs.Fundamental.{fundamentals, fundamental_of, plain};

use crate::{Message, Pattern, PskPlaces, Token};
use arrayvec::ArrayVec;

/// The fundamental pattern of this base, such as `XX` (Noise, 7.4 and 7.5). None if the base is none of the fifteen.
pub fn fundamental(base: &[u8]) -> Option<Pattern>
    ensures value { result ≡ fundamental_of base.now }
    ensures plain { IfSome result (λ pattern. IsFalse (has_psk pattern)) }
{
    fundamental_at(place_of(base)?)
}

// The place of the base in the list.
#[tactic(auto, unfolding(crate::specs::Fundamental::fundamentals, crate::specs::Fundamental::fundamental_of))]
pub(crate) fn place_of(base: &[u8]) -> Option<u8>
    ensures { MatchOption result (fundamental_of base.now ≡ None)
        (λ place. slice_get fundamentals place ≡ fundamental_of base.now) }
{
    match base {
        b"N" => Some(0),
        b"K" => Some(1),
        b"X" => Some(2),
        b"NN" => Some(3),
        b"NK" => Some(4),
        b"NX" => Some(5),
        b"KN" => Some(6),
        b"KK" => Some(7),
        b"KX" => Some(8),
        b"XN" => Some(9),
        b"XK" => Some(10),
        b"XX" => Some(11),
        b"IN" => Some(12),
        b"IK" => Some(13),
        b"IX" => Some(14),
        _ => None,
    }
}

/// The fundamental pattern at a place of the list: the three one-way patterns, then the twelve interactive ones, in the
/// order of the standard (Noise, 7.4 and 7.5). The first place is 0, and from 15 on there is None.
pub fn fundamental_at(place: u8) -> Option<Pattern>
    ensures { result ≡ slice_get fundamentals place }
{
    if place < 15 { Some(row(place)) } else { None }
}

// The table.
#[tactic(auto, unfolding(crate::specs::Fundamental::fundamentals, crate::specs::Fundamental::fundamental_of))]
pub(crate) fn row(place: u8) -> Pattern
    requires within { place < 15 }
    ensures value { slice_get fundamentals place ≡ Some result }
{
    use Token::{E, Ee, Es, S, Se, Ss};
    match place {
        0 => plain(b"N", &[], &[S], &[&[E, Es]]),
        1 => plain(b"K", &[S], &[S], &[&[E, Es, Ss]]),
        2 => plain(b"X", &[], &[S], &[&[E, Es, S, Ss]]),
        3 => plain(b"NN", &[], &[], &[&[E], &[E, Ee]]),
        4 => plain(b"NK", &[], &[S], &[&[E, Es], &[E, Ee]]),
        5 => plain(b"NX", &[], &[], &[&[E], &[E, Ee, S, Es]]),
        6 => plain(b"KN", &[S], &[], &[&[E], &[E, Ee, Se]]),
        7 => plain(b"KK", &[S], &[S], &[&[E, Es, Ss], &[E, Ee, Se]]),
        8 => plain(b"KX", &[S], &[], &[&[E], &[E, Ee, Se, S, Es]]),
        9 => plain(b"XN", &[], &[], &[&[E], &[E, Ee], &[S, Se]]),
        10 => plain(b"XK", &[], &[S], &[&[E, Es], &[E, Ee], &[S, Se]]),
        11 => plain(b"XX", &[], &[], &[&[E], &[E, Ee, S, Es], &[S, Se]]),
        12 => plain(b"IN", &[], &[], &[&[E, S], &[E, Ee, Se]]),
        13 => plain(b"IK", &[], &[S], &[&[E, Es, S, Ss], &[E, Ee, Se]]),
        _ => plain(b"IX", &[], &[], &[&[E, S], &[E, Ee, Se, S, Es]]),
    }
}

// The fundamental pattern that has these parts.
fn plain(base: &[u8], initiator: &[Token], responder: &[Token], messages: &[&[Token]]) -> Pattern
    requires known { fundamental_of base.now
        ≡ Some (plain base.now initiator.now responder.now (map (λ m. m.now) messages.now)) }
    ensures value { result ≡ plain base.now initiator.now responder.now (map (λ m. m.now) messages.now) }
{
    let mut list = ArrayVec::new();
    for tokens in messages {
        list.push(Message::of(tokens));
    }
    Pattern::of(base, PskPlaces::none(), initiator, responder, list)
}
