//! What may happen between two parties.

use crate::cuts::Cuts;
use noise_names::Role;

/// What may happen between two parties.
#[derive(Debug, Drop)]
pub enum Event {
    /// This role writes a payload, and keeps the frame.
    Write(Role, Vec<u8>),
    /// This role writes a payload, and its frame comes to the other party at once, in these pieces.
    Say(Role, Vec<u8>, Cuts),
    /// The frame of this number, counted from 0, which the other role wrote, comes to this role in these pieces.
    Deliver(Role, usize, Cuts),
    /// Any bytes come to this role in one piece.
    Raw(Role, Vec<u8>),
}
