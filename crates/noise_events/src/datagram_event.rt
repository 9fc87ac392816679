//! What may happen to the datagrams of two parties.

use noise_names::Role;

/// What may happen to the datagrams of two parties.
#[derive(Debug, Drop)]
pub enum DatagramEvent {
    /// This role seals a payload; the datagram is kept.
    Seal(Role, Vec<u8>),
    /// The datagram of this number, counted from 0, which the other role sealed, comes to this role.
    Open(Role, usize),
    /// Any bytes come to this role as one datagram.
    Raw(Role, Vec<u8>),
}
