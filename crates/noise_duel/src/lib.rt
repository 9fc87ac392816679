//! Two parties of a session, under any schedule of events: over a stream of frames, or over datagrams.
#![tactic(auto)]

mod datagram_duel;
mod datagram_party;
mod datagram_report;
mod delivery;
mod duel;
mod entry;
pub mod laws;
mod report;
mod writer;

pub use datagram_duel::DatagramDuel;
pub use datagram_report::{DatagramEntry, DatagramReport};
pub use duel::Duel;
pub use entry::{Entry, Idle};
pub use noise_events::{Cuts, DatagramEvent, Event};
pub use report::Report;
