//! What may happen between two parties of a session, as a file or a test names it: events, chunks and windows, without
//! the parties themselves.
#![tactic(auto)]

mod cuts;
mod datagram_event;
mod event;
mod window;

pub use cuts::Cuts;
pub use datagram_event::DatagramEvent;
pub use event::Event;
pub use window::Window;
