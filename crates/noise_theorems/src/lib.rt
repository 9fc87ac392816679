//! Theorems about two parties, as calls that no program makes, such as a whole conversation of two parties of equal
//! setup.
#![tactic(auto)]

mod arrival;
mod clash;
mod conversation;
mod datagrams;
mod ends;
mod fault;
mod frame;
pub mod laws;
mod lengths;
mod message;
mod network;
mod prologues;

pub use arrival::run_chunks;
pub use clash::{HashClash, find_clash, find_mix_hash_clash};
pub use conversation::converse;
pub use datagrams::run_datagrams;
pub use fault::ConversationFault;
pub use frame::comes_as;
pub use lengths::messages_fit;
pub use message::reads_as;
pub use network::run_events;
pub use prologues::run_apart;
