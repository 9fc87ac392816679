//! Noise for C, Go and Rust: handshakes, and the halves and cipher states that they leave, in the
//! caller's memory. No call takes memory, and no key pair is used: the caller is shown which DH result is wanted, and
//! hands it in. `include/noise.h` has the order of the calls, and what the caller must ensure.
#![tactic(auto)]

mod ciphers;
mod codes;
mod datagram_halves;
mod from_c;
mod halves;
mod halves_from_c;
mod late;
pub mod laws;
mod message_layout;
mod messages;
mod pattern_info;
mod patterns;
mod progress;
pub mod reading;
mod split;
mod start;
mod streams;
mod structs;
mod supplied_keys;
mod texts;
pub mod toy_streams;
pub mod toys;
pub mod two_programs;
pub mod two_runs;
pub mod two_streams;
mod version;
