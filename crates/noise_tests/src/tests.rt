//! What no contract says: published values, printed faults, worked frames and transport messages, the results with
//! readers and writers that fail, and that each call can succeed.

mod aead;
mod channel;
mod conversations;
mod datagram_conversations;
mod datagram_duels;
mod datagrams;
mod duels;
mod finished;
mod frames;
mod handshake;
mod kdf;
mod names;
mod poly;
mod state;
mod streams;
mod support;
mod taking;
mod transport;
mod using;
