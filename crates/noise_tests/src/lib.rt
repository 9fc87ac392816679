//! Tests of names, of the cipher and its parts, of handshakes, sessions and two parties, through public calls alone.
//! They stand above the crates that they test, since a crate with tests of its own is proved twice.
#![tactic(auto)]

#[cfg(test)]
mod tests;
